ghost use Rattle.std.specs.Prelude.{ℕ, MatchOption};
ghost use Rattle.input.specs.Numbers.{Spells};

// The most digits of a number.
const MOST_DIGITS: usize = 10;

// The number that a text of one to ten decimal digits spells, where it fits.
pub fn figure(text: &[u8]) -> Option<u32>
    ensures { MatchOption result ((v : ℕ) → Spells text.now v → ⊥) (λ v. Spells text.now v) }
{
    if text.is_empty() || text.len() > MOST_DIGITS {
        return None;
    }
    let mut value: u64 = 0;
    for byte in text {
        if !byte.is_ascii_digit() {
            return None;
        }
        value = 10 * value + u64::from(*byte - b'0');
    }
    u32::try_from(value).ok()
}
