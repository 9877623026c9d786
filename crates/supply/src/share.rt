ghost use Rattle.std.specs.Prelude.{◌≡◌, ◌≤◌, MatchResult};
ghost use Rattle.processor.specs.declared.refusal.Refusal.TheVariants.{ShareNumbers};
ghost use Rattle.supply.specs.Layers.{Parts, most_parts, share_of};
ghost use Rattle.supply.specs.LayersLemmas.{share_lawful};

use crate::platform::Platform;
use processor::drive::Drive;
use processor::refusal::{Refusal, Refused};

// The most parts that a share takes its own from.
pub const MOST_PARTS: u32 = 1_000;

// Hands on num of each den cycles that the platform below supplies.
#[derive(PartialEq, Eq, Debug, Drop)]
pub struct Share<P> {
    num: u32,
    den: u32,
    below: P,
    ghost some: { 1 ≤ num },
    ghost part: { num ≤ den },
    ghost limit: { den ≤ most_parts },
}

impl<P> Share<P> {
    // A share of at least one part and at most all, or the platform back.
    pub fn new(num: u32, den: u32, below: P) -> Result<Share<P>, Refused<P>>
        ensures { MatchResult result (λ s. Parts num den × (s.num ≡ num) × (s.den ≡ den) × (s.below ≡ below)) (λ e. (Parts num den → ⊥) × (e.refusal ≡ ShareNumbers) × (e.value ≡ below)) }
    {
        if !(1..=den).contains(&num) || den > MOST_PARTS {
            return Err(Refused {
                refusal: Refusal::ShareNumbers,
                value: below,
            });
        }
        Ok(Share { num, den, below })
    }
}

impl<P: Platform> Platform for Share<P> {
    ghost supply = { λ p d. share_of p.num p.den (P.Platform.supply p.below d) };

    ghost lawful = { λ p d. share_lawful (P.Platform.lawful p.below d) p.num p.den p.some p.part };

    fn supplied(&self, drive: &Drive, window: u32) -> Result<u64, Refusal> {
        let cycles = self.below.supplied(drive, window)?;
        let parts = cycles * u64::from(self.num);
        Ok(parts / u64::from(self.den))
    }
}
