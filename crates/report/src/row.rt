ghost use Rattle.std.specs.Prelude.{◌≡◌, ℕ, ◌+◌, ◌*◌, ◌≤◌, List, length};
ghost use Rattle.report.specs.Placing.{Puts};
ghost use Rattle.report.specs.Texts.{row_text};

use arrayvec::ArrayString;
use itoa::Buffer;
use processor::refusal::Refusal;

// No line of a report is longer, with its line end.
pub const LONGEST_LINE: usize = 100;

// What a report shows as one line.
pub trait Row {
    ghost text: { Self → List ℕ };

    // The line, with its line end.
    fn text(&self) -> ArrayString<LONGEST_LINE>
        ensures { result.bytes ≡ text self.now };
}

// Writes the line of a row, from a place of the buffer on, and answers where it ends.
pub fn write<R: Row>(buffer: &mut [u8], at: usize, row: &R) -> Result<usize, Refusal>
    ensures puts { Puts buffer.old buffer.new at (R.text row.now) result }
    ensures short { length (R.text row.now) ≤ LONGEST_LINE }
{
    let text = row.text();
    let line = text.as_str().as_bytes();
    if at > buffer.len() || line.len() > buffer.len() - at {
        return Err(Refusal::NoRoom);
    }
    let end = at + line.len();
    buffer[at..end].copy_from_slice(line);
    Ok(end)
}

// A text, a number and then more numbers, each after a comma, and the line end. A number of 32 bits has at most ten digits,
// and with a comma takes eleven bytes; the first number and the line end take twelve of the hundred.
pub(crate) fn row_text(head: &str, first: u32, more: &[u32]) -> ArrayString<LONGEST_LINE>
    requires { length head.now + 11 * length more.now ≤ 88 }
    ensures { result.bytes ≡ row_text head.now first more.now }
{
    let mut text = ArrayString::new();
    let mut digits = Buffer::new();
    text.push_str(head);
    text.push_str(digits.format(first));
    'numbers: for n in more {
        text.push_str(",");
        text.push_str(digits.format(*n));
    }
    text.push_str("\r\n");
    text
}
