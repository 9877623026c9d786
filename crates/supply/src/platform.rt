ghost use Rattle.std.specs.Prelude.{◌≡◌, ℕ};
ghost use Rattle.processor.specs.declared.drive.Drive.{Drive};
ghost use Rattle.processor.specs.Drives.{peak};
ghost use Rattle.supply.specs.Laws.{Lawful, answer_of};

use processor::drive::Drive;
use processor::refusal::Refusal;

// The longest window that may be asked for, in microseconds.
pub const LONGEST_WINDOW: u32 = 1_000_000;

// What runs a drive, by the least cycles that it supplies in any window of a length. A platform that lacks a drive
// supplies 0 for it.
pub trait Platform {
    ghost supply: { Self → Drive → ℕ → ℕ };

    fn supplied(&self, drive: &Drive, window: u32) -> Result<u64, Refusal>
        ensures { result ≡ answer_of (supply self.now drive.now) window };

    ghost lawful: { (p : Self) (d : Drive) → Lawful (peak d) (supply p d) };
}
