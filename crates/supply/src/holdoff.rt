ghost use Rattle.std.specs.Prelude.{◌≡◌, ◌<◌, ◌≤◌, MatchResult};
ghost use Rattle.processor.specs.declared.refusal.Refusal.TheVariants.{HoldoffLimit};
ghost use Rattle.supply.specs.Layers.{longest_holdoff, holdoff_of};
ghost use Rattle.supply.specs.LayersLemmas.{holdoff_lawful};

use crate::platform::{LONGEST_WINDOW, Platform};
use processor::drive::Drive;
use processor::refusal::{Refusal, Refused};

// The longest holdoff, in microseconds.
pub const LONGEST_HOLDOFF: u32 = 1_000_000;

// Supplies nothing for a time at the start of a window, and then what the platform below supplies.
#[derive(PartialEq, Eq, Debug, Drop)]
pub struct Holdoff<P> {
    delay: u32,
    below: P,
    ghost limit: { delay ≤ longest_holdoff },
}

impl<P> Holdoff<P> {
    // A holdoff of at most the longest, or the platform back.
    pub fn new(delay: u32, below: P) -> Result<Holdoff<P>, Refused<P>>
        ensures { MatchResult result (λ h. (delay ≤ longest_holdoff) × (h.delay ≡ delay) × (h.below ≡ below)) (λ e. (longest_holdoff < delay) × (e.refusal ≡ HoldoffLimit) × (e.value ≡ below)) }
    {
        if delay > LONGEST_HOLDOFF {
            return Err(Refused {
                refusal: Refusal::HoldoffLimit,
                value: below,
            });
        }
        Ok(Holdoff { delay, below })
    }
}

impl<P: Platform> Platform for Holdoff<P> {
    ghost supply = { λ p d. holdoff_of p.delay (P.Platform.supply p.below d) };

    ghost lawful = { λ p d. holdoff_lawful (P.Platform.lawful p.below d) p.delay };

    fn supplied(&self, drive: &Drive, window: u32) -> Result<u64, Refusal> {
        if window > LONGEST_WINDOW {
            return Err(Refusal::WindowLimit);
        }
        if window < self.delay {
            return Ok(0);
        }
        self.below.supplied(drive, window - self.delay)
    }
}
