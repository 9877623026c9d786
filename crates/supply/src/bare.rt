ghost use Rattle.std.specs.Prelude.{◌≡◌, ◌<◌};
ghost use Rattle.supply.specs.Windows.{window as sum};
ghost use Rattle.supply.specs.Patterns.{speed, least_sum, pattern_of, supply_of};
ghost use Rattle.supply.specs.Supplies.{drive_lawful};

use crate::platform::{LONGEST_WINDOW, Platform};
use crate::window::split;
use processor::drive::{Drive, Pair};
use processor::refusal::Refusal;

// A processor with no layer over it, by how it counts the cycles of two modes in turn.
pub trait Bare {
    // The cycles of a whole frame.
    fn frame_cycles(&self, pair: &Pair) -> u64
        ensures { result ≡ sum (speed (pattern_of pair.now)) 0 pair.now.frame };

    // The least cycles in a part of a frame, wherever it starts.
    fn rest_cycles(&self, pair: &Pair, rest: u32) -> u64
        requires { rest < pair.now.frame }
        ensures { result ≡ least_sum (pattern_of pair.now) rest };
}

// The least cycles in a window, wherever it starts: the frames that it holds whole, and the rest.
fn pair_cycles<B: Bare>(bare: &B, pair: &Pair, window: u32) -> u64
    ensures { result ≡ least_sum (pattern_of pair.now) window }
{
    let (frames, rest) = split(pair, window);
    u64::from(frames) * bare.frame_cycles(pair) + bare.rest_cycles(pair, rest)
}

impl<B: Bare> Platform for B {
    ghost supply = { λ _ d t. supply_of d t };

    ghost lawful = { λ p d. drive_lawful d };

    fn supplied(&self, drive: &Drive, window: u32) -> Result<u64, Refusal> {
        if window > LONGEST_WINDOW {
            return Err(Refusal::WindowLimit);
        }
        match drive {
            Drive::Fixed(mode) => Ok(u64::from(mode.speed) * u64::from(window)),
            Drive::Pair(pair) => Ok(pair_cycles(self, pair, window)),
        }
    }
}
