ghost use Rattle.std.specs.Prelude.{◌≡◌};
ghost use Rattle.supply.specs.Windows.{window as sum};
ghost use Rattle.supply.specs.Patterns.{speed, pattern_of};

use crate::bare::Bare;
use processor::drive::Pair;

// A bare processor, which answers by a window that slides over the speeds of a frame.
#[derive(Clone, Copy, PartialEq, Eq, Debug)]
pub struct Sliding;

// The speed of a pair in a microsecond.
fn speed_at(pair: &Pair, place: u32) -> u64
    ensures { result ≡ speed (pattern_of pair.now) place }
{
    let place = place % pair.frame;
    if place < pair.down {
        0
    } else if place < pair.low_time {
        u64::from(pair.low.speed)
    } else if place < pair.low_time + pair.up {
        0
    } else {
        u64::from(pair.high.speed)
    }
}

// The cycles of the first microseconds.
fn first_cycles(pair: &Pair, length: u32) -> u64
    ensures { result ≡ sum (speed (pattern_of pair.now)) 0 length }
{
    (0..length).map(|place| speed_at(pair, place)).sum()
}

impl Bare for Sliding {
    fn frame_cycles(&self, pair: &Pair) -> u64 {
        first_cycles(pair, pair.frame)
    }

    // The window slides from the start of a frame to its last microsecond.
    fn rest_cycles(&self, pair: &Pair, rest: u32) -> u64 {
        let mut cycles = first_cycles(pair, rest);
        let mut least = cycles;
        for start in 0..pair.frame - 1 {
            cycles = cycles + speed_at(pair, start + rest) - speed_at(pair, start);
            least = least.min(cycles);
        }
        least
    }
}
