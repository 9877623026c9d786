ghost use Rattle.std.specs.Prelude.{◌≡◌, ℕ, ◌+◌, ◌-◌, ◌*◌, ◌/◌, ◌<◌, ◌≤◌};
ghost use Rattle.processor.specs.Limits.{longest_switch, longest_frame};

use crate::mode::Mode;

// All lawful splits of a frame between two modes: the high times from least to most.
#[derive(Clone, Copy, PartialEq, Eq, Debug)]
pub struct Splits {
    pub low: Mode,
    pub high: Mode,
    pub up: u32,
    pub down: u32,
    pub frame: u32,
    pub least: u32,
    pub most: u32,
    ghost faster: { low.speed < high.speed },
    ghost short_up: { up ≤ longest_switch },
    ghost short_down: { down ≤ longest_switch },
    ghost short_frame: { frame ≤ longest_frame },
    ghost some: { least ≤ most },
    ghost first: { least ≡ (low.speed * down + high.speed * up) / (high.speed - low.speed) + 1 },
    ghost last: { most + down + 1 ≡ frame },
}
