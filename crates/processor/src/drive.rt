ghost use Rattle.std.specs.Prelude.{◌≡◌, ◌+◌, ◌-◌, ◌*◌, ◌<◌, ◌≤◌};
ghost use Rattle.processor.specs.Limits.{longest_switch, longest_frame};

use crate::mode::Mode;

// Two modes in turn. Each frame begins with the switch down and the low mode, for low_time together; then come the
// switch up and the high mode, for high_time together. Every pair that exists is lawful: it gains over its low mode.
#[derive(Clone, Copy, PartialEq, Eq, Debug)]
pub struct Pair {
    pub low: Mode,
    pub high: Mode,
    pub up: u32,
    pub down: u32,
    pub frame: u32,
    pub low_time: u32,
    pub high_time: u32,
    ghost faster: { low.speed < high.speed },
    ghost short_up: { up ≤ longest_switch },
    ghost short_down: { down ≤ longest_switch },
    ghost short_frame: { frame ≤ longest_frame },
    ghost whole: { low_time + high_time ≡ frame },
    ghost low_runs: { down < low_time },
    ghost high_runs: { up < high_time },
    ghost gains: { low.speed * frame < low.speed * (low_time - down) + high.speed * (high_time - up) },
}

// How the processor is driven: one mode for good, or two modes in turn.
#[derive(Clone, Copy, PartialEq, Eq, Debug)]
pub enum Drive {
    Fixed(Mode),
    Pair(Pair),
}
