ghost use Rattle.std.specs.Prelude.{◌≡◌, ◌≤◌, ◌≢◌};
ghost use Rattle.processor.specs.Limits.{last_mode, top_speed, top_power, longest_switch};

// The highest mode number.
pub const LAST_MODE: u32 = 16;

// The highest speed, in MHz.
pub const TOP_SPEED: u32 = 10_000;

// The highest power, in mW.
pub const TOP_POWER: u32 = 100_000;

// The longest switch, in microseconds.
pub const LONGEST_SWITCH: u32 = 20_000;

// The longest frame, in microseconds.
pub const LONGEST_FRAME: u32 = 20_000;

// How many frames a processor lists at most.
pub const MOST_FRAMES: usize = 8;

// An operating point of the processor: its number, its speed in MHz and its power in mW.
#[derive(Clone, Copy, PartialEq, Eq, Debug)]
pub struct Mode {
    pub number: u32,
    pub speed: u32,
    pub power: u32,
    ghost counted: { 1 ≤ number },
    ghost numbered: { number ≤ last_mode },
    ghost slow: { speed ≤ top_speed },
    ghost weak: { power ≤ top_power },
}

// The way from one mode to another, in microseconds.
#[derive(Clone, Copy, PartialEq, Eq, Debug)]
pub struct Switch {
    pub from: u32,
    pub to: u32,
    pub time: u32,
    ghost counted_from: { 1 ≤ from },
    ghost numbered_from: { from ≤ last_mode },
    ghost counted_to: { 1 ≤ to },
    ghost numbered_to: { to ≤ last_mode },
    ghost apart: { from ≢ to },
    ghost short: { time ≤ longest_switch },
}

impl Switch {
    ghost use Rattle.processor.specs.Tables.{leads};

    // Whether it is the switch from one mode to another.
    pub(crate) fn leads(&self, from: u32, to: u32) -> bool
        ensures { result ≡ leads from to self.now }
    {
        self.from == from && self.to == to
    }
}
