ghost use Rattle.std.specs.Prelude.{◌≤◌};
ghost use Rattle.demand.specs.Limits.{last_rank, most_cycles, longest_fixed, longest_period};

// The highest rank.
pub const LAST_RANK: u32 = 255;

// The most cycles of a job.
pub const MOST_CYCLES: u32 = 100_000_000;

// The longest fixed time of a job, in microseconds.
pub const LONGEST_FIXED: u32 = 1_000_000;

// The longest period, in microseconds.
pub const LONGEST_PERIOD: u32 = 1_000_000;

// The figures of a task as they are handed in, within any limits or not.
#[derive(Clone, Copy, PartialEq, Eq, Debug)]
pub struct Figures {
    pub rank: u32,
    pub cycles: u32,
    pub fixed: u32,
    pub period: u32,
    pub deadline: u32,
}

// A periodic task. Each job takes so many cycles, and a fixed time on top that no speed shortens; it is due at the
// deadline after its release. A smaller rank goes first.
#[derive(Clone, Copy, PartialEq, Eq, Debug)]
pub struct Task {
    pub rank: u32,
    pub cycles: u32,
    pub fixed: u32,
    pub period: u32,
    pub deadline: u32,
    ghost ranked: { 1 ≤ rank },
    ghost last: { rank ≤ last_rank },
    ghost works: { 1 ≤ cycles },
    ghost light: { cycles ≤ most_cycles },
    ghost brief: { fixed ≤ longest_fixed },
    ghost often: { period ≤ longest_period },
    ghost due: { 1 ≤ deadline },
    ghost constrained: { deadline ≤ period },
}
