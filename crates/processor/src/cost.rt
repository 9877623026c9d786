ghost use Rattle.std.specs.Prelude.{◌*◌, ◌≤◌};
ghost use Rattle.processor.specs.Limits.{longest_frame, top_power};

// A mean power as a fraction: the energy of a frame in nJ over its length in microseconds, which is in mW.
#[derive(Clone, Copy, Debug)]
pub struct Cost {
    pub energy: u64,
    pub frame: u32,
    ghost some: { 1 ≤ frame },
    ghost short: { frame ≤ longest_frame },
    ghost weak: { energy ≤ top_power * frame },
}
