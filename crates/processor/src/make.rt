ghost use Rattle.std.specs.Prelude.{◌≡◌, ◌≤◌, MatchResult};
ghost use Rattle.processor.specs.Limits.{last_mode, top_speed, top_power};
ghost use Rattle.processor.specs.Made.{FixedOf, PairOf, ModeLimits};
ghost use Rattle.processor.specs.Pairs.{LawfulPair, WithinLimits};
ghost use Rattle.processor.specs.declared.refusal.Refusal.TheVariants.{NotACandidate};

use crate::drive::{Drive, Pair};
use crate::mode::{LAST_MODE, LONGEST_FRAME, LONGEST_SWITCH, Mode, TOP_POWER, TOP_SPEED};
use crate::refusal::Refusal;

// Making a drive from its figures.
impl Drive {
    // One mode for good.
    pub fn fixed(number: u32, speed: u32, power: u32) -> Result<Drive, Refusal>
        ensures { MatchResult result (λ d. FixedOf number speed power d) (λ e. (e ≡ NotACandidate) × (ModeLimits number speed power → ⊥)) }
    {
        if number < 1 || number > LAST_MODE || speed > TOP_SPEED || power > TOP_POWER {
            return Err(Refusal::NotACandidate);
        }
        Ok(Drive::Fixed(Mode {
            number,
            speed,
            power,
        }))
    }

    // Two modes in turn, with the times of the switches up and down and of the two modes in a frame.
    pub fn pair(
        low: Mode,
        high: Mode,
        up: u32,
        down: u32,
        low_time: u32,
        high_time: u32,
    ) -> Result<Drive, Refusal>
        ensures { MatchResult result (λ d. PairOf low high up down low_time high_time d) (λ e. (e ≡ NotACandidate) × (WithinLimits up down low_time high_time → LawfulPair low high up down low_time high_time → ⊥)) }
    {
        if up > LONGEST_SWITCH || down > LONGEST_SWITCH {
            return Err(Refusal::NotACandidate);
        }
        if low_time > LONGEST_FRAME || high_time > LONGEST_FRAME - low_time {
            return Err(Refusal::NotACandidate);
        }
        if low.speed >= high.speed || low_time <= down || high_time <= up {
            return Err(Refusal::NotACandidate);
        }
        let frame = low_time + high_time;
        let low_cycles = low.speed * (low_time - down);
        let high_cycles = high.speed * (high_time - up);
        if low_cycles + high_cycles <= low.speed * frame {
            return Err(Refusal::NotACandidate);
        }
        Ok(Drive::Pair(Pair {
            low,
            high,
            up,
            down,
            frame,
            low_time,
            high_time,
        }))
    }
}
