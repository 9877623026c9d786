ghost use Rattle.std.specs.Prelude.{◌≡◌, ℕ, ◌+◌, ◌-◌, ◌*◌, ◌≤◌, MatchOption};
ghost use Rattle.processor.specs.Intervals.{LawfulSplit, SplitsOf, Within, SplitOf, numbered_time};
ghost use Rattle.processor.specs.Limits.{longest_switch, longest_frame};

use crate::drive::Pair;
use crate::mode::{LONGEST_FRAME, LONGEST_SWITCH, Mode};
use crate::splits::Splits;

impl Splits {
    // The lawful splits of a frame between two modes, where there is one.
    pub fn new(low: Mode, high: Mode, up: u32, down: u32, frame: u32) -> Option<Splits>
        ensures { MatchOption result ((q : ℕ) → LawfulSplit low high up down frame q → ⊥) (λ s. SplitsOf low high up down frame s × ((q : ℕ) → LawfulSplit low high up down frame q → Within s q) × ((q : ℕ) → Within s q → LawfulSplit low high up down frame q)) }
    {
        if low.speed >= high.speed || up > LONGEST_SWITCH || down > LONGEST_SWITCH {
            return None;
        }
        if frame > LONGEST_FRAME || frame <= down {
            return None;
        }
        let gain = high.speed - low.speed;
        let loss = low.speed * down + high.speed * up;
        let least = loss / gain + 1;
        let most = frame - down - 1;
        if least > most {
            return None;
        }
        Some(Splits {
            low,
            high,
            up,
            down,
            frame,
            least,
            most,
        })
    }

    // How many splits there are.
    pub fn count(&self) -> u32
        ensures { result ≡ self.now.most - self.now.least + 1 }
    {
        self.most - self.least + 1
    }

    // The split of a number, counted from 0 in the order in which the cost rises, of equal costs the smaller high
    // time first.
    pub fn pair(&self, number: u32) -> Option<Pair>
        ensures { MatchOption result (self.now.most - self.now.least + 1 ≤ number) (λ p. SplitOf self.now (numbered_time self.now number) p) }
    {
        if number > self.most - self.least {
            return None;
        }
        let high_time = if self.low.power <= self.high.power {
            self.least + number
        } else {
            self.most - number
        };
        self.with_high_time(high_time)
    }

    // The split with this high time.
    pub fn with_high_time(&self, high_time: u32) -> Option<Pair>
        ensures { MatchOption result (Within self.now high_time → ⊥) (λ p. SplitOf self.now high_time p) }
    {
        if high_time < self.least || high_time > self.most {
            return None;
        }
        Some(Pair {
            low: self.low,
            high: self.high,
            up: self.up,
            down: self.down,
            frame: self.frame,
            low_time: self.frame - high_time,
            high_time,
        })
    }
}
