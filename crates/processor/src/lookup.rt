ghost use Rattle.std.specs.Prelude.{◌≡◌, ℕ, [], length, filter, max, MatchOption, nat_lt};
ghost use Rattle.std.specs.List.{reduce, slice_get};
ghost use Rattle.processor.specs.Candidates.{Candidate, Named, OnFrame};
ghost use Rattle.processor.specs.Intervals.{Within, SplitOf};
ghost use Rattle.processor.specs.declared.drive.Pair.{Pair};
ghost use Rattle.processor.specs.Tables.{mode_of, time_of, has_frame, LongestBelow};
ghost use Rattle.processor.specs.declared.drive.Drive.TheVariants.{Fixed};

use crate::drive::Drive;
use crate::mode::Mode;
use crate::splits::Splits;
use crate::table::Processor;

// The largest of the numbers that are smaller than a bound.
fn largest_below(numbers: &[u32], bound: u32) -> Option<u32>
    ensures { result ≡ reduce max (filter (λ n. nat_lt n bound) numbers.now) }
{
    numbers.iter().copied().filter(|n| *n < bound).max()
}

impl Processor {
    // Whether a mode is listed at all.
    pub fn has_mode(&self) -> bool
        ensures { result ≡ nat_lt 0 (length self.now.modes.items) }
    {
        !self.modes.is_empty()
    }

    // The mode that was listed first.
    pub fn first_mode(&self) -> Option<Mode>
        ensures listed { MatchOption result (self.now.modes.items ≡ []) (λ m. Candidate self.now (Fixed m)) }
        ensures first { result ≡ slice_get self.now.modes.items 0 }
    {
        self.modes.first().copied()
    }

    // The mode of a number.
    pub fn mode(&self, number: u32) -> Option<Mode>
        ensures { result ≡ mode_of number self.now.modes.items }
    {
        self.modes
            .iter()
            .find_map(|mode| (mode.number == number).then_some(*mode))
    }

    // The time of the switch from one mode to another; without it the switch is impossible.
    pub fn switch_time(&self, from: u32, to: u32) -> Option<u32>
        ensures { result ≡ time_of from to self.now.switches.items }
    {
        let switch = self.switches.iter().find(|switch| switch.leads(from, to))?;
        Some(switch.time)
    }

    // Whether a frame is listed.
    pub fn has_frame(&self, length: u32) -> bool
        ensures { result ≡ has_frame length self.now.frames.items }
    {
        self.frames.contains(&length)
    }

    // The longest listed frame that is shorter than the bound.
    pub fn longest_frame_below(&self, bound: u32) -> Option<u32>
        ensures { LongestBelow bound self.now.frames.items result }
    {
        largest_below(&self.frames, bound)
    }

    // The splits of a listed frame between two listed modes with both switches listed, where there is one.
    pub fn splits(&self, frame: u32, low: u32, high: u32) -> Option<Splits>
        ensures { MatchOption result ((p : Pair) → OnFrame self.now frame low high p → ⊥) (λ s. ((p : Pair) → OnFrame self.now frame low high p → Within s p.high_time × SplitOf s p.high_time p) × ((q : ℕ) (p : Pair) → SplitOf s q p → OnFrame self.now frame low high p)) }
    {
        if !self.has_frame(frame) {
            return None;
        }
        let low_mode = self.mode(low)?;
        let high_mode = self.mode(high)?;
        let up = self.switch_time(low, high)?;
        let down = self.switch_time(high, low)?;
        Splits::new(low_mode, high_mode, up, down, frame)
    }

    // The candidate of two mode numbers and two times: a fixed drive is its mode twice, with the times 0.
    pub fn candidate(&self, low: u32, high: u32, low_time: u32, high_time: u32) -> Option<Drive>
        ensures { MatchOption result ((d : Drive) → Candidate self.now d → Named low high low_time high_time d → ⊥) (λ d. Candidate self.now d × Named low high low_time high_time d) }
    {
        if low == high {
            if low_time != 0 || high_time != 0 {
                return None;
            }
            let mode = self.mode(low)?;
            return Some(Drive::Fixed(mode));
        }
        let frame = low_time.checked_add(high_time)?;
        let splits = self.splits(frame, low, high)?;
        let pair = splits.with_high_time(high_time)?;
        Some(Drive::Pair(pair))
    }
}
