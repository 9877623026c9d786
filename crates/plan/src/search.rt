ghost use Rattle.std.specs.Prelude.{◌≡◌, ℕ, ◌*◌, ◌<◌, true, false, None, MatchOption};
ghost use Rattle.processor.specs.Drives.{energy_of, span_of};
ghost use Rattle.plan.specs.Feasible.{Feasible, NoDearer, Cheapest, NoCandidate};
ghost use Rattle.plan.specs.Searches.{Improves, Below, FixedAt, PairAt, SplitIn};

use crate::feasible::{Condition, Trial};
use demand::policy::Policy;
use demand::set::TaskSet;
use processor::drive::Drive;
use processor::mode::{LAST_MODE, LONGEST_FRAME};
use processor::splits::Splits;
use processor::table::Processor;
use supply::platform::Platform;

// Whether a drive costs less than the best so far.
fn is_cheaper(drive: &Drive, best: Option<Drive>) -> bool
    ensures { MatchOption best (result ≡ true) (λ b. (result ≡ true → energy_of drive.now * span_of b < energy_of b * span_of drive.now) × (result ≡ false → NoDearer b drive.now)) }
{
    best.is_none_or(|other| drive.cost() < other.cost())
}

// The search among the drives of a processor for the cheapest that meets a condition. Each step answers the better of
// the best so far and the drives that it looks at.
#[derive(Clone, Copy)]
struct Search<'a, C> {
    processor: &'a Processor,
    condition: &'a C,
}

impl<C: Condition> Search<'_, C> {
    // One drive more.
    fn better(&self, drive: Drive, best: Option<Drive>) -> Option<Drive>
        ensures { Improves (C.meets self.now.condition.now) (λ e. e ≡ drive) best result }
    {
        if is_cheaper(&drive, best) && self.condition.meets(&drive) {
            return Some(drive);
        }
        best
    }

    // The fixed drive of a mode number.
    fn better_fixed(&self, number: u32, best: Option<Drive>) -> Option<Drive>
        ensures { Improves (C.meets self.now.condition.now) (FixedAt self.now.processor.now number) best result }
    {
        match self.processor.mode(number) {
            Some(mode) => self.better(Drive::Fixed(mode), best),
            None => best,
        }
    }

    // The splits of one frame, in the order in which the cost rises, up to the first that meets the condition or the
    // first that is no cheaper than the best so far.
    fn better_split(&self, splits: &Splits, best: Option<Drive>) -> Option<Drive>
        ensures { Improves (C.meets self.now.condition.now) (SplitIn splits.now) best result }
    {
        'splits: for number in 0..splits.count() {
            let drive = Drive::Pair(splits.pair(number).unwrap());
            if !is_cheaper(&drive, best) {
                return best;
            }
            if self.condition.meets(&drive) {
                return Some(drive);
            }
        }
        best
    }

    // The pairs of a frame and two mode numbers.
    fn better_pair(&self, frame: u32, low: u32, high: u32, best: Option<Drive>) -> Option<Drive>
        ensures { Improves (C.meets self.now.condition.now) (PairAt self.now.processor.now frame low high) best result }
    {
        match self.processor.splits(frame, low, high) {
            Some(splits) => self.better_split(&splits, best),
            None => best,
        }
    }

    // All pairs of a frame.
    fn better_frame(&self, frame: u32, best: Option<Drive>) -> Option<Drive>
        ensures { Improves (C.meets self.now.condition.now) (Below (λ l. Below (PairAt self.now.processor.now frame l) 17) 17) best result }
    {
        let mut found = best;
        'low: for low in 1..=LAST_MODE {
            'high: for high in 1..=LAST_MODE {
                found = self.better_pair(frame, low, high, found);
            }
        }
        found
    }

    // All fixed drives.
    fn cheapest_fixed(&self) -> Option<Drive>
        ensures { Improves (C.meets self.now.condition.now) (Below (FixedAt self.now.processor.now) 17) None result }
    {
        let mut best = None;
        'modes: for number in 1..=LAST_MODE {
            best = self.better_fixed(number, best);
        }
        best
    }
}

// The cheapest candidate that meets a condition. Fixed drives come first, by number; then pairs, by longer frame, lower
// low mode, lower high mode; a later one is named only if it is strictly cheaper.
pub fn cheapest<C: Condition>(processor: &Processor, condition: &C) -> Option<Drive>
    ensures { MatchOption result (NoCandidate processor.now (C.meets condition.now)) (λ d. Cheapest processor.now (C.meets condition.now) d) }
{
    let search = Search {
        processor,
        condition,
    };
    let mut best = search.cheapest_fixed();
    let mut bound = LONGEST_FRAME + 1;
    'frames: while let Some(frame) = processor.longest_frame_below(bound) {
        best = search.better_frame(frame, best);
        bound = frame;
    }
    best
}

// The same of the condition that a set of tasks meets its deadlines, where the policy can decide the set.
pub fn cheapest_feasible<P: Platform, Q: Policy>(
    processor: &Processor,
    platform: &P,
    policy: &Q,
    set: &TaskSet,
) -> Option<Drive>
    ensures { Q.Policy.span policy.now set.now ≡ true → MatchOption result (NoCandidate processor.now (Feasible (P.Platform.supply platform.now) (Q.Policy.full policy.now) set.now)) (λ d. Cheapest processor.now (Feasible (P.Platform.supply platform.now) (Q.Policy.full policy.now) set.now) d) }
{
    let trial = Trial::new(platform, policy, set)?;
    cheapest(processor, &trial)
}
