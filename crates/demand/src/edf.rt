ghost use Rattle.std.specs.Prelude.{◌≡◌, ℕ, ◌*◌, ◌≤◌, ◌↔◌, length, IfSome};
ghost use Rattle.demand.specs.Limits.{longest_span, most_charge, most_tasks};
ghost use Rattle.demand.specs.Charges.{charge, charges};
ghost use Rattle.demand.specs.Demand.{demand, due_cycles, EdfFull};
ghost use Rattle.demand.specs.Hyper.{gcd, lcm, hyper, periods, within_span, edf_span, Least};
ghost use Rattle.demand.specs.Listings.{edf_groups, edf_times, Deadline};
ghost use Rattle.demand.specs.EdfLaws.{edf_decides, edf_narrower, edf_lighter, edf_bare, edf_timed, edf_few, edf_short, edf_filled, edf_early};
ghost use Rattle.demand.specs.Fewer.{edf_empty};
ghost use Rattle.std.specs.List.{slice_get};
ghost use mathlib.Core.List.{Memᴰ};
ghost use Rattle.processor.specs.Drives.{peak};

use crate::listing::nth_listed;
use crate::policy::Policy;
use crate::set::TaskSet;
use crate::task::Task;
use processor::drive::Drive;

// The longest hyperperiod that can be decided, in microseconds.
pub const LONGEST_SPAN: u32 = 1_000_000;

// Earliest deadline first.
#[derive(Clone, Copy, PartialEq, Eq, Debug)]
pub struct Edf;

// The greatest common divisor, by Euclid.
fn common_divisor(a: u32, b: u32) -> u32
    ensures { result ≡ gcd a b }
{
    let mut big = a;
    let mut small = b;
    'euclid: while small > 0 {
        let rest = big % small;
        big = small;
        small = rest;
    }
    big
}

// The least common multiple of all periods, 1 without tasks.
pub fn hyperperiod(tasks: &[Task]) -> Option<u32>
    ensures value { result ≡ within_span (hyper (periods tasks.now)) }
    ensures least { Least (periods tasks.now) (hyper (periods tasks.now)) }
{
    tasks
        .iter()
        .try_fold(1, |hyper, task| task.common_multiple(hyper))
}

impl Task {
    // The least common multiple of the period and a number, unless it is longer than the span.
    fn common_multiple(&self, so_far: u32) -> Option<u32>
        ensures { result ≡ within_span (lcm so_far self.now.period) }
    {
        let divisor = common_divisor(so_far, self.period);
        let multiple = u64::from(so_far / divisor) * u64::from(self.period);
        if multiple > u64::from(LONGEST_SPAN) {
            return None;
        }
        Some(multiple as u32)
    }

    // The cycles of the jobs that arrive and are due within a window.
    fn due_cycles(&self, drive: &Drive, window: u32) -> u64
        requires { window ≤ longest_span }
        ensures value { result ≡ due_cycles window (charge (peak drive.now) self.now) }
        ensures bound { result ≤ longest_span * most_charge }
    {
        u64::from(self.jobs(window)) * self.charge(drive)
    }
}

// The deadlines up to an end, task by task, and at last the end.
pub fn listed_time(tasks: &[Task], end: u32, group: u32) -> Option<u32>
    ensures place { (top : ℕ) → result ≡ slice_get (edf_times (charges top tasks.now) end) group }
    ensures exactly { (top t : ℕ) → Memᴰ t (edf_times (charges top tasks.now) end) ↔ Deadline (charges top tasks.now) end t }
    ensures early { IfSome result (λ t. t ≤ end) }
{
    nth_listed(tasks, |task| Some(task.dues()), end, group)
}

// The cycles of all jobs that arrive and are due within a window.
fn due_cycles(tasks: &[Task], drive: &Drive, window: u32) -> u64
    requires few { length tasks.now ≤ most_tasks }
    requires short { window ≤ longest_span }
    ensures { result ≡ demand (charges (peak drive.now) tasks.now) window }
{
    tasks
        .iter()
        .map(|task| task.due_cycles(drive, window))
        .sum()
}

impl Policy for Edf {
    ghost span = { λ _ ts. edf_span ts };

    ghost full = { λ _ cs Z. EdfFull cs Z };

    ghost groups = { λ _ cs. edf_groups cs };

    ghost exact = { λ _ ts _. edf_decides ts };

    ghost narrower = { λ _. edf_narrower };

    ghost lighter = { λ _. edf_lighter };

    ghost bare = { λ _. edf_bare };

    ghost idle = { λ _. edf_empty };

    ghost timed = { λ _. edf_timed };

    ghost few = { λ _ ts s w top. edf_few ts w top s };

    ghost short = { λ _ ts _. edf_short ts };

    ghost filled = { λ _ ts _. edf_filled ts };

    ghost early = { λ _ ts _. edf_early ts };

    fn spans(&self, set: &TaskSet) -> bool {
        hyperperiod(set.tasks()).is_some()
    }

    fn point(&self, set: &TaskSet, drive: &Drive, group: u32, index: u32) -> Option<(u32, u64)> {
        if index > 0 {
            return None;
        }
        let tasks = set.tasks();
        let hyper = hyperperiod(tasks)?;
        let time = listed_time(tasks, hyper, group)?;
        Some((time, due_cycles(tasks, drive, time)))
    }
}
