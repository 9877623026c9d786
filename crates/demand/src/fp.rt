ghost use Rattle.std.specs.Prelude.{◌≡◌, ℕ, ◌+◌, ◌*◌, ◌≤◌, true, length, IfSome};
ghost use Rattle.demand.specs.Limits.{longest_period, most_charge, most_tasks};
ghost use Rattle.demand.specs.Charges.{charge, charges};
ghost use Rattle.demand.specs.Demand.{above, taken_cycles, FpFull};
ghost use Rattle.demand.specs.Listings.{fp_groups, fp_times};
ghost use Rattle.demand.specs.FpLaws.{fp_decides, fp_lighter, fp_few, fp_short, fp_filled, fp_early};
ghost use Rattle.std.specs.List.{slice_get};
ghost use Rattle.processor.specs.Drives.{peak};
ghost use Rattle.std.proofs.Common.{rules};
ghost use Rattle.demand.specs.Fewer.{fp_empty};

use crate::listing::nth_listed;
use crate::policy::Policy;
use crate::set::TaskSet;
use crate::task::Task;
use crate::times::Times;
use processor::drive::Drive;

// Fixed priority: of the tasks that wait, the one of the smallest rank runs.
#[derive(Clone, Copy, PartialEq, Eq, Debug)]
pub struct Fp;

impl Task {
    // The ends of the periods from the start of a window on.
    fn turns(&self) -> Times
        ensures { (result.first ≡ self.now.period) × (result.step ≡ self.now.period) }
    {
        Times {
            first: self.period,
            step: self.period,
        }
    }

    // The cycles that the task takes within a window from those of a rank, where its own is smaller.
    fn taken(&self, rank: u32, drive: &Drive, window: u32) -> u64
        requires { window ≤ longest_period }
        ensures value { result ≡ taken_cycles rank window (charge (peak drive.now) self.now) }
        ensures bound { result ≤ longest_period * most_charge }
    {
        if self.rank < rank {
            u64::from(self.releases(window)) * self.charge(drive)
        } else {
            0
        }
    }
}

// The releases of the tasks above up to the deadline, task by task, and at last the deadline.
fn listed_time(tasks: &[Task], task: &Task, index: u32) -> Option<u32>
    ensures place { (top : ℕ) → result ≡ slice_get (fp_times task.now.rank task.now.deadline (charges top tasks.now)) index }
    ensures early { IfSome result (λ t. t ≤ task.now.deadline) }
{
    nth_listed(
        tasks,
        |other| if other.rank < task.rank {
            Some(other.turns())
        } else {
            None
        },
        task.deadline,
        index,
    )
}

// The cycles of a job, and of all jobs above it that arrive within a window.
fn taken_cycles(tasks: &[Task], task: &Task, drive: &Drive, window: u32) -> u64
    requires few { length tasks.now ≤ most_tasks }
    requires short { window ≤ longest_period }
    ensures { result ≡ (charge (peak drive.now) task.now).cycles + above task.now.rank (charges (peak drive.now) tasks.now) window }
{
    let above: u64 = tasks
        .iter()
        .map(|other| other.taken(task.rank, drive, window))
        .sum();
    task.charge(drive) + above
}

impl Policy for Fp {
    ghost span = { λ _ _. true };

    ghost full = { λ _ cs Z. FpFull cs Z };

    ghost groups = { λ _ cs. fp_groups cs };

    ghost exact = { λ _ ts s _. fp_decides ts s };

    ghost narrower = { Prim.search rules };

    ghost lighter = { λ _. fp_lighter };

    ghost bare = { Prim.search rules };

    ghost idle = { λ _. fp_empty };

    ghost timed = { Prim.search rules };

    ghost few = { λ _ ts s _. fp_few ts s };

    ghost short = { λ _ ts s _. fp_short ts s };

    ghost filled = { λ _ ts s _. fp_filled ts s };

    ghost early = { λ _ ts s _. fp_early ts s };

    fn spans(&self, _set: &TaskSet) -> bool {
        true
    }

    fn point(&self, set: &TaskSet, drive: &Drive, group: u32, index: u32) -> Option<(u32, u64)> {
        let tasks = set.tasks();
        let task = tasks.get(group as usize)?;
        let time = listed_time(tasks, task, index)?;
        Some((time, taken_cycles(tasks, task, drive, time)))
    }
}
