ghost use Rattle.std.specs.Prelude.{◌≡◌, ℕ, ◌≤◌, List, [], IfSome, MatchOption};
ghost use Rattle.std.specs.Fn.{FnReturnsAt};
ghost use Rattle.std.specs.List.{slice_get};
ghost use Rattle.demand.specs.declared.task.Task.{Task};
ghost use Rattle.demand.specs.Listings.{listed, terms};

use crate::task::Task;
use crate::times::Times;

// The n-th of the times that tasks list up to an end, task by task, and at last the end.
pub(crate) fn nth_listed<F: Fn(&Task) -> Option<Times>>(
    tasks: &[Task],
    times: F,
    end: u32,
    n: u32,
) -> Option<u32>
    requires { F.IsAlwaysCallable times }
    ensures place { (lists : Task → List ℕ) → ((t : Task) (r : _) → FnReturnsAt F.Fn times t r → MatchOption r (lists t ≡ []) (λ p. lists t ≡ terms p.first p.step end)) → result ≡ slice_get (listed lists tasks.now end) n }
    ensures early { IfSome result (λ t. t ≤ end) }
{
    let mut left = n;
    'tasks: for task in tasks {
        if let Some(times) = times(task) {
            let count = times.count(end);
            if left < count {
                return Some(times.nth(left));
            }
            left -= count;
        }
    }
    (left == 0).then_some(end)
}
