ghost use Rattle.std.specs.Prelude.{◌≡◌, ℕ, true, false, if◌then◌else◌, Decides, MatchOption, nat_le, nat_lt};
ghost use Rattle.processor.specs.declared.drive.Drive.{Drive};
ghost use Rattle.demand.specs.Ranks.{Set};
ghost use Rattle.supply.specs.Laws.{longest_window};
ghost use Rattle.plan.specs.Feasible.{Feasible};

use demand::policy::Policy;
use demand::set::TaskSet;
use processor::drive::Drive;
use supply::platform::Platform;

// A condition on drives that can be tested.
pub trait Condition {
    ghost meets: { Self → Drive → Type 0 };

    // Whether a drive meets it.
    fn meets(&self, drive: &Drive) -> bool
        ensures { Decides result (meets self.now drive.now) };
}

// Whether the work of a point is supplied by its time.
fn covers<P: Platform>(platform: &P, drive: &Drive, time: u32, work: u64) -> bool
    ensures { result ≡ (if nat_lt longest_window time then false else nat_le work (P.Platform.supply platform.now drive.now time)) }
{
    platform
        .supplied(drive, time)
        .is_ok_and(|cycles| work <= cycles)
}

// Whether the set meets its deadlines under the drive: each group of the policy's points has one that is supplied.
pub fn passes<P: Platform, Q: Policy>(
    platform: &P,
    policy: &Q,
    set: &TaskSet,
    drive: &Drive,
) -> bool
    ensures { Q.Policy.span policy.now set.now ≡ true → Decides result (Feasible (P.Platform.supply platform.now) (Q.Policy.full policy.now) set.now drive.now) }
{
    // What a set keeps, its tasks show: they are few, and of different ranks.
    let _tasks = set.tasks();
    'groups: for group in 0..u32::MAX {
        'points: for index in 0..u32::MAX {
            let Some((time, work)) = policy.point(set, drive, group, index) else {
                // No point is left: the group has failed, unless there is no such group.
                return index == 0;
            };
            if covers(platform, drive, time, work) {
                continue 'groups;
            }
        }
        return false;
    }
    true
}

// That a set of tasks, one that the policy can decide, meets its deadlines on a platform.
#[derive(Drop)]
pub struct Trial<'a, P: Platform, Q: Policy> {
    platform: &'a P,
    policy: &'a Q,
    set: &'a TaskSet,
    ghost limits: { Set set.now },
    ghost spanned: { Q.Policy.span policy.now set.now ≡ true },
}

impl<'a, P: Platform, Q: Policy> Trial<'a, P, Q> {
    // The condition, where the policy can decide the set.
    pub fn new(platform: &'a P, policy: &'a Q, set: &'a TaskSet) -> Option<Trial<'a, P, Q>>
        ensures { MatchOption result (Q.Policy.span policy.now set.now ≡ false) (λ t. (t.platform.now ≡ platform.now) × (t.policy.now ≡ policy.now) × (t.set.now ≡ set.now)) }
    {
        // What a set keeps, its tasks show: they are few, and of different ranks.
        let _tasks = set.tasks();
        if !policy.spans(set) {
            return None;
        }
        Some(Trial {
            platform,
            policy,
            set,
        })
    }
}

impl<P: Platform, Q: Policy> Condition for Trial<'_, P, Q> {
    ghost meets = { λ t d. Feasible (P.Platform.supply t.platform.now) (Q.Policy.full t.policy.now) t.set.now d };

    fn meets(&self, drive: &Drive) -> bool {
        passes(self.platform, self.policy, self.set, drive)
    }
}
