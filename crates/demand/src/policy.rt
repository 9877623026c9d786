ghost use Rattle.std.specs.Prelude.{◌≡◌, ℕ, ◌^◌, ◌<◌, ◌≤◌, Bool, true, ◌↔◌, List, [], map, length, Some, None, slice_index_or};
ghost use Rattle.std.specs.List.{remove};
ghost use Rattle.processor.specs.Drives.{peak};
ghost use Rattle.supply.specs.Laws.{Lawful, longest_window};
ghost use Rattle.demand.specs.declared.task.Task.{Task};
ghost use Rattle.demand.specs.Ranks.{Set};
ghost use Rattle.demand.specs.Figures.{times_of};
ghost use Rattle.demand.specs.Charges.{Charged, charges};
ghost use Rattle.demand.specs.Tests.{Passes, point as listed};

use crate::set::TaskSet;
use processor::drive::Drive;

// How the tasks share the processor, by what they demand of its supply.
pub trait Policy {
    // the sets that can be decided
    ghost span: { Self → List Task → Bool };

    // when every deadline is met under a supply
    ghost full: { Self → List Charged → (ℕ → ℕ) → Type 0 };

    // the points that are tested
    ghost groups: { Self → List Charged → List (List (ℕ × ℕ)) };

    // Whether the set is one that the policy can decide.
    fn spans(&self, set: &TaskSet) -> bool
        ensures { result ≡ span self.now set.now };

    // A point of a group: a time, and the cycles that have to be supplied by it. None beyond the list. The set meets
    // its deadlines if in each group some point is supplied.
    fn point(&self, set: &TaskSet, drive: &Drive, group: u32, index: u32) -> Option<(u32, u64)>
        ensures within { index < length (slice_index_or (groups self.now (charges (peak drive.now) set.now)) group []) → result ≡ Some (slice_index_or (slice_index_or (groups self.now (charges (peak drive.now) set.now)) group []) index (0, 0)) }
        ensures beyond { length (slice_index_or (groups self.now (charges (peak drive.now) set.now)) group []) ≤ index → result ≡ None };

    // the test at the points decides
    ghost exact: { (p : Self) (ts : List Task) → Set ts → span p ts ≡ true → (top : ℕ) (Z : ℕ → ℕ) → Lawful top Z → Passes Z (groups p (charges top ts)) ↔ full p (charges top ts) Z };

    // a task less leaves a set within the span, and asks no more
    ghost narrower: { (p : Self) (ts : List Task) (i : ℕ) → i < length ts → span p ts ≡ true → span p (remove ts i) ≡ true };

    ghost lighter: { (p : Self) (ts : List Task) (i : ℕ) → i < length ts → (top : ℕ) (Z : ℕ → ℕ) → full p (charges top ts) Z → full p (charges top (remove ts i)) Z };

    // no tasks are within the span, and ask nothing
    ghost bare: { (p : Self) → span p [] ≡ true };

    ghost idle: { (p : Self) (Z : ℕ → ℕ) → full p [] Z };

    // the span reads only ranks, periods and deadlines
    ghost timed: { (p : Self) (ts us : List Task) → map times_of ts ≡ map times_of us → span p ts ≡ span p us };

    // how many groups and points there are, and that no time is too long to ask for
    ghost few: { (p : Self) (ts : List Task) → Set ts → span p ts ≡ true → (top : ℕ) → length (groups p (charges top ts)) < 2 ^ 32 };

    ghost short: { (p : Self) (ts : List Task) → Set ts → span p ts ≡ true → (top g : ℕ) → length (slice_index_or (groups p (charges top ts)) g []) < 2 ^ 32 };

    ghost filled: { (p : Self) (ts : List Task) → Set ts → span p ts ≡ true → (top g : ℕ) → g < length (groups p (charges top ts)) → 0 < length (slice_index_or (groups p (charges top ts)) g []) };

    ghost early: { (p : Self) (ts : List Task) → Set ts → span p ts ≡ true → (top g i : ℕ) → i < length (slice_index_or (groups p (charges top ts)) g []) → (listed (groups p (charges top ts)) g i).0 ≤ longest_window };
}
