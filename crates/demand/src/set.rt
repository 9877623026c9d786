ghost use Rattle.std.specs.Prelude.{◌≡◌, ◌-◌, ◌<◌, ◌≤◌, ltb, [], ◌∷◌, ◌++◌, map, length, take, is_some, is_ok, IfOk, if◌then◌else◌, Ok, Err, MatchOption, MatchResult, nat_lt, slice_index_or, slice_set};
ghost use Rattle.std.specs.List.{remove};
ghost use Rattle.processor.specs.declared.refusal.Refusal.TheVariants.{TaskFigure, RankTaken, PlanFull};
ghost use Rattle.demand.specs.Limits.{most_tasks};
ghost use Rattle.demand.specs.Figures.{Work, figures_of, with_work, no_figures};
ghost use Rattle.demand.specs.Ranks.{Set, has_rank};

use crate::task::Task;
use processor::refusal::Refusal;
use std::alloc::{AllocError, Global};
use std::marker::Model;

// How many tasks a set has at most.
pub const MOST_TASKS: usize = 16;

// At most sixteen tasks, no two of one rank. The memory for all of them is there from the start.
#[derive(Debug, Drop)]
pub struct TaskSet {
    tasks: Vec<Task>,
}

impl Model for TaskSet {
    ghost use Rattle.std.specs.Prelude.{List};
    ghost use Rattle.demand.specs.declared.task.Task.{Task};

    ghost Value = { List Task };

    ghost use Rattle.demand.specs.TaskSet.{IsTaskSet};

    ghost view = { λ s. s.tasks.items };

    ghost invariant = { IsTaskSet };
}

impl TaskSet {
    // A set of no tasks.
    pub fn new(heap: Global) -> Result<TaskSet, AllocError>
        ensures items { IfOk result (λ s. s ≡ []) }
        ensures set { IfOk result (λ s. Set s) }
    {
        let tasks = Vec::with_capacity(heap, MOST_TASKS)?;
        Ok(TaskSet { tasks })
    }

    // The tasks, in the order in which they came.
    pub fn tasks(&self) -> &[Task]
        ensures value { result.now ≡ self.now }
        ensures set { Set result.now }
    {
        self.tasks.as_slice()
    }

    // Whether a task of this rank is in.
    pub fn has_rank(&self, rank: u32) -> bool
        ensures { result ≡ has_rank rank self.now }
    {
        self.tasks().iter().any(|task| task.rank == rank)
    }

    // Takes one task more.
    pub fn add(&mut self, task: Task) -> Result<(), Refusal>
        ensures answer { result ≡ (if has_rank task.rank self.old then Err RankTaken else (if ltb (length self.old) most_tasks then Ok tt else Err PlanFull)) }
        ensures items { self.new ≡ (if is_ok result then self.old ++ task ∷ [] else self.old) }
        ensures set { Set self.new }
    {
        if self.has_rank(task.rank) {
            return Err(Refusal::RankTaken);
        }
        if self.tasks.len() >= MOST_TASKS {
            return Err(Refusal::PlanFull);
        }
        self.tasks.push_reserved(task);
        Ok(())
    }

    // Takes the newest task out again.
    pub fn drop_newest(&mut self)
        ensures items { self.new ≡ take (length self.old - 1) self.old }
        ensures set { Set self.new }
    {
        let kept = self.tasks.len().saturating_sub(1);
        self.tasks.truncate(kept);
    }

    // Takes the task at a place out. The others keep their order.
    pub fn remove(&mut self, i: usize) -> Option<Task>
        ensures answer { MatchOption result (length self.old ≤ i) (λ t. (i < length self.old) × (t ≡ slice_index_or self.old i t)) }
        ensures items { self.new ≡ (if is_some result then remove self.old i else self.old) }
        ensures set { Set self.new }
    {
        if i >= self.tasks.len() {
            return None;
        }
        Some(self.tasks.remove(i))
    }

    // Gives the task at a place other cycles and another fixed time. False where no task is at that place.
    pub fn revise(&mut self, i: usize, cycles: u32, fixed: u32) -> Result<bool, Refusal>
        ensures answer { MatchResult result (λ b. Work cycles fixed × (b ≡ nat_lt i (length self.old))) (λ e. (e ≡ TaskFigure) × (Work cycles fixed → ⊥)) }
        ensures rows { map figures_of self.new ≡ (if is_ok result then slice_set (map figures_of self.old) i (with_work cycles fixed (slice_index_or (map figures_of self.old) i no_figures)) else map figures_of self.old) }
        ensures set { Set self.new }
    {
        let count = self.tasks.len();
        if !Task::takes(cycles, fixed) {
            return Err(Refusal::TaskFigure);
        }
        if i >= count {
            return Ok(false);
        }
        self.tasks[i].change(cycles, fixed);
        Ok(true)
    }
}
