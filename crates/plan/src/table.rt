ghost use Rattle.std.specs.Prelude.{◌≡◌, ◌-◌, ◌≤◌, [], ◌∷◌, ◌++◌, length, take, is_ok, IfOk, if◌then◌else◌, Ok, Err, vec_len, vec_capacity, nat_lt};
ghost use Rattle.processor.specs.declared.refusal.Refusal.TheVariants.{RankTaken, PlanFull};
ghost use Rattle.demand.specs.Limits.{most_tasks};
ghost use Rattle.demand.specs.Ranks.{Set, has_rank};

use demand::set::{MOST_TASKS, TaskSet};
use demand::task::Task;
use processor::refusal::Refusal;
use std::alloc::{AllocError, Global};

// The tasks of a plan, each under its ticket.
#[derive(Drop)]
pub struct TaskTable {
    tickets: Vec<u32>,
    set: TaskSet,
    ghost same: { length tickets.items ≡ length set },
    ghost room: { most_tasks ≤ vec_capacity tickets },
    ghost limits: { Set set },
}

impl TaskTable {
    pub fn new(heap: Global) -> Result<TaskTable, AllocError>
        ensures tickets { IfOk result (λ t. t.tickets.items ≡ []) }
        ensures tasks { IfOk result (λ t. t.set ≡ []) }
    {
        let tickets = Vec::with_capacity(heap, MOST_TASKS)?;
        let set = TaskSet::new(heap)?;
        Ok(TaskTable { tickets, set })
    }

    pub fn set(&self) -> &TaskSet
        ensures { result.now ≡ self.now.set }
    {
        &self.set
    }

    // Takes one task more, under its ticket.
    pub fn add(&mut self, ticket: u32, task: Task) -> Result<(), Refusal>
        ensures answer { result ≡ (if has_rank task.rank self.old.set then Err RankTaken else (if nat_lt (length self.old.set) most_tasks then Ok tt else Err PlanFull)) }
        ensures tickets { self.new.tickets.items ≡ (if is_ok result then self.old.tickets.items ++ ticket ∷ [] else self.old.tickets.items) }
        ensures tasks { self.new.set ≡ (if is_ok result then self.old.set ++ task ∷ [] else self.old.set) }
    {
        self.set.add(task)?;
        self.tickets.push_reserved(ticket);
        Ok(())
    }

    // Takes the newest task out again.
    pub fn drop_newest(&mut self)
        ensures tickets { self.new.tickets.items ≡ take (length self.old.tickets.items - 1) self.old.tickets.items }
        ensures tasks { self.new.set ≡ take (length self.old.set - 1) self.old.set }
    {
        self.set.drop_newest();
        let _ = self.tickets.pop();
    }
}
