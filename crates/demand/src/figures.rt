ghost use Rattle.std.specs.Prelude.{◌≡◌, Decides};
ghost use Rattle.demand.specs.Figures.{TaskOf, Work, figures_of, with_work};

use crate::task::{Figures, LAST_RANK, LONGEST_FIXED, LONGEST_PERIOD, MOST_CYCLES, Task};
use processor::refusal::Refusal;

impl TryFrom<Figures> for Task {
    type Error = Refusal;

    ghost try_from_gives = { TaskOf };

    // The task of these figures, where each is within its limits.
    fn try_from(figures: Figures) -> Result<Task, Refusal> {
        let Figures {
            rank,
            cycles,
            fixed,
            period,
            deadline,
        } = figures;
        if rank < 1 || rank > LAST_RANK {
            return Err(Refusal::TaskFigure);
        }
        if !Task::takes(cycles, fixed) {
            return Err(Refusal::TaskFigure);
        }
        if period > LONGEST_PERIOD || deadline < 1 || deadline > period {
            return Err(Refusal::TaskFigure);
        }
        Ok(Task {
            rank,
            cycles,
            fixed,
            period,
            deadline,
        })
    }
}

impl Task {
    // Whether a job may take so many cycles and such a fixed time.
    pub fn takes(cycles: u32, fixed: u32) -> bool
        ensures { Decides result (Work cycles fixed) }
    {
        1 <= cycles && cycles <= MOST_CYCLES && fixed <= LONGEST_FIXED
    }

    // Gives the task other cycles and another fixed time.
    pub(crate) fn change(&mut self, cycles: u32, fixed: u32)
        requires { Work cycles fixed }
        ensures { figures_of self.new ≡ with_work cycles fixed (figures_of self.old) }
    {
        self.cycles = cycles;
        self.fixed = fixed;
    }
}
