ghost use Rattle.input.specs.TaskFiles.{FiguresIn, TasksRead};
ghost use Rattle.std.specs.Prelude.{Ok, Err, MatchResult};

use crate::entries::Entries;
use crate::fault::{Fault, Source, Unread};
use crate::line::Line;
use demand::task::Figures;
use std::alloc::Global;

// The figures of a record.
fn figures_of(line: &Line<'_>) -> Result<Figures, Fault>
    ensures { FiguresIn line.now result }
{
    Ok(Figures {
        rank: line.number_in(1)?,
        cycles: line.number_in(2)?,
        fixed: line.number_in(3)?,
        period: line.number_in(4)?,
        deadline: line.number_in(5)?,
    })
}

// Reads the file of tasks: the figures of each, or what is wrong with the first record that has a fault.
pub fn read_tasks(heap: Global, file: &[u8]) -> Result<Vec<Figures>, Unread>
    ensures { MatchResult result (λ v. TasksRead file.now (Ok v.items)) (λ e. TasksRead file.now (Err e)) }
{
    let mut tasks = Vec::new(heap);
    for line in Entries::of(file, Source::Tasks)? {
        let figures = figures_of(&line?)?;
        tasks.push(figures)?;
    }
    Ok(tasks)
}
