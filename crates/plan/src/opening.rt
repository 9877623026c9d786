ghost use Rattle.std.specs.Prelude.{◌≡◌, ◌<◌, length};

use crate::table::TaskTable;
use processor::table::Processor;

// A processor over which a plan may be opened, since it has a mode, with the memory that the plan needs.
#[derive(Drop)]
pub struct Opening {
    pub(crate) processor: Processor,
    pub(crate) table: TaskTable,
    ghost some_mode: { 0 < length processor.modes.items },
    ghost no_tasks: { length table.set ≡ 0 },
    ghost no_tickets: { length table.tickets.items ≡ 0 },
}
