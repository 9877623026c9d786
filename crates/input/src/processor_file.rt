ghost use Rattle.std.specs.Prelude.{◌≡◌, Ok, MatchResult, OnErr, OnOk};
ghost use Rattle.input.specs.ProcessorFiles.{field_refused, listed, entry_answer, Entered, TableFault, EntriesRead, Blamed};

use crate::entries::Entries;
use crate::entry::{Entry, entry_of};
use crate::fault::{Fault, Layer, Source, Unread};
use crate::line::Line;
use processor::refusal::Refusal;
use processor::table::Processor;
use std::alloc::Global;

// The field of an entry that the table refuses.
fn refused_field(cause: Refusal) -> u32
    ensures { result ≡ field_refused cause }
{
    match cause {
        Refusal::ModeNumber | Refusal::ModeRepeated | Refusal::FromUnlisted => 2,
        Refusal::FrameLimit | Refusal::FrameRepeated | Refusal::NinthFrame => 2,
        Refusal::SpeedLimit | Refusal::ToUnlisted => 3,
        Refusal::SwitchToItself | Refusal::SwitchRepeated => 3,
        Refusal::PowerLimit | Refusal::SwitchLimit => 4,
        _ => 0,
    }
}

// Puts an entry into the table.
fn enter(table: &mut Processor, entry: Entry) -> Result<(), Refusal>
    ensures answer { result ≡ entry_answer entry (listed table.old) }
    ensures entered { OnOk result (Entered entry (listed table.old) (listed table.new)) }
    ensures same { OnErr result (table.new ≡ table.old) }
{
    match entry {
        Entry::Mode {
            number,
            speed,
            power,
        } => table.add_mode(number, speed, power),
        Entry::Switch { from, to, time } => table.add_switch(from, to, time),
        Entry::Frame { length } => table.add_frame(length),
    }
}

// Lists the entry of a record in the table.
fn list(table: &mut Processor, line: &Line<'_>, entry: Entry) -> Result<(), Fault>
    ensures answer { MatchResult result (λ _. entry_answer entry (listed table.old) ≡ Ok tt) (λ e. TableFault line.now entry (listed table.old) e) }
    ensures entered { OnOk result (Entered entry (listed table.old) (listed table.new)) }
    ensures same { OnErr result (table.new ≡ table.old) }
{
    match enter(table, entry) {
        Ok(()) => Ok(()),
        Err(cause) => Err(line.fault(Layer::Table, cause, refused_field(cause))),
    }
}

// Reads the processor's file: its table, or what is wrong with the first record that has a fault.
pub fn read_processor(heap: Global, file: &[u8]) -> Result<Processor, Unread>
    ensures { MatchResult result (λ t. EntriesRead file.now t) (λ u. Blamed file.now u) }
{
    let entries = Entries::of(file, Source::Processor)?;
    let mut table = Processor::new(heap)?;
    for line in entries {
        let line = line?;
        let entry = entry_of(&line)?;
        list(&mut table, &line, entry)?;
    }
    if table.has_mode() {
        return Ok(table);
    }
    Err(Unread::Faulty(Fault {
        layer: Layer::Table,
        cause: Refusal::NoMode,
        file: Source::Processor,
        record: 0,
        field: 0,
    }))
}
