ghost use Rattle.std.specs.Prelude.{◌≡◌, Ok, MatchResult};
ghost use Rattle.input.specs.Cells.{NumberIn};
ghost use Rattle.input.specs.Entries.{word, KindIn, EmptyIn, EntryIn};
ghost use Rattle.input.specs.TaskFiles.{Leftmost};

use crate::fault::{Fault, Layer};
use crate::line::Line;
use processor::refusal::Refusal;

// What a record of the processor's file lists.
#[derive(Clone, Copy, PartialEq, Eq, Debug)]
pub enum Entry {
    Mode { number: u32, speed: u32, power: u32 },
    Switch { from: u32, to: u32, time: u32 },
    Frame { length: u32 },
}

// The first field of such a record.
#[derive(Clone, Copy, PartialEq, Eq, Debug)]
enum Kind {
    Mode,
    Switch,
    Frame,
}

impl Kind {
    // The word that stands for it.
    fn word(self) -> &'static [u8]
        ensures { result.now ≡ word self }
    {
        match self {
            Kind::Mode => b"mode",
            Kind::Switch => b"switch",
            Kind::Frame => b"frame",
        }
    }
}

// The kind of a record.
fn kind_in(line: &Line<'_>) -> Result<Kind, Fault>
    ensures { KindIn line.now result }
{
    let fault = line.fault(Layer::Numbers, Refusal::UnknownKind, 1);
    [Kind::Mode, Kind::Switch, Kind::Frame]
        .iter()
        .find(|kind| line.reads(1, kind.word()))
        .copied()
        .ok_or(fault)
}

// A frame has nothing in its last two fields.
fn leave_empty(line: &Line<'_>, number: u32) -> Result<(), Fault>
    ensures { EmptyIn line.now number result }
{
    if line.reads(number, b"") {
        return Ok(());
    }
    Err(line.fault(Layer::Numbers, Refusal::FrameFieldFilled, number))
}

// The numbers in the three fields after the kind.
fn three_numbers(line: &Line<'_>) -> Result<(u32, u32, u32), Fault>
    ensures { MatchResult result (λ ns. NumberIn line.now 2 (Ok ns.0) × NumberIn line.now 3 (Ok ns.1) × NumberIn line.now 4 (Ok ns.2)) (λ e. Leftmost line.now 2 4 e) }
{
    Ok((line.number_in(2)?, line.number_in(3)?, line.number_in(4)?))
}

// The entry of a record.
pub fn entry_of(line: &Line<'_>) -> Result<Entry, Fault>
    ensures { EntryIn line.now result }
{
    match kind_in(line)? {
        Kind::Mode => {
            let (number, speed, power) = three_numbers(line)?;
            Ok(Entry::Mode {
                number,
                speed,
                power,
            })
        }
        Kind::Switch => {
            let (from, to, time) = three_numbers(line)?;
            Ok(Entry::Switch { from, to, time })
        }
        Kind::Frame => {
            leave_empty(line, 3)?;
            leave_empty(line, 4)?;
            let length = line.number_in(2)?;
            Ok(Entry::Frame { length })
        }
    }
}
