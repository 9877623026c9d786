ghost use Rattle.std.specs.Prelude.{◌≡◌, Some};
ghost use Rattle.report.specs.Lines.{drive_fields, line_fields, line_text};

use crate::row::{LONGEST_LINE, Row, row_text};
use arrayvec::ArrayString;
use processor::drive::Drive;
use processor::refusal::Refusal;
use std::fmt;

// A line of a report: the number of the record, from 1, what its call answered, the ticket or why there is none, and
// the drive after the call.
#[derive(Clone, Copy, PartialEq, Eq, Debug)]
pub struct Line {
    pub record: u32,
    pub answer: Result<u32, Refusal>,
    pub drive: Drive,
}

// The figures of a drive: its two modes, their times, the energy of a frame in nJ, and the frame. A fixed drive is
// its mode twice, with no times, and its power for a frame of one microsecond.
fn drive_fields(drive: &Drive) -> [u32; 6]
    ensures { result ≡ drive_fields drive.now }
{
    let cost = drive.cost();
    let energy = cost.energy as u32;
    match drive {
        Drive::Fixed(mode) => [mode.number, mode.number, 0, 0, energy, cost.frame],
        Drive::Pair(pair) => [
            pair.low.number,
            pair.high.number,
            pair.low_time,
            pair.high_time,
            energy,
            cost.frame,
        ],
    }
}

impl Line {
    // The number of the answer, 0 for a ticket; the ticket, or 0; and the figures of the drive.
    fn fields(&self) -> [u32; 8]
        ensures { result ≡ line_fields self.now }
    {
        let (answer, ticket) = match self.answer {
            Ok(ticket) => (0, ticket),
            Err(refusal) => (refusal.number(), 0),
        };
        let [low, high, low_time, high_time, energy, frame] = drive_fields(&self.drive);
        [
            answer, ticket, low, high, low_time, high_time, energy, frame,
        ]
    }
}

impl Row for Line {
    ghost text = { line_text };

    fn text(&self) -> ArrayString<LONGEST_LINE> {
        row_text("", self.record, &self.fields())
    }
}

impl fmt::Display for Line {
    ghost output = { λ l. Some (line_text l) };

    fn fmt<W: fmt::Write>(&self, f: &mut fmt::Formatter<W>) -> fmt::Result {
        f.write_str(self.text().as_str())
    }
}
