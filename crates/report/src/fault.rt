ghost use Rattle.std.specs.Prelude.{Some};
ghost use Rattle.report.specs.Lines.{fault_text};

use crate::row::{LONGEST_LINE, Row, row_text};
use arrayvec::ArrayString;
use processor::refusal::Refusal;
use std::fmt;

// The line of a fault: why, and in which file, record and field.
#[derive(Clone, Copy, PartialEq, Eq, Debug)]
pub struct FaultLine {
    pub refusal: Refusal,
    pub file: u32,
    pub record: u32,
    pub field: u32,
}

impl Row for FaultLine {
    ghost text = { fault_text };

    fn text(&self) -> ArrayString<LONGEST_LINE> {
        let place = [self.file, self.record, self.field];
        row_text("fault,", self.refusal.number(), &place)
    }
}

impl fmt::Display for FaultLine {
    ghost output = { λ f. Some (fault_text f) };

    fn fmt<W: fmt::Write>(&self, f: &mut fmt::Formatter<W>) -> fmt::Result {
        f.write_str(self.text().as_str())
    }
}
