ghost use Rattle.std.specs.Prelude.{Some};
ghost use Rattle.report.specs.Lines.{header_text};

use crate::row::{LONGEST_LINE, Row};
use arrayvec::ArrayString;
use std::fmt;

// The line that names the columns.
#[derive(Clone, Copy, PartialEq, Eq, Debug)]
pub struct Header;

impl Row for Header {
    ghost text = { λ _. header_text };

    fn text(&self) -> ArrayString<LONGEST_LINE> {
        let mut text = ArrayString::new();
        text.push_str("record,answer,ticket,low,high,qlow,qhigh,nanojoule,frame\r\n");
        text
    }
}

impl fmt::Display for Header {
    ghost output = { λ _. Some header_text };

    fn fmt<W: fmt::Write>(&self, f: &mut fmt::Formatter<W>) -> fmt::Result {
        f.write_str(self.text().as_str())
    }
}
