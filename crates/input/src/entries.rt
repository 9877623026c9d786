ghost use Rattle.std.specs.Prelude.{◌≤◌, length};

use crate::fault::{Fault, Source};
use crate::line::{Line, read_entry, read_header};

// The records of a file after its header, up to the first that is at fault: how many were read, and where the next one
// starts.
#[derive(Drop)]
pub(crate) struct Entries<'a> {
    file: &'a [u8],
    source: Source,
    number: u32,
    at: usize,
    ghost counted: { number ≤ at },
    ghost within: { at ≤ length file.now },
    ghost short: { length file.now ≤ 65536 },
}

impl<'a> Entries<'a> {
    ghost use Rattle.std.specs.Prelude.{◌≡◌, MatchResult};
    ghost use Rattle.input.specs.Headers.{HeaderIn};

    // The records of a file that is not too long and has its header.
    pub(crate) fn of(file: &'a [u8], source: Source) -> Result<Entries<'a>, Fault>
        ensures { MatchResult result (λ es. HeaderIn file.now source (Ok es.at) × (es.file.now ≡ file.now) × (es.source ≡ source) × (es.number ≡ 0)) (λ e. HeaderIn file.now source (Err e)) }
    {
        let at = read_header(file, source)?;
        Ok(Entries {
            file,
            source,
            number: 0,
            at,
        })
    }
}

impl<'a> Iterator for Entries<'a> {
    type Item = Result<Line<'a>, Fault>;

    ghost use Rattle.std.specs.Prelude.{◌-◌};
    ghost use Rattle.std.specs.Iterator.{at_most};
    ghost use Rattle.input.specs.Walk.{NextEntry};

    ghost next_gives = { NextEntry };

    ghost remaining = { λ s. at_most (length s.file.now - s.at) };

    // The next record, or its fault, after which none is left.
    fn next(&mut self) -> Option<Result<Line<'a>, Fault>> {
        if self.at >= self.file.len() {
            return None;
        }
        self.number += 1;
        let line = read_entry(self.file, self.source, self.number, self.at);
        self.at = line.map_or(self.file.len(), |line| line.record.next);
        Some(line)
    }
}
