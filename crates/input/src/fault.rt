ghost use Rattle.std.specs.Prelude.{◌≡◌, map};
ghost use Rattle.input.specs.Headers.{columns_of, width_of};
ghost use Rattle.input.specs.Showing.{source_number};
ghost use Rattle.input.specs.declared.fault.Unread.TheVariants.{Faulty, Memory};

use processor::refusal::Refusal;
use std::alloc::{AllocError, AllocFailed};
use std::error::Error;
use std::fmt;

// How far the reading of a file had come: its bytes, its records, the numbers in a record, the table that they make.
#[derive(Clone, Copy, PartialEq, Eq, Debug)]
pub enum Layer {
    Bytes,
    Records,
    Numbers,
    Table,
}

// The two files that are read.
#[derive(Clone, Copy, PartialEq, Eq, Debug)]
pub enum Source {
    Processor,
    Tasks,
}

impl Source {
    // The number that is printed.
    pub fn number(self) -> u32
        ensures { result ≡ source_number self }
    {
        match self {
            Source::Processor => 1,
            Source::Tasks => 2,
        }
    }

    // The columns of the file: the number of each, and the name that heads it.
    pub(crate) fn columns(self) -> &'static [(u32, &'static [u8])]
        ensures { map (λ column. (column.0, column.1.now)) result.now ≡ columns_of self }
    {
        match self {
            Source::Processor => &[(1, b"kind"), (2, b"a"), (3, b"b"), (4, b"c")],
            Source::Tasks => &[
                (1, b"rank"),
                (2, b"cycles"),
                (3, b"fixed"),
                (4, b"period"),
                (5, b"deadline"),
            ],
        }
    }

    // How many fields the records of the file have.
    pub(crate) fn width(self) -> usize
        ensures { result ≡ width_of self }
    {
        self.columns().len()
    }
}

// What is wrong with a file, and where: the header is the record 0, and the field 0 stands for the whole record.
#[derive(Clone, Copy, PartialEq, Eq, Debug)]
pub struct Fault {
    pub layer: Layer,
    pub cause: Refusal,
    pub file: Source,
    pub record: u32,
    pub field: u32,
}

impl fmt::Display for Fault {
    fn fmt<W: fmt::Write>(&self, f: &mut fmt::Formatter<W>) -> fmt::Result {
        let record = self.record;
        let field = self.field;
        let cause = self.cause;
        write!(f, "record {record}, field {field}: {cause}")
    }
}

impl Error for Fault {}

// Why a file was not read.
#[derive(Clone, Copy, PartialEq, Eq, Debug)]
pub enum Unread {
    Faulty(Fault),
    Memory,
}

impl fmt::Display for Unread {
    fn fmt<W: fmt::Write>(&self, f: &mut fmt::Formatter<W>) -> fmt::Result {
        match self {
            Unread::Faulty(fault) => write!(f, "{fault}"),
            Unread::Memory => f.write_str("there is not enough memory"),
        }
    }
}

impl Error for Unread {}

impl From<Fault> for Unread {
    ghost from_gives = { λ f r. r ≡ Faulty f };

    fn from(fault: Fault) -> Unread {
        Unread::Faulty(fault)
    }
}

impl From<AllocError> for Unread {
    ghost from_gives = { λ _ r. r ≡ Memory };

    fn from(_e: AllocError) -> Unread {
        Unread::Memory
    }
}

impl<T: Drop> From<AllocFailed<T>> for Unread {
    ghost from_gives = { λ _ r. r ≡ Memory };

    fn from(_e: AllocFailed<T>) -> Unread {
        Unread::Memory
    }
}
