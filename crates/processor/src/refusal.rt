ghost use Rattle.std.specs.Prelude.{◌≡◌, ◌++◌, Some, codes};
ghost use Rattle.processor.specs.Refusals.{refusal_number, expected_text};
ghost use Rattle.processor.specs.declared.refusal.Refusal.TheVariants.{Memory};

use std::alloc::{AllocError, AllocFailed};
use std::error::Error;
use std::fmt;

// Why a call was turned away: one list for the whole tool.
#[derive(Clone, Copy, PartialEq, Eq, Debug)]
pub enum Refusal {
    // a file
    FileTooLong,
    NotCsv,
    HeaderDiffers,
    FieldCount,
    NotANumber,
    UnknownKind,
    FrameFieldFilled,
    // an entry of the processor table
    ModeNumber,
    ModeRepeated,
    SpeedLimit,
    PowerLimit,
    FromUnlisted,
    ToUnlisted,
    SwitchToItself,
    SwitchRepeated,
    SwitchLimit,
    FrameLimit,
    FrameRepeated,
    NinthFrame,
    NoMode,
    // a layer
    ShareNumbers,
    HoldoffLimit,
    // a task
    TaskFigure,
    RankTaken,
    PlanFull,
    NoTickets,
    OutsideSpan,
    NoDrive,
    TicketNeverGiven,
    TicketWithdrawn,
    // a question
    WindowLimit,
    NotACandidate,
    LengthsDiffer,
    NoRoom,
    // any call that needs memory
    Memory,
}

impl Refusal {
    // The number that is printed.
    pub fn number(self) -> u32
        ensures { result ≡ refusal_number self }
    {
        match self {
            Refusal::FileTooLong => 1,
            Refusal::NotCsv => 2,
            Refusal::HeaderDiffers => 3,
            Refusal::FieldCount => 4,
            Refusal::NotANumber => 5,
            Refusal::UnknownKind | Refusal::FrameFieldFilled => 6,
            Refusal::ModeNumber | Refusal::ModeRepeated => 10,
            Refusal::SpeedLimit | Refusal::PowerLimit => 11,
            Refusal::FromUnlisted
            | Refusal::ToUnlisted
            | Refusal::SwitchToItself
            | Refusal::SwitchRepeated => 12,
            Refusal::SwitchLimit => 13,
            Refusal::FrameLimit | Refusal::FrameRepeated | Refusal::NinthFrame => 14,
            Refusal::NoMode => 15,
            Refusal::ShareNumbers => 16,
            Refusal::HoldoffLimit => 17,
            Refusal::TaskFigure => 20,
            Refusal::RankTaken => 21,
            Refusal::PlanFull => 22,
            Refusal::NoTickets => 23,
            Refusal::OutsideSpan => 24,
            Refusal::NoDrive => 25,
            Refusal::TicketNeverGiven => 26,
            Refusal::TicketWithdrawn => 27,
            Refusal::WindowLimit => 30,
            Refusal::NotACandidate => 31,
            Refusal::LengthsDiffer => 32,
            Refusal::NoRoom => 33,
            Refusal::Memory => 99,
        }
    }

    // What was expected.
    pub fn expected(self) -> &'static str
        ensures { result.now ≡ expected_text self }
    {
        match self {
            Refusal::FileTooLong => "a file of at most 65,536 bytes",
            Refusal::NotCsv => "CSV by RFC 4180 with CR LF line ends",
            Refusal::HeaderDiffers => "the header of this file",
            Refusal::FieldCount => "as many fields as the header has",
            Refusal::NotANumber => "one to ten digits, at most 4294967295",
            Refusal::UnknownKind => "mode, switch or frame",
            Refusal::FrameFieldFilled => "nothing, since a frame has only its length",
            Refusal::ModeNumber => "a mode number from 1 to 16",
            Refusal::ModeRepeated => "a mode number that is not listed before",
            Refusal::SpeedLimit => "a speed of at most 10000 MHz",
            Refusal::PowerLimit => "a power of at most 100000 mW",
            Refusal::FromUnlisted | Refusal::ToUnlisted => "a mode that is listed before",
            Refusal::SwitchToItself => "another mode than the switch comes from",
            Refusal::SwitchRepeated => "a switch that is not listed before",
            Refusal::SwitchLimit => "a switch of at most 20000 microseconds",
            Refusal::FrameLimit => "a frame of 1 to 20000 microseconds",
            Refusal::FrameRepeated => "a frame that is not listed before",
            Refusal::NinthFrame => "at most eight frames",
            Refusal::NoMode => "at least one mode",
            Refusal::ShareNumbers => "at least one part and at most all, of at most 1000",
            Refusal::HoldoffLimit => "a holdoff of at most 1000000 microseconds",
            Refusal::TaskFigure => "each figure of the task within its limits",
            Refusal::RankTaken => "a rank that no other task has",
            Refusal::PlanFull => "at most sixteen tasks",
            Refusal::NoTickets => "at most 65535 tickets",
            Refusal::OutsideSpan => "a hyperperiod of at most 1000000 microseconds",
            Refusal::NoDrive => "tasks that some drive can serve",
            Refusal::TicketNeverGiven => "a ticket that was given",
            Refusal::TicketWithdrawn => "a ticket that was not withdrawn",
            Refusal::WindowLimit => "a window of at most 1000000 microseconds",
            Refusal::NotACandidate => "a drive that the processor offers",
            Refusal::LengthsDiffer => "as many places as windows",
            Refusal::NoRoom => "room for the whole line",
            Refusal::Memory => "enough memory",
        }
    }
}

impl fmt::Display for Refusal {
    ghost output = { λ r. Some (codes "expected " ++ expected_text r) };

    fn fmt<W: fmt::Write>(&self, f: &mut fmt::Formatter<W>) -> fmt::Result {
        f.write_str("expected ")?;
        f.write_str(self.expected())
    }
}

impl Error for Refusal {}

// A value that was turned away, and why.
#[derive(Drop)]
pub struct Refused<T> {
    pub refusal: Refusal,
    pub value: T,
}

// So that `?` hands on the refusal. The value is let go.
impl<T: Drop> From<Refused<T>> for Refusal {
    ghost from_gives = { λ e r. r ≡ e.refusal };

    fn from(refused: Refused<T>) -> Refusal {
        refused.refusal
    }
}

impl From<AllocError> for Refusal {
    ghost from_gives = { λ _ r. r ≡ Memory };

    fn from(_e: AllocError) -> Refusal {
        Refusal::Memory
    }
}

impl<T: Drop> From<AllocFailed<T>> for Refusal {
    ghost from_gives = { λ _ r. r ≡ Memory };

    fn from(_e: AllocFailed<T>) -> Refusal {
        Refusal::Memory
    }
}
