ghost use Rattle.std.specs.Prelude.{◌≡◌};
ghost use Rattle.input.specs.Showing.{source_number};
ghost use Rattle.input.specs.declared.fault.Fault.{Fault};
ghost use Rattle.input.specs.declared.fault.Unread.TheVariants as Unread;
ghost use Rattle.processor.specs.declared.refusal.Refusal.TheVariants.{Memory};
ghost use Rattle.sizing.specs.declared.size.SizeError.TheVariants.{Faulty, Refused};

use demand::policy::Policy;
use demand::task::Figures;
use input::fault::{Fault, Unread};
use input::processor_file::read_processor;
use input::tasks_file::read_tasks;
use plan::opening::Opening;
use plan::plan::Plan;
use processor::refusal::{Refusal, Refused};
use report::{FaultLine, Header, Line};
use std::alloc::{AllocError, Global};
use std::error::Error;
use std::fmt;
use supply::formula::Formula;
use supply::platform::Platform;

// Why two files give no report: one of them has a fault, or a call was turned away.
#[derive(Clone, Copy, PartialEq, Eq, Debug)]
pub enum SizeError {
    Faulty(Fault),
    Refused(Refusal),
}

impl fmt::Display for SizeError {
    fn fmt<W: fmt::Write>(&self, f: &mut fmt::Formatter<W>) -> fmt::Result {
        match self {
            SizeError::Faulty(_) => f.write_str("a file has a fault"),
            SizeError::Refused(Refusal::Memory) => f.write_str("there is not enough memory"),
            SizeError::Refused(refusal) => write!(f, "{refusal}"),
        }
    }
}

impl Error for SizeError {}

impl From<Unread> for SizeError {
    ghost from_gives = { λ u e. ((f : Fault) → u ≡ Unread.Faulty f → e ≡ Faulty f)
        × (u ≡ Unread.Memory → e ≡ Refused Memory) };

    fn from(unread: Unread) -> SizeError {
        match unread {
            Unread::Faulty(fault) => SizeError::Faulty(fault),
            Unread::Memory => SizeError::Refused(Refusal::Memory),
        }
    }
}

impl<T: Drop> From<Refused<T>> for SizeError {
    ghost from_gives = { λ r e. e ≡ Refused r.refusal };

    fn from(refused: Refused<T>) -> SizeError {
        SizeError::Refused(refused.refusal)
    }
}

impl From<AllocError> for SizeError {
    ghost from_gives = { λ _ e. e ≡ Refused Memory };

    fn from(error: AllocError) -> SizeError {
        SizeError::Refused(Refusal::from(error))
    }
}

// The line of a fault.
pub fn fault_line(fault: &Fault) -> FaultLine
    ensures refusal { result.refusal ≡ fault.now.cause }
    ensures file { result.file ≡ source_number fault.now.file }
    ensures record_number { result.«record» ≡ fault.now.«record» }
    ensures field { result.field ≡ fault.now.field }
{
    FaultLine {
        refusal: fault.cause,
        file: fault.file.number(),
        record: fault.record,
        field: fault.field,
    }
}

// Admits each task in turn and writes what came of it.
fn report_lines<P: Platform, Q: Policy>(
    heap: Global,
    plan: &mut Plan<P, Q>,
    tasks: &[Figures],
) -> Result<String, AllocError> {
    let mut text = Header.to_string(heap)?;
    'tasks: for (figures, record) in tasks.iter().zip(1..) {
        let answer = plan.admit(*figures);
        let drive = plan.drive();
        let line = Line {
            record,
            answer,
            drive,
        };
        write!(text, "{line}")?;
    }
    Ok(text)
}

// Turns a processor's file and a file of tasks into a report: over the bare processor, under a policy.
pub fn size<Q: Policy + Drop>(
    heap: Global,
    policy: Q,
    processor_file: &[u8],
    tasks_file: &[u8],
) -> Result<String, SizeError> {
    let processor = read_processor(heap, processor_file)?;
    let tasks = read_tasks(heap, tasks_file)?;
    let opening = Opening::new(heap, processor)?;
    let mut plan = opening.open(Formula, policy);
    let text = report_lines(heap, &mut plan, &tasks)?;
    Ok(text)
}
