ghost use Rattle.std.specs.Prelude.{ℕ, List, MatchOption};
ghost use Rattle.input.specs.Showing.{file_of, RecordStart, BrokenText, FieldText, FaultText};

use crate::fault::{Fault, Source};
use processor::refusal::Refusal;
use rfc4180::records::{field, next_record};

// Where the record of a number starts, the header being 0.
fn record_start(file: &[u8], number: u32) -> Option<usize>
    ensures { MatchOption result ((at : ℕ) → RecordStart file.now number at → ⊥) (λ at. RecordStart file.now number at) }
{
    let mut at = 0;
    for _ in 0..number {
        at = next_record(file, at).ok()?.next;
        if at >= file.len() {
            return None;
        }
    }
    Some(at)
}

// The field at which the record that starts at a place breaks the grammar.
fn broken_text(file: &[u8], at: usize, number: u32) -> Option<&[u8]>
    ensures { MatchOption result ((t : List ℕ) → BrokenText file.now at number t → ⊥) (λ t. BrokenText file.now at number t.now) }
{
    let broken = next_record(file, at).err()?;
    if broken.field != number {
        return None;
    }
    file.get(broken.start..broken.end)
}

// A field of the record that starts at a place.
fn field_text(file: &[u8], at: usize, number: u32) -> Option<&[u8]>
    ensures { MatchOption result ((t : List ℕ) → FieldText file.now at number t → ⊥) (λ t. FieldText file.now at number t.now) }
{
    let record = next_record(file, at).ok()?;
    field(file, &record, number)?.text(file)
}

// The text of the field at fault, in the file that the fault is of.
fn text_in<'a>(file: &'a [u8], fault: &Fault) -> Option<&'a [u8]>
    ensures { MatchOption result ((t : List ℕ) → FaultText file.now fault.now.cause fault.now.«record» fault.now.field t → ⊥) (λ t. FaultText file.now fault.now.cause fault.now.«record» fault.now.field t.now) }
{
    let at = record_start(file, fault.record)?;
    match fault.cause {
        Refusal::NotCsv => broken_text(file, at, fault.field),
        _ => field_text(file, at, fault.field),
    }
}

// The part of the file that holds the field at fault, or none for a whole record and where there is no such place.
pub fn fault_text<'a>(processor: &'a [u8], tasks: &'a [u8], fault: &Fault) -> Option<&'a [u8]>
    ensures { MatchOption result ((t : List ℕ) → FaultText (file_of fault.now.file processor.now tasks.now) fault.now.cause fault.now.«record» fault.now.field t → ⊥) (λ t. FaultText (file_of fault.now.file processor.now tasks.now) fault.now.cause fault.now.«record» fault.now.field t.now) }
{
    match fault.file {
        Source::Processor => text_in(processor, fault),
        Source::Tasks => text_in(tasks, fault),
    }
}
