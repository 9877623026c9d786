ghost use Rattle.std.specs.Prelude.{◌≡◌, ℕ, ◌+◌, ◌<◌, ◌≤◌, List, length, IfOk, MatchBool, MatchOption};
ghost use Rattle.input.specs.Cells.{Cell, fault_of, NumberIn};
ghost use Rattle.input.specs.Headers.{Heads, LineAt, HeaderIn, EntryAt};

use crate::fault::{Fault, Layer, Source};
use crate::figure::figure;
use processor::refusal::Refusal;
use rfc4180::part::Record;
use rfc4180::records::{field, next_record};

// The longest file, in bytes.
pub const LONGEST_FILE: usize = 65_536;

// A record of one of the files, numbered from the header, which is 0.
#[derive(Clone, Copy, PartialEq, Eq, Debug)]
pub struct Line<'a> {
    pub file: &'a [u8],
    pub source: Source,
    pub number: u32,
    pub record: Record,
}

impl<'a> Line<'a> {
    // A fault in a field of this record.
    pub fn fault(&self, layer: Layer, cause: Refusal, field: u32) -> Fault
        ensures { result ≡ fault_of self.now layer cause field }
    {
        Fault {
            layer,
            cause,
            file: self.source,
            record: self.number,
            field,
        }
    }

    // The text of a field.
    pub fn text(&self, number: u32) -> Option<&'a [u8]>
        ensures { MatchOption result ((t : List ℕ) → Cell self.now.file.now self.now.«record» number t → ⊥) (λ t. Cell self.now.file.now self.now.«record» number t.now) }
    {
        field(self.file, &self.record, number)?.text(self.file)
    }

    // The number in a field.
    pub fn number_in(&self, field: u32) -> Result<u32, Fault>
        ensures { NumberIn self.now field result }
    {
        let fault = self.fault(Layer::Numbers, Refusal::NotANumber, field);
        self.text(field).and_then(figure).ok_or(fault)
    }

    // Whether a field has this text.
    pub fn reads(&self, number: u32, name: &[u8]) -> bool
        ensures { MatchBool result (Cell self.now.file.now self.now.«record» number name.now) (Cell self.now.file.now self.now.«record» number name.now → ⊥) }
    {
        self.text(number).is_some_and(|text| text == name)
    }

    // Whether the record has the fields that head its file.
    fn is_header(&self) -> bool
        ensures { MatchBool result (Heads self.now.source self.now.file.now self.now.«record») (Heads self.now.source self.now.file.now self.now.«record» → ⊥) }
    {
        self.record.fields as usize == self.source.width()
            && self
                .source
                .columns()
                .iter()
                .all(|(number, name)| self.reads(*number, name))
    }
}

// The record that starts at a place, by the grammar alone.
fn read_line(file: &[u8], source: Source, number: u32, at: usize) -> Result<Line<'_>, Fault>
    ensures reads { LineAt file.now source number at result }
    ensures forward { IfOk result (λ line. at < length file.now → at < line.«record».next) }
    ensures within { IfOk result (λ line. line.«record».next ≤ length file.now) }
{
    let record = next_record(file, at).map_err(|broken| Fault {
        layer: Layer::Records,
        cause: Refusal::NotCsv,
        file: source,
        record: number,
        field: broken.field,
    })?;
    Ok(Line {
        file,
        source,
        number,
        record,
    })
}

// Reads the header of a file that is not too long, and says where the first record after it starts.
pub fn read_header(file: &[u8], source: Source) -> Result<usize, Fault>
    ensures reads { HeaderIn file.now source result }
    ensures short { IfOk result (λ next. length file.now ≤ 65536) }
    ensures within { IfOk result (λ next. next ≤ length file.now) }
{
    if file.len() > LONGEST_FILE {
        return Err(Fault {
            layer: Layer::Bytes,
            cause: Refusal::FileTooLong,
            file: source,
            record: 0,
            field: 0,
        });
    }
    let line = read_line(file, source, 0, 0)?;
    if !line.is_header() {
        return Err(line.fault(Layer::Records, Refusal::HeaderDiffers, 0));
    }
    Ok(line.record.next)
}

// Reads a record after the header, with as many fields as its file has columns.
pub fn read_entry(file: &[u8], source: Source, number: u32, at: usize) -> Result<Line<'_>, Fault>
    ensures reads { EntryAt file.now source number at result }
    ensures forward { IfOk result (λ line. at < length file.now → at < line.«record».next) }
    ensures within { IfOk result (λ line. line.«record».next ≤ length file.now) }
{
    let line = read_line(file, source, number, at)?;
    if line.record.fields as usize != source.width() {
        return Err(line.fault(Layer::Records, Refusal::FieldCount, 0));
    }
    Ok(line)
}
