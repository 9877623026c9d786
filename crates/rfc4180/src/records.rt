ghost use Rattle.std.specs.Prelude.{◌≡◌, ◌+◌, ◌<◌, ◌≤◌, min, length, IfSome, IfOk, MatchOption, MatchResult};
ghost use Rattle.rfc4180.specs.Records.{RecordAt, BrokenRecord, Numbered};

use crate::part::{Broken, Part, Record};
use crate::scan::{After, Found, read_field};

// The record that starts at a place; a place past the end of the file is its end.
pub fn next_record(file: &[u8], at: usize) -> Result<Record, Broken>
    ensures forward { IfOk result (λ rec. at < length file.now → at < rec.next) }
    ensures reads { MatchResult result (λ rec. RecordAt file.now (min at (length file.now)) rec) (λ b. BrokenRecord file.now (min at (length file.now)) b) }
    ensures within { MatchResult result (λ rec. (rec.start ≤ rec.end) × (rec.end ≤ rec.next) × (rec.next ≤ length file.now)) (λ b. (b.start ≤ b.end) × (b.end ≤ length file.now)) }
{
    let start = at.min(file.len());
    let mut from = start;
    let mut fields: u32 = 1;
    loop {
        let Found { end, after, .. } = read_field(file, from).map_err(|end| Broken {
            field: fields,
            start: from,
            end,
        })?;
        let next = match after {
            After::Comma => {
                from = end + 1;
                fields = fields.saturating_add(1);
                continue;
            }
            After::LineEnd => end + 2,
            After::FileEnd => end,
        };
        return Ok(Record {
            start,
            end,
            next,
            fields,
        });
    }
}

// The part of a record's field, numbered from 1, or none where the record has no such field.
pub fn field(file: &[u8], record: &Record, number: u32) -> Option<Part>
    ensures finds { MatchOption result ((p : Part) → Numbered file.now (min «record».now.start (length file.now)) number p → ⊥) (λ p. Numbered file.now (min «record».now.start (length file.now)) number p) }
    ensures within { IfSome result (λ p. (p.start ≤ p.end) × (p.end ≤ length file.now)) }
{
    let skipped = number.checked_sub(1)?;
    let mut from = record.start.min(file.len());
    for _ in 0..skipped {
        let Found {
            end,
            after: After::Comma,
            ..
        } = read_field(file, from).ok()?
        else {
            return None;
        };
        from = end + 1;
    }
    Some(read_field(file, from).ok()?.part)
}
