ghost use Rattle.std.specs.Prelude.{◌≡◌, ◌+◌, ◌<◌, ◌≤◌, min, length, take, MatchBool, MatchOption, MatchResult, ◌≢◌, slice_index};
ghost use Rattle.rfc4180.specs.Grammar.{Text, Quotable, Plain, Quoted};
ghost use Rattle.rfc4180.specs.Places.{Follows, FieldAt, BrokenAt};

use crate::part::Part;

// What follows a field.
#[derive(Clone, Copy, PartialEq, Eq, Debug)]
pub enum After {
    Comma,
    LineEnd,
    FileEnd,
}

// A field as it was found: its part, where its text ends, closing quote included, and what follows there.
#[derive(Clone, Copy, PartialEq, Eq, Debug)]
pub struct Found {
    pub part: Part,
    pub end: usize,
    pub after: After,
}

// A byte that may stand in a field with no quotes around it.
fn is_text(byte: u8) -> bool
    ensures { MatchBool result (Text byte) (Text byte → ⊥) }
{
    matches!(byte, b' '..=b'~') && byte != b'"' && byte != b','
}

// A byte that may stand alone between quotes.
fn is_quotable(byte: u8) -> bool
    ensures { MatchBool result (Quotable byte) (Quotable byte → ⊥) }
{
    is_text(byte) || matches!(byte, b',' | b'\r' | b'\n')
}

// How much of the rest of a file stands with no quotes around it.
fn plain_len(rest: &[u8]) -> usize
    ensures within { result ≤ length rest.now }
    ensures plain { Plain (take result rest.now) }
    ensures stops { result < length rest.now → Text (slice_index rest.now result) → ⊥ }
{
    rest.iter()
        .position(|byte| !is_text(*byte))
        .unwrap_or(rest.len())
}

// How much of the rest of a file stands between quotes: up to the closing quote, to a byte that may not stand there, or
// to the end of the file.
fn quoted_len(rest: &[u8]) -> usize
    ensures within { result ≤ length rest.now }
    ensures quoted { Quoted (take result rest.now) }
    ensures stops { result < length rest.now → Quotable (slice_index rest.now result) → ⊥ }
    ensures unpaired { result + 1 < length rest.now → slice_index rest.now result ≡ 34 → slice_index rest.now (result + 1) ≢ 34 }
{
    let mut left = rest;
    loop {
        left = match left {
            [byte, after @ ..] if is_quotable(*byte) => after,
            [b'"', b'"', after @ ..] => after,
            _ => return rest.len() - left.len(),
        };
    }
}

// What follows a field before the rest of a file, or none where nothing may follow it.
fn follower(rest: &[u8]) -> Option<After>
    ensures { MatchOption result ((a : After) → Follows a rest.now 0 → ⊥) (λ a. Follows a rest.now 0) }
{
    match rest {
        [] => Some(After::FileEnd),
        [b',', ..] => Some(After::Comma),
        [b'\r', b'\n', ..] => Some(After::LineEnd),
        _ => None,
    }
}

// The field that starts at a place. Where it breaks the grammar, the place before the byte that breaks it.
pub fn read_field(file: &[u8], at: usize) -> Result<Found, usize>
    ensures { MatchResult result (λ f. FieldAt file.now (min at (length file.now)) f) (λ e. BrokenAt file.now (min at (length file.now)) e) }
{
    let start = at.min(file.len());
    let (part, end) = match &file[start..] {
        [b'"', inside @ ..] => {
            let end = start + 1 + quoted_len(inside);
            if !file[end..].starts_with(b"\"") {
                return Err(end);
            }
            let part = Part {
                start: start + 1,
                end,
            };
            (part, end + 1)
        }
        rest => {
            let end = start + plain_len(rest);
            (Part { start, end }, end)
        }
    };
    match follower(&file[end..]) {
        Some(after) => Ok(Found { part, end, after }),
        None => Err(end),
    }
}
