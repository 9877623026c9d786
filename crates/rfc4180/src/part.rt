ghost use Rattle.std.specs.Prelude.{◌≡◌, ◌≤◌, length, MatchOption};
ghost use Rattle.std.specs.List.{between};

// The bytes of a field in its file, without the quotes around them.
#[derive(Clone, Copy, PartialEq, Eq, Debug)]
pub struct Part {
    pub start: usize,
    pub end: usize,
}

// A record: its text, where the next record starts, and how many fields it has.
#[derive(Clone, Copy, PartialEq, Eq, Debug)]
pub struct Record {
    pub start: usize,
    pub end: usize,
    pub next: usize,
    pub fields: u32,
}

// The field at which a record breaks the grammar: its number from 1, and its text up to the byte that breaks it.
#[derive(Clone, Copy, PartialEq, Eq, Debug)]
pub struct Broken {
    pub field: u32,
    pub start: usize,
    pub end: usize,
}

impl Part {
    // The bytes of the part, or none where it does not lie within the file.
    pub fn text<'a>(&self, file: &'a [u8]) -> Option<&'a [u8]>
        ensures { MatchOption result (self.now.start ≤ self.now.end → self.now.end ≤ length file.now → ⊥) (λ t. t.now ≡ between self.now.start self.now.end file.now) }
    {
        file.get(self.start..self.end)
    }
}
