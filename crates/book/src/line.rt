// A party's place in the book.

use billing::Note;

/// A party's line: its note, with nothing on it while the book is open, and what is outstanding of it.
#[derive(Clone, Copy)]
pub struct Line {
    pub(crate) note: Note,
    /// What is left to pay of its due, in cents.
    pub(crate) owing: u64,
    /// What is left to pay out of its credit, in cents.
    pub(crate) owed: u64,
}

impl Line {
    /// The line of a new book.
    pub(crate) const BLANK: Line = Line {
        note: BLANK_NOTE,
        owing: 0,
        owed: 0,
    };
}

pub(crate) const BLANK_NOTE: Note = Note {
    share: 0,
    charge: 0,
    due: 0,
    credit: 0,
};
