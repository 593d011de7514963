//! The parts of an allocation, as an allocate notice holds them.
ghost use Rattle.std.specs.Prelude.{◌≡◌, ◌↔◌, ◌%◌, ◌≤◌, length, IsTrue, Some};
ghost use Rattle.notices.specs.Parts.{count_of, part_of, CountsParts, ShowsParts};

use std::fmt;

/// The bytes of a part: its payer, and its thousandths in two.
pub(crate) const PART: usize = 3;

/// The most parts that a notice holds.
pub(crate) const MOST_PARTS: usize = 4;

// Not the type of `allocations`: it is a rule here that files and amounts stand apart, each for its own buyer.

/// A payer and the thousandths of the bill that it pays.
#[derive(Clone, Copy, PartialEq, Eq, Debug)]
pub struct Part {
    pub payer: u8,
    pub thousandths: u16,
}

/// A part of its bytes: the payer first, and then the thousandths.
impl From<[u8; PART]> for Part {
    ghost use Rattle.notices.specs.Parts.{part_from};

    ghost from_gives = { λ bytes part. part ≡ part_from bytes };

    fn from(bytes: [u8; PART]) -> Part {
        let [payer, low, high] = bytes;
        let thousandths = u16::from_le_bytes([low, high]);
        Part { payer, thousandths }
    }
}

/// The payer and the thousandths, as `3:500`.
impl fmt::Display for Part {
    ghost use Rattle.notices.specs.Texts.{part_text};

    ghost output = { λ part. Some (part_text part) };

    fn fmt<W: fmt::Write>(&self, f: &mut fmt::Formatter<W>) -> fmt::Result {
        let payer = self.payer;
        let thousandths = self.thousandths;
        write!(f, "{payer}:{thousandths}")
    }
}

/// Whether the stretch is that of 0 to 4 parts.
pub(crate) fn are_parts(stretch: &[u8]) -> bool
    ensures { IsTrue result ↔ ((length stretch.now % 3 ≡ 0) × (length stretch.now ≤ 12)) }
{
    stretch.len() % PART == 0 && stretch.len() <= MOST_PARTS * PART
}

/// How many parts the stretch holds.
pub fn part_count(parts: &[u8]) -> usize
    ensures one_for_each_three_bytes { result ≡ count_of parts.now }
    ensures counts_the_parts_written { CountsParts parts.now result }
{
    parts.len() / PART
}

/// The part at the place `i` of the stretch, counted from 0, where there is one.
pub fn part_at(parts: &[u8], i: usize) -> Option<Part>
    ensures payer_and_thousandths_of_the_place { result ≡ part_of parts.now i }
    ensures shows_the_parts_written { ShowsParts parts.now i result }
{
    let (parts, _) = parts.as_chunks::<PART>();
    let part = parts.get(i)?;
    Some(Part::from(*part))
}
