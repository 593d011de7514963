//! Lists with a place for each party, or for each point.
ghost use Rattle.std.specs.Prelude.{◌≡◌, ℕ, ◌+◌, ◌<◌, ◌≤◌, length, slice_index};

use arrayvec::ArrayVec;

/// The most parties, and the most points, that a grid has.
pub(crate) const MOST_PLACES: usize = 32;

/// A number for each place. It takes no heap. A run has several side by side, not one of all amounts, since a
/// sharing rule takes a plain list and fills another.
pub(crate) type Numbers = ArrayVec<u64, MOST_PLACES>;

// What is told of each number from 1 on, of so many. That they are at most 32 is asked by each function that takes a
// count: a type of count would be made at one place, from the length of the notes, and be no plainer.
pub(crate) fn numbered<F: Fn(u8) -> u64>(count: u8, tell: F) -> Numbers
    requires few { count ≤ 32 }
    requires tells { (number : ℕ) → 1 ≤ number → number ≤ count → F.pre tell number }
    ensures long { length result.items ≡ count }
    ensures told { (i : ℕ) → i < count → F.post tell (i + 1) (slice_index result.items i) }
{
    let mut numbers = Numbers::new();
    for number in 1..=count {
        numbers.push(tell(number));
    }
    numbers
}
