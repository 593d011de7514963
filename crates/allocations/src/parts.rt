//! The parts of an allocation, and the tests of them.
ghost use Rattle.std.specs.Prelude.{◌≡◌, ◌≤◌, length, sum};
ghost use Rattle.allocations.specs.Parts.{listed, thousandths_of, one_of, payable, rising, each_some, whole_parts};
ghost use Rattle.allocations.specs.Falls.{to_payer};
ghost use Rattle.sharing.specs.Weights.{sum_of};

use crate::allocation::own_amount;

/// One part of a bill: who pays it, and how many thousandths of the bill it is.
#[derive(Clone, Copy, PartialEq, Eq, Debug)]
pub struct Part {
    pub payer: u8,
    pub thousandths: u16,
}

/// An allocation has at most so many parts.
pub const MOST_PARTS: usize = 4;

/// The thousandths of a whole bill.
const WHOLE: u64 = 1_000;

/// Whether every payer is one of so many parties, numbered from 1.
pub fn payers_within(parts: &[Part], parties: usize) -> bool
    ensures { result ≡ payable parties (listed parts.now) }
{
    parts
        .iter()
        .all(|part| (1..=parties).contains(&usize::from(part.payer)))
}

/// Whether the parts make up a whole: 1 to 4 of them, payers strictly rising, each with at least one
/// thousandth, together 1,000.
#[tactic(auto, using(crate::proofs::Listed::listed_long), unfolding(crate::specs::Parts::whole_parts))]
pub fn are_whole(parts: &[Part]) -> bool
    ensures { result ≡ whole_parts (listed parts.now) }
{
    (1..=MOST_PARTS).contains(&parts.len())
        && are_rising(parts)
        && have_some(parts)
        && thousandths(parts) == WHOLE
}

fn are_rising(parts: &[Part]) -> bool
    ensures { result ≡ rising (listed parts.now) }
{
    parts.is_sorted_by(|part, next| part.payer < next.payer)
}

fn have_some(parts: &[Part]) -> bool
    ensures { result ≡ each_some (listed parts.now) }
{
    parts.iter().all(|part| part.thousandths >= 1)
}

// The thousandths together.
fn thousandths(parts: &[Part]) -> u64
    requires { length parts.now ≤ 4 }
    ensures { result ≡ sum (thousandths_of (listed parts.now)) }
{
    parts.iter().map(|part| u64::from(part.thousandths)).sum()
}

// The shares at the party's places together.
pub(crate) fn sum_to(parts: &[Part], shares: &[u64], party: u8) -> u64
    requires same { length shares.now ≡ length parts.now }
    requires most { sum shares.now ≤ 2000000000 }
    ensures { result ≡ sum_of (to_payer (listed parts.now) shares.now party) (length parts.now) }
{
    let mut due = 0;
    for (part, &share) in parts.iter().zip(shares) {
        due += own_amount(part.payer, party, share);
    }
    due
}
