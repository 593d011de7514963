//! A grid's standing: who answers for which point, who pays which bill, and the cost.
ghost use Rattle.std.specs.Prelude.{◌≡◌, map};
ghost use Rattle.allocations.specs.Falls.{parts_of};
ghost use Rattle.billing.specs.Standing.{provider_of, provided, counted, all_payable, checked};

use crate::lists::MOST_PLACES;
use allocations::{Allocation, payers_within};
use faults::{BookCause, Fault};

/// The most that the cost may be, in cents.
const MOST_COST: u64 = 1_000_000_000;

/// What a run is settled on, besides rates, feeds and rule. Parties and points are numbered from 1.
#[derive(Clone, Copy)]
pub struct Standing<'a> {
    // Two lists of the points, not one of pairs: a standing whose lists differ in length is refused, which callers know.
    /// The nominee of each point.
    pub nominees: &'a [u8],
    /// The nominator of each point.
    pub nominators: &'a [u8],
    /// Who pays the bill of each party.
    pub allocations: &'a [Allocation],
    /// The FCESS cost in cents.
    pub cost: u64,
    // An option in which 0 is nobody too, as it is in the lists: a standing that says so was always taken.
    /// Who receives the cost; none only where the cost is 0.
    pub provider: Option<u8>,
}

impl Standing<'_> {
    // Refuses what is no standing of a grid with so many parties. Its allocations are whole, as all are.
    #[tactic(auto, using(crate::proofs::Payers::wholes))]
    pub(crate) fn check(&self, parties: usize) -> Result<(), Fault>
        ensures { result ≡ checked parties self.now.nominees.now self.now.nominators.now (map parts_of self.now.allocations.now) self.now.cost (provider_of self.now.provider) }
    {
        if !self.is_counted(parties) || !are_all_payable(self.allocations, parties) {
            return Err(BookCause::OutOfRange.into());
        }
        if self.cost > MOST_COST {
            return Err(BookCause::WrongAmount.into());
        }
        Ok(())
    }

    // Whether the lists fit each other and the parties, and the provider is one of them.
    fn is_counted(&self, parties: usize) -> bool
        ensures { result ≡ counted parties self.now.nominees.now self.now.nominators.now (map parts_of self.now.allocations.now) self.now.cost (provider_of self.now.provider) }
    {
        (1..=MOST_PLACES).contains(&parties)
            && self.nominators.len() == self.nominees.len()
            && self.allocations.len() == parties
            && is_provided(parties, self.cost, self.provider)
    }
}

// Whether the provider is a party, or there is none and no cost.
fn is_provided(parties: usize, cost: u64, provider: Option<u8>) -> bool
    ensures { result ≡ provided parties cost (provider_of provider) }
{
    match provider {
        None | Some(0) => cost == 0,
        Some(number) => usize::from(number) <= parties,
    }
}

// Whether every payer of every allocation is a party.
fn are_all_payable(allocations: &[Allocation], parties: usize) -> bool
    ensures { result ≡ all_payable parties (map parts_of allocations.now) }
{
    allocations
        .iter()
        .all(|allocation| payers_within(allocation.parts(), parties))
}
