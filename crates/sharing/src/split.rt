// An amount that is found to be one that can be shared out, and its shares by weight.
ghost use Rattle.std.specs.Prelude.{◌≡◌, ◌*◌, ◌<◌, ◌≤◌, map, length, if◌then◌else◌, Ok, Err, sum};
ghost use Rattle.std.specs.List.{range_with_len};
ghost use Rattle.sharing.specs.Domain.{accepts, outside_domain};
ghost use Rattle.sharing.specs.Weights.{whole, remainder, left_over, first, served_before, by_weight};

use crate::total::total_within;
use faults::{BookCause, Fault};

// In cents.
const MOST_AMOUNT: u64 = 2_000_000_000;

pub(crate) const MOST_PLACES: usize = 32;

// With the largest amount it still makes a product that fits 64 bits.
const MOST_TOTAL: u64 = 9_000_000_000;

// An amount and weights that are known to be in the domain.
#[derive(Clone, Copy)]
pub(crate) struct Split<'a> {
    pub amount: u64,
    pub total: u64,
    pub weights: &'a [u64],
    ghost most: { amount ≤ 2000000000 },
    ghost sums: { total ≡ sum weights.now },
    ghost some: { 0 < total },
    ghost bound: { total ≤ 9000000000 },
}

impl Split<'_> {
    // Writes the whole shares, and gives the cents that are left over.
    pub(crate) fn write_whole_shares(&self, shares: &mut [u64]) -> u64
        requires { length shares.old ≡ length self.now.weights.now }
        ensures gives { result ≡ left_over self.now.amount self.now.weights.now }
        ensures places { shares.new ≡ map (whole self.now.amount self.now.weights.now) (range_with_len 0 (length self.now.weights.now)) }
    {
        shares.copy_from_slice(self.weights);
        let mut left = self.amount;
        for share in shares.iter_mut() {
            *share = self.product(*share) / self.total;
            left -= *share;
        }
        left
    }

    // Adds one of the cents that are left to each place that is served before they run out.
    pub(crate) fn give_odd_cents(&self, left: u64, shares: &mut [u64])
        requires wholes { shares.old ≡ map (whole self.now.amount self.now.weights.now) (range_with_len 0 (length self.now.weights.now)) }
        requires rest { left ≡ left_over self.now.amount self.now.weights.now }
        ensures { shares.new ≡ by_weight self.now.amount self.now.weights.now }
    {
        for (i, share) in shares.iter_mut().enumerate() {
            if self.places_before(i) < left {
                *share += 1;
            }
        }
    }

    // How many places are served before the place `i`, counted from 0.
    fn places_before(&self, i: usize) -> u64
        requires { i < length self.now.weights.now }
        ensures { result ≡ served_before (remainder self.now.amount self.now.weights.now) (length self.now.weights.now) i }
    {
        let own = self.product(self.weights[i]) % self.total;
        let mut before = 0;
        for (j, &weight) in self.weights.iter().enumerate() {
            if goes_first(self.product(weight) % self.total, j, own, i) {
                before += 1;
            }
        }
        before
    }

    // The amount times one of the weights.
    fn product(&self, weight: u64) -> u64
        requires { weight ≤ self.now.total }
        ensures { result ≡ self.now.amount * weight }
    {
        self.amount * weight
    }
}

// The total of the weights, where the amount can be shared out over them to so many places.
pub(crate) fn total_in_domain(amount: u64, weights: &[u64], places: usize) -> Result<u64, Fault>
    ensures { result ≡ (if accepts amount weights.now places then Ok (sum weights.now) else Err outside_domain) }
{
    if places != weights.len() || amount > MOST_AMOUNT || !(1..=MOST_PLACES).contains(&places) {
        return Err(BookCause::OutsideDomain.into());
    }
    match total_within(weights, MOST_TOTAL) {
        Some(total) if total >= 1 => Ok(total),
        _ => Err(BookCause::OutsideDomain.into()),
    }
}

// Whether the place `j`, with the remainder `other`, is served before the place `i`, with the remainder `own`:
// the larger remainder goes first, and of two equal ones the earlier place.
fn goes_first(other: u64, j: usize, own: u64, i: usize) -> bool
    ensures { result ≡ first other j own i }
{
    (own, j) < (other, i)
}
