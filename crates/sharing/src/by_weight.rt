// Shares in proportion to the weights.
ghost use Rattle.std.specs.Prelude.{◌≡◌, true, length};
ghost use Rattle.sharing.specs.Domain.{accepts, answer, placed};
ghost use Rattle.sharing.specs.Fair.{Fair, OneFairWay};
ghost use Rattle.sharing.specs.Weights.{by_weight};
ghost use Rattle.sharing.specs.Parts.{weight_each, weight_all, weight_none};

use crate::rule::Rule;
use crate::split::{Split, total_in_domain};
use faults::Fault;

/// Each share is amount × weight ÷ total, rounded down; the cents left go one each to the largest
/// remainders, equal remainders to the earlier place.
#[derive(Clone, Copy)]
pub struct ByWeight;

impl Rule for ByWeight {
    ghost meaning = { λ _. by_weight };

    ghost each = { λ rule. weight_each };

    ghost all = { λ rule. weight_all };

    ghost none = { λ rule. weight_none };

    fn share(&self, amount: u64, weights: &[u64], shares: &mut [u64]) -> Result<(), Fault>
        ensures refuses_only_outside_the_domain { result ≡ answer amount weights.now shares.old }
        ensures writes_its_meaning_or_nothing { shares.new ≡ placed by_weight amount weights.now shares.old }
        ensures shares_are_fair { accepts amount weights.now (length shares.old) ≡ true → Fair amount weights.now shares.new }
    {
        let total = total_in_domain(amount, weights, shares.len())?;
        let split = Split {
            amount,
            total,
            weights,
        };
        let left = split.write_whole_shares(shares);
        split.give_odd_cents(left, shares);
        Ok(())
    }
}

/// Sharing by weight is fair, and it is the one way that is.
pub fn by_weight_is_the_fair_way()
    ensures { OneFairWay }
{}
