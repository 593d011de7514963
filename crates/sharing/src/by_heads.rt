// Equal shares for all whose weight is not 0.
ghost use Rattle.std.specs.Prelude.{◌≡◌, length};
ghost use Rattle.sharing.specs.Heads.{heads, by_heads};
ghost use Rattle.sharing.specs.HeadsLemmas.{heads_each, heads_all, heads_none};

use crate::by_weight::ByWeight;
use crate::rule::Rule;
use crate::split::{MOST_PLACES, total_in_domain};
use faults::Fault;

/// As by weight, with each weight that is not 0 taken as 1.
#[derive(Clone, Copy)]
pub struct ByHeads;

impl Rule for ByHeads {
    ghost meaning = { λ _. by_heads };

    ghost each = { λ rule. heads_each };

    ghost all = { λ rule. heads_all };

    ghost none = { λ rule. heads_none };

    fn share(&self, amount: u64, weights: &[u64], shares: &mut [u64]) -> Result<(), Fault> {
        total_in_domain(amount, weights, shares.len())?;
        // An array and its front: it is a rule here that sharing allocates nothing and stands on `faults` alone.
        let mut heads = [0; MOST_PLACES];
        let heads = &mut heads[..weights.len()];
        write_heads(weights, heads);
        ByWeight.share(amount, heads, shares)
    }
}

// Writes 1 for each weight that is not 0, and 0 for each that is.
fn write_heads(weights: &[u64], out: &mut [u64])
    requires { length out.old ≡ length weights.now }
    ensures { out.new ≡ heads weights.now }
{
    out.copy_from_slice(weights);
    for head in out {
        *head = (*head).min(1);
    }
}
