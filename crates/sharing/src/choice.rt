// A rule that is chosen as the program runs.
ghost use Rattle.sharing.specs.Chosen.{chosen};
ghost use Rattle.sharing.specs.declared.choice.Choice.TheVariants.{Weight, Heads};
ghost use Rattle.sharing.specs.HeadsLemmas.{heads_each, heads_all, heads_none};
ghost use Rattle.sharing.specs.Parts.{weight_each, weight_all, weight_none};

use crate::by_heads::ByHeads;
use crate::by_weight::ByWeight;
use crate::rule::Rule;
use faults::Fault;

/// One of the rules.
#[derive(Clone, Copy, PartialEq, Eq, Debug)]
pub enum Choice {
    Weight,
    Heads,
}

impl Rule for Choice {
    ghost meaning = { chosen };

    ghost each = { elim [ Weight ↦ weight_each | Heads ↦ heads_each ] };

    ghost all = { elim [ Weight ↦ weight_all | Heads ↦ heads_all ] };

    ghost none = { elim [ Weight ↦ weight_none | Heads ↦ heads_none ] };

    fn share(&self, amount: u64, weights: &[u64], shares: &mut [u64]) -> Result<(), Fault> {
        match self {
            Choice::Weight => ByWeight.share(amount, weights, shares),
            Choice::Heads => ByHeads.share(amount, weights, shares),
        }
    }
}
