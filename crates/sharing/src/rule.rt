// What a sharing rule is.
ghost use Rattle.std.specs.Prelude.{◌≡◌, ℕ, List};
ghost use Rattle.sharing.specs.Domain.{answer, placed, OneEach, AddsUp, NoneForNone};

use faults::Fault;

/// A way to share an amount of cents over weights.
pub trait Rule {
    // The shares that an amount and weights have under this rule.
    ghost meaning: { Self → ℕ → List ℕ → List ℕ };

    /// Writes the shares, or refuses and writes nothing.
    fn share(&self, amount: u64, weights: &[u64], shares: &mut [u64]) -> Result<(), Fault>
        ensures refuses_only_outside_the_domain { result ≡ answer amount weights.now shares.old }
        ensures writes_its_meaning_or_nothing { shares.new ≡ placed (meaning self.now) amount weights.now shares.old };

    ghost each: { (rule : Self) → OneEach (meaning rule) };

    ghost all: { (rule : Self) → AddsUp (meaning rule) };

    ghost none: { (rule : Self) → NoneForNone (meaning rule) };
}
