//! Worked figures of the published rates.
ghost use Rattle.std.specs.Prelude.{◌≡◌, true};
ghost use Rattle.balancing.specs.Figures.{FiguresHold};

use crate::rates::Rates;

/// The tolerance at which the figures are worked, in Wh.
const TOLERANCE: u64 = 15_000;

/// Works the figures out at the published rates, and tells whether they are the known ones: they always are.
pub fn figures_hold() -> bool
    ensures figures_are_as_known { FiguresHold 16800 21840 15 }
    ensures published_rates_give_them { result ≡ true }
{
    let rates = Rates::PUBLISHED;
    rates.charge(15_000, TOLERANCE) == Ok(252_000_000)
        && rates.charge(15_001, TOLERANCE) == Ok(252_021_840)
        && rates.charge(30_000, TOLERANCE) == Ok(579_600_000)
        && rates.charge(0, TOLERANCE) == Ok(0)
        && rates.claim(0) == Ok(0)
        && rates.claim(10_000) == Ok(168_000_000)
        && rates.tolerance(1_000_067) == Ok(15_001)
}
