//! Ten worked figures, as one list with one proof.
//!
//! The figures were worked out by hand. `ten_figures_hold` says of each that the definitions by which
//! the engine is proved give it: if a definition changed its meaning, this crate would not be proved.

#![tactic(auto)]

ghost use Rattle.std.specs.Prelude.{◌≡◌, length};
ghost use Rattle.figures.specs.Ten.{figures, FiguresHold};

/// The ten figures hold, and there are ten of them.
pub fn ten_figures_hold() -> u8
    ensures each_is_its_known_value { FiguresHold }
    ensures there_are_so_many { result ≡ length figures }
{
    10
}
