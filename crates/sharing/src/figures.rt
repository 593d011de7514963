// Shares that were worked out by hand.
ghost use Rattle.sharing.specs.Figures.{FiguresHold};

/// The worked figures hold of the rules.
pub fn figures_hold()
    ensures { FiguresHold }
{}
