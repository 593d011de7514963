// The right to a draft.
ghost use Rattle.std.specs.Prelude.{◌≡◌};

use faults::Fault;

/// The right to issue or withdraw one draft, by the number of its run. It must be given back: it can be
/// neither copied nor let go.
pub struct Claim {
    pub(crate) run: u16,
}

/// A claim that was refused, handed back with the fault.
pub struct Unspent {
    pub claim: Claim,
    pub fault: Fault,
}

impl Claim {
    /// The number of the run.
    pub fn run(&self) -> u16
        ensures { result ≡ self.now.run }
    {
        self.run
    }
}
