// What a checker answers.
ghost use Rattle.std.specs.Prelude.{◌≡◌};
ghost use Rattle.cert_check.specs.Verdicts.{verdict_of};

use crate::faults::Fault;

/// What a checker says.
#[derive(Clone, Copy, Debug, PartialEq, Eq)]
pub enum Verdict {
    /// Every check passes.
    Pass,
    /// This is the first check that fails.
    Fail(Fault),
}

impl Verdict {
    /// The verdict where this is the first fault, or there is none.
    pub fn of(fault: Option<Fault>) -> Verdict
        ensures { result ≡ verdict_of fault }
    {
        match fault {
            Some(fault) => Verdict::Fail(fault),
            None => Verdict::Pass,
        }
    }
}
