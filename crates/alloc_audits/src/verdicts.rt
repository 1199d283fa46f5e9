// Verdicts as results, and what an audit writes where all is well.
ghost use Rattle.std.specs.Prelude.{◌≡◌};
ghost use Rattle.alloc_audits.specs.Verdicts.{result_of};

use cert_check::{Fault, Verdict};

/// What an audit writes where every check passes.
pub const PASS: &[u8] = b"pass\n";

/// A verdict, so that `?` ends an audit at its first check that fails.
pub fn passed(verdict: Verdict) -> Result<(), Fault>
    ensures { result ≡ result_of verdict }
{
    match verdict {
        Verdict::Pass => Ok(()),
        Verdict::Fail(fault) => Err(fault),
    }
}
