// Commitments and joint seeds. What a pact is isn't known here.
ghost use Rattle.std.specs.Prelude.{◌≡◌};
ghost use Rattle.std.specs.Str.{bytes_eq};
ghost use Rattle.seed_pact.specs.Commitments.{spelled, commitment_of, joint_seed_of};

use crate::Pact;
use hex::FromHex;
use sha2::{Digest, Sha256};

/// The commitment of a name and a contribution: the SHA-256 of the name's bytes, one byte 0 and the
/// contribution.
#[tactic(auto, unfolding(crate::specs::Commitments::commitment_of))]
pub fn commitment(name: &str, contribution: [u8; 32]) -> [u8; 32]
    ensures { result ≡ commitment_of name.now contribution }
{
    let mut hasher = Sha256::new();
    hasher.update(name);
    hasher.update([0]);
    hasher.update(contribution);
    hasher.finalize()
}

/// The seed that a pact makes: the SHA-256 of its contributions, one after the other in the order
/// of their commitments.
#[tactic(auto, unfolding(crate::specs::Commitments::joint_seed_of))]
pub fn joint_seed(pact: &Pact) -> [u8; 32]
    ensures { result ≡ joint_seed_of pact.now.contributions.items }
{
    let mut hasher = Sha256::new();
    for contribution in &pact.contributions {
        hasher.update(contribution);
    }
    hasher.finalize()
}

/// The 32 bytes that 64 hex digits of either case spell.
#[tactic(auto, unfolding(crate::specs::Commitments::spelled))]
pub(crate) fn read_bytes(field: &[u8]) -> Option<[u8; 32]>
    ensures { result ≡ spelled field.now }
{
    <[u8; 32] as FromHex>::from_hex(field).ok()
}

// Whether the bytes are the same.
pub(crate) fn are_same(bytes: &[u8; 32], others: &[u8; 32]) -> bool
    ensures { result ≡ bytes_eq bytes.now others.now }
{
    bytes.as_slice() == others.as_slice()
}
