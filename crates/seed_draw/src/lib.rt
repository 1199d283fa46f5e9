//! From a seed to the ticket that it names, and from a ticket to its piece. A piece doesn't know
//! where its ticket comes from.
//!
//! ```text
//! assert_eq!(rt; ticket([0; 32], 6), Some(5));
//!
//! let weights = [1, 2, 1, 2];
//! assert_eq!(rt; piece_at(&weights, 0), 0);
//! assert_eq!(rt; piece_at(&weights, 1), 1);
//! assert_eq!(rt; piece_at(&weights, 2), 1);
//! assert_eq!(rt; piece_at(&weights, 3), 2);
//! assert_eq!(rt; piece_at(&weights, 4), 3);
//! assert_eq!(rt; piece_at(&weights, 5), 3);
//! ```
#![tactic(auto)]

ghost use Rattle.std.specs.Prelude.{◌≡◌, ◌<◌, length, sum};
ghost use Rattle.definitions.specs.Tickets.{piece_of};
ghost use Rattle.seed_draw.specs.Weights.{weights_of};

use definitions::Piece;

mod seed;

pub use seed::ticket;

/// The index of the piece that a ticket names, of pieces with these weights: piece 0 has the first
/// `weights[0]` tickets, piece 1 the next `weights[1]`, and so on.
pub fn piece_at(weights: &[u128], ticket: u128) -> usize
    requires { ticket < sum weights.now }
    ensures value { result ≡ piece_of weights.now ticket }
    ensures within { result < length weights.now }
{
    let mut rest = ticket;
    for (index, weight) in weights.iter().enumerate() {
        if rest < *weight {
            return index;
        }
        rest -= *weight;
    }
    unreachable!()
}

/// The index of the piece that a ticket names, as `piece_at` of the weights of these pieces.
pub fn piece_in(pieces: &[Piece], ticket: u128) -> usize
    requires { ticket < sum (weights_of pieces.now) }
    ensures value { result ≡ piece_of (weights_of pieces.now) ticket }
    ensures within { result < length pieces.now }
{
    let mut rest = ticket;
    for (place, piece) in pieces.iter().enumerate() {
        let weight = piece.weight;
        if rest < weight {
            return place;
        }
        rest -= weight;
    }
    unreachable!()
}

#[cfg(test)]
mod tests;
