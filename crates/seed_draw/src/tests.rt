//! Tickets of a seed, and tickets of small weights at the ends of each piece.

use super::*;

// The stream under a key of zeros begins 76 b8 e0 ad a0 f1 3d 90 40 5d 6a e5 53 86 bd 28
// bd d2 19 b8 (the first test vector of RFC 8439, A.1). Of 6 tickets candidate 0 is 6, which is
// passed over, and candidate 1 is 5; of 2^116 all but twelve bits of the first four words count.
#[test]
fn tickets_of_zeros(rt: HostRuntime) {
    assert_eq!(rt; ticket([0; 32], 6), Some(5));
    assert_eq!(rt;
        ticket([0; 32], 1 << 116),
        Some(0xd8653e56a5d40903df1a0ade0b876)
    );
}

// The lines at the head of the crate.
#[test]
fn tickets_of_weights(rt: HostRuntime) {
    let weights = [1, 2, 1, 2];
    assert_eq!(rt; piece_at(&weights, 0), 0);
    assert_eq!(rt; piece_at(&weights, 1), 1);
    assert_eq!(rt; piece_at(&weights, 2), 1);
    assert_eq!(rt; piece_at(&weights, 3), 2);
    assert_eq!(rt; piece_at(&weights, 4), 3);
    assert_eq!(rt; piece_at(&weights, 5), 3);
}

#[test]
fn a_ticket_among_pieces(rt: HostRuntime) {
    let pieces = [
        Piece {
            weight: 1,
            gives: Vec::new(rt.alloc()),
        },
        Piece {
            weight: 2,
            gives: Vec::new(rt.alloc()),
        },
    ];
    assert_eq!(rt; piece_in(&pieces, 0), 0);
    assert_eq!(rt; piece_in(&pieces, 2), 1);
}
