//! Values worked out by hand, at lengths with and without a rest beside the lanes.

ghost use Rattle.std.specs.Prelude.{◌<◌};

use crate::{count, meets, set_bit, within};

/// Two blocks of lanes and one word more.
const WORDS: usize = 17;

const BITS: u32 = 17 * 64;

fn plane_of(bit: u32) -> [u64; WORDS]
    requires { bit < BITS }
{
    let mut plane = [0; WORDS];
    set_bit(&mut plane, bit);
    plane
}

#[test]
fn every_length(rt: HostRuntime) {
    let none = [0; WORDS];
    let all = [u64::MAX; WORDS];
    for length in 0..=WORDS {
        let empty = length == 0;
        assert_eq!(rt;
            meets(&all[..length], &all[..length]),
            !empty,
            "at {length}"
        );
        assert!(rt; !meets(&none[..length], &all[..length]), "at {length}");
        assert!(rt; within(&none[..length], &all[..length]), "at {length}");
        assert_eq!(rt;
            within(&all[..length], &none[..length]),
            empty,
            "at {length}"
        );
        assert_eq!(rt; count(&all[..length]), 64 * length as u64, "at {length}");
    }
}

#[test]
fn every_bit(rt: HostRuntime) {
    let all = [u64::MAX; WORDS];
    for bit in 0..BITS {
        let one = plane_of(bit);
        let other = plane_of((bit + 1) % BITS);
        assert!(rt; meets(&one, &all), "at {bit}");
        assert!(rt; !meets(&one, &other), "at {bit}");
        assert!(rt; within(&one, &all), "at {bit}");
        assert!(rt; !within(&one, &other), "at {bit}");
        assert_eq!(rt; count(&one), 1, "at {bit}");
        assert_eq!(rt; one[bit as usize / 64], 1 << (bit % 64), "at {bit}");
    }
}

// The lines at the head of the crate, then no word at all and every bit.
#[test]
fn lanes_and_sweep_at_size(rt: HostRuntime) {
    let mut first = [0; 9];
    let mut second = [0; 9];
    set_bit(&mut first, 575);
    set_bit(&mut second, 575);
    assert!(rt; within(&first, &second));
    set_bit(&mut first, 3);
    assert!(rt; meets(&first, &second));
    assert!(rt; !within(&first, &second));
    assert_eq!(rt; count(&first), 2);

    let empty: [u64; 0] = [];
    assert!(rt; !meets(&empty, &empty));
    assert!(rt; within(&empty, &empty));
    assert_eq!(rt; count(&[u64::MAX; 9]), 576);
}
