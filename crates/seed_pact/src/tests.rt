//! A pact of two, whose digests were made by another implementation of SHA-256.

use super::*;

#[test]
fn a_pact_of_two(rt: HostRuntime) {
    let text = b"pact,1\n\
        commit,Ada,2a96089313fcf514b759b7c98bbe7fd6c4bbc57e2e991781b295d9fa4fb32ee4\n\
        commit,Ben,38eb05bbf7cad951c8b95eacef5fc144941d4778ebce940f5f2d6eb298c3d585\n\
        reveal,Ben,2222222222222222222222222222222222222222222222222222222222222222\n\
        reveal,Ada,0000000000000000000000000000000000000000000000000000000000000000\n";
    let Ok(pact) = read_pact(rt.alloc(), text) else {
        panic!(rt; "the pact is lawful");
    };
    assert_eq!(rt; pact.names.name_at(1), "Ben");
    let seed = [
        0xee, 0x4b, 0x0e, 0x93, 0x3b, 0x56, 0xcd, 0xf1, 0x2a, 0x42, 0xb1, 0xe3, 0xf3, 0xb9, 0xed,
        0x1a, 0xa7, 0x0c, 0xf9, 0xf3, 0xcf, 0x37, 0x32, 0x56, 0x93, 0x25, 0x5c, 0x8b, 0xfb, 0xcb,
        0x8b, 0xa8,
    ];
    assert_eq!(rt; joint_seed(&pact), seed);
}
