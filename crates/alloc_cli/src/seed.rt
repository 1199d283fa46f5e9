// A seed among the words.
ghost use Rattle.std.specs.Prelude.{◌≡◌, ◌↔◌, length, IsSome};
ghost use Rattle.std.specs.List.{AllPass};
ghost use Rattle.alloc_cli.specs.Seed.{seed_of};
ghost use Rattle.hex.specs.Hex.{is_hex_digit};

use hex::FromHex;

/// The 32 bytes that 64 hex digits of either case spell.
pub fn read_seed(word: &str) -> Option<[u8; 32]>
    ensures value { result ≡ seed_of word.now }
    ensures found { IsSome result ↔ ((length word.now ≡ 64) × AllPass is_hex_digit word.now) }
{
    <[u8; 32] as FromHex>::from_hex(word).ok()
}
