// Bytes as hex digits.
ghost use Rattle.std.specs.Prelude.{◌≡◌};
ghost use Rattle.hex.specs.Hex.{encode_lower};

// The digits of 32 bytes, in lower case.
pub(crate) fn hex_digits(bytes: [u8; 32]) -> [u8; 64]
    ensures { result ≡ encode_lower bytes }
{
    let mut digits = [0; 64];
    match hex::encode_to_slice(bytes, &mut digits) {
        Ok(()) => digits,
        Err(_) => unreachable!(),
    }
}
