//! Hexadecimal digits.
ghost use Rattle.std.specs.Prelude.{◌≡◌, ◌++◌, ◌∷◌, ◌*◌, ◌<◌, [], OnOk, length, slice_index};
ghost use Rattle.hex.specs.Hex.{encode_lower, lower_digits};

use std::alloc::AllocError;

// More octets than any datagram has. A longer text isn't made.
const TOO_LONG: usize = 65_536;

// Returns the hexadecimal digit of a value.
fn digit(value: u8) -> u8
    requires { value < 16 }
    ensures { result ≡ slice_index lower_digits value }
{
    let to_letters = if value > 9 { b'a' - 10 - b'0' } else { 0 };
    b'0' + value + to_letters
}

// Writes each octet as two digits. The digits are computed, not looked up, so that the processor handles many at once:
// `hex` looks up each one and takes three times as long.
fn write_digits(octets: &[u8], digits: &mut [u8])
    requires { length digits.old ≡ 2 * length octets.now }
    ensures { digits.new ≡ encode_lower octets.now }
{
    'octets: for i in 0..octets.len() {
        digits[2 * i] = digit(octets[i] >> 4);
        digits[2 * i + 1] = digit(octets[i] & 15);
    }
}

/// Adds the octets to a text, each as two digits, and ends the line. Returns an error if there is no memory, or if there
/// are 65,536 octets or more.
pub(crate) fn end_in_hex(text: &mut Vec<u8>, octets: &[u8]) -> Result<(), AllocError>
    ensures { OnOk result (text.new.items ≡ text.old.items ++ encode_lower octets.now ++ 10 ∷ []) }
{
    if octets.len() >= TOO_LONG {
        return Err(AllocError);
    }
    let before = text.len();
    text.resize(before + 2 * octets.len(), 0)?;
    write_digits(octets, &mut text[before..]);
    text.push(b'\n')?;
    Ok(())
}
