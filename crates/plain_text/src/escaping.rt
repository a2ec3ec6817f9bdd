//! Octets as printable characters.
ghost use Rattle.std.specs.Prelude.{◌≡◌, ◌++◌, ◌<◌, IfOk, OnOk, string_bytes};
ghost use Rattle.std.specs.List.{flat_map};
ghost use Rattle.std.specs.Str.Lossy.{utf8_lossy};
ghost use Rattle.plain_text.specs.Printable.{digit_of, printable_octet};

use std::alloc::{AllocError, Global};

// Returns a digit of a number in base 16.
fn digit(value: u8) -> u8
    requires { value < 16 }
    ensures { result ≡ digit_of value }
{
    if value < 10 {
        b'0' + value
    } else {
        b'a' - 10 + value
    }
}

// Adds an octet.
fn push_octet(text: &mut Vec<u8>, octet: u8) -> Result<(), AllocError>
    ensures { OnOk result (text.new.items ≡ text.old.items ++ printable_octet octet) }
{
    if octet >= 0x20 && octet <= 0x7e && octet != b'\\' {
        text.extend_from_slice(&[octet])
    } else {
        let digits = [b'\\', b'x', digit(octet / 16), digit(octet % 16)];
        text.extend_from_slice(&digits)
    }
}

/// Adds octets: those from 0x20 to 0x7e as they are, but for the backslash; each other one as `\xNN`, in two digits of base 16,
/// and
/// so the backslash, too (`\x5c`). So the octets can be read back.
///
/// `AllocError`: a request for memory was refused. Then some of them may be there.
pub fn push_printable(text: &mut Vec<u8>, octets: &[u8]) -> Result<(), AllocError>
    ensures { OnOk result (text.new.items ≡ text.old.items ++ flat_map printable_octet octets.now) }
{
    for octet in octets {
        push_octet(text, *octet)?;
    }
    Ok(())
}

/// Returns the text of octets as `push_printable` adds them.
///
/// `AllocError`: a request for memory was refused.
pub fn printable(alloc: Global, octets: &[u8]) -> Result<String, AllocError>
    ensures { IfOk result (λ text. string_bytes text ≡ utf8_lossy (flat_map printable_octet octets.now)) }
{
    let mut text = Vec::new(alloc);
    push_printable(&mut text, octets)?;
    String::from_utf8_lossy(alloc, text.as_slice())
}
