//! Writing information elements ("Information Elements").
ghost use Rattle.std.specs.Prelude.{◌≡◌, ◌+◌, ◌<◌, ◌≤◌, ◌++◌, ◌↔◌, length, IsOk, OnOk, OnErr};
ghost use Rattle.iax_frames.specs.FullFrame.{FullFrame, SpellsFull, with_more};
ghost use Rattle.info_elements.specs.Element.{element};

use iax_frames::{Out, Payload, TooLong};

/// Appends an element to the data of a full frame ("Information Elements").
///
/// Returns `TooLong` if and only if the value has more than 255 octets, or the frame would have more than 1,400; then
/// nothing is changed.
pub fn append(out: &mut Out, number: u8, value: &[u8]) -> Result<(), TooLong>
    requires { (f : FullFrame) × SpellsFull out.old f }
    ensures variant { IsOk result ↔ ((length value.now ≤ 255) × (length out.old + 2 + length value.now ≤ 1400)) }
    ensures ok { OnOk result (out.new ≡ out.old ++ element (record { number = number; value = value.now })) }
    ensures spelled { OnOk result ((f : FullFrame) → SpellsFull out.old f
        → SpellsFull out.new (with_more f (element (record { number = number; value = value.now })))) }
    ensures err { OnErr result (out.new ≡ out.old) }
{
    if value.len() > 255 || out.room() < 2 + value.len() {
        return Err(TooLong);
    }
    let front = [number, value.len() as u8];
    out.append_data(&front);
    out.append_data(value);
    Ok(())
}

/// Appends an element with a value of at most 255 octets to data that has room for the value and two octets more.
pub fn append_to(payload: &mut Payload, number: u8, value: &[u8])
    requires short { length value.now ≤ 255 }
    requires fits { length payload.old + 2 + length value.now ≤ 1388 }
    ensures { payload.new ≡ payload.old ++ element (record { number = number; value = value.now }) }
{
    payload.append(&[number, value.len() as u8]);
    payload.append(value);
}
