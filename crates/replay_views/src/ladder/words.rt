//! Octets and numbers in words.
use crate::ladder::pieces::write_hexadecimal;
use call_signals::Format;
use peer_plan::format_name;
use plain_text::{TextBuffer, push_printable};

/// Writes octets in printable characters.
pub(crate) fn write_octets(octets: &[u8], out: &mut TextBuffer) {
    if push_printable(&mut out.octets, octets).is_err() {
        out.is_cut = true;
    }
}

/// Writes a count, and what it counts.
pub(crate) fn write_count(count: u64, one: &str, more: &str, out: &mut TextBuffer) {
    out.number(count);
    out.text(" ");
    out.text(if count == 1 { one } else { more });
}

/// Writes the formats of these bits, those of lower bits first ("Media Formats"), and what other bits there are.
pub(crate) fn write_formats(bits: u32, out: &mut TextBuffer) {
    let mut rest = bits;
    let mut gap = "";
    for format in [Format::Gsm, Format::Ulaw, Format::Alaw] {
        if bits & format.bit() != 0 {
            rest &= !format.bit();
            out.text(gap);
            out.text(format_name(format));
            gap = " ";
        }
    }
    if rest != 0 || bits == 0 {
        out.text(gap);
        out.text("0x");
        write_hexadecimal(rest, 1, out);
    }
}
