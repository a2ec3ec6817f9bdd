//! Pieces of a diagram's text that `TextBuffer` doesn't have.
use crate::ladder::xml::push_escaped;
use plain_text::TextBuffer;
use std::io::Write;

/// Writes a number in hexadecimal digits, at least `digits` of them.
pub(crate) fn write_hexadecimal(number: u32, digits: usize, out: &mut TextBuffer) {
    if write!(out.octets, "{number:0digits$x}").is_err() {
        out.is_cut = true;
    }
}

/// Writes `count` blanks.
pub(crate) fn write_blanks(count: usize, out: &mut TextBuffer) {
    for _ in 0..count {
        out.put(b" ");
    }
}

/// Writes a text as XML, so that nothing in it is read as markup.
pub(crate) fn write_escaped(text: &[u8], out: &mut TextBuffer) {
    if push_escaped(&mut out.octets, text).is_err() {
        out.is_cut = true;
    }
}
