//! Full frames as text.
use crate::ladder::elements::write_elements;
use crate::ladder::words::{write_count, write_octets};
use call_signals::Message;
use iax_frames::Full;
use peer_plan::format_name;
use plain_text::TextBuffer;

// Writes the length of a frame's data.
fn write_payload(frame: &Full<'_>, out: &mut TextBuffer) {
    out.text(", ");
    write_count(frame.payload().len() as u64, "octet", "octets", out);
}

/// Writes the name of a full frame and its content. A frame without a name has its type and its subclass.
pub(crate) fn write_full(frame: &Full<'_>, out: &mut TextBuffer) {
    let message = Message::of(frame);
    out.text(message.name());
    match message {
        Message::Dtmf(digit) => {
            out.text(" ");
            write_octets(&[digit.get()], out);
        }
        Message::Voice(format) => {
            out.text(" ");
            out.text(format_name(format));
            write_payload(frame, out);
        }
        Message::Answer | Message::Indicates(_) => {}
        Message::ClearsCall | Message::UnknownIax | Message::Other => {
            out.labelled(": type ", u64::from(frame.frame_type()));
            out.labelled(", subclass ", u64::from(frame.subclass()));
            write_payload(frame, out);
        }
        _ => write_elements(frame.payload(), out),
    }
}

/// Writes the numbers of a full frame: `call <source>/<destination>, seq <OSeqno>/<ISeqno>`.
pub(crate) fn write_numbers(frame: &Full<'_>, out: &mut TextBuffer) {
    out.labelled("call ", u64::from(frame.source().get()));
    out.labelled("/", u64::from(frame.destination().get()));
    out.labelled(", seq ", u64::from(frame.oseqno()));
    out.labelled("/", u64::from(frame.iseqno()));
}
