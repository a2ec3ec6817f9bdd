//! The cause of a leg's end, by the frame that ends it ("Information Elements": CAUSECODE; "Control Frames": BUSY,
//! CONGESTION).
ghost use Rattle.std.specs.Prelude.{◌≡◌, option_copied};
ghost use Rattle.call_signals.specs.Endings as endings;

use crate::cause::Cause;
use crate::codes::{CONTROL_BUSY, CONTROL_CONGESTION};
use crate::message::Message;
use iax_frames::{Full, subclass_meaning};
use info_elements::{CAUSECODE, last_in};

// Returns the cause by the value of a CAUSECODE, if it has one octet.
fn told_cause(value: Option<&[u8]>) -> Cause
    ensures { result ≡ endings.told_cause (option_copied value.entry) }
{
    match value {
        Some([code]) => Cause::of_code(*code),
        _ => Cause::NormalClearing,
    }
}

// Returns the cause by the subclass of a control frame that ends the call.
fn clearing_cause(subclass: Option<u64>) -> Cause
    ensures { result ≡ endings.clearing_cause subclass }
{
    match subclass {
        Some(subclass) => match u8::try_from(subclass) {
            Ok(CONTROL_BUSY) => Cause::UserBusy,
            Ok(CONTROL_CONGESTION) => Cause::Congestion,
            _ => Cause::NormalClearing,
        },
        None => Cause::NormalClearing,
    }
}

/// Returns the cause of a leg's end by this frame: the CAUSECODE of a HANGUP or a REJECT, if it has one octet; BUSY,
/// CONGESTION; otherwise normal clearing.
pub fn ending_cause(frame: &Full, message: &Message) -> Cause
    ensures { result ≡ endings.ending_cause frame.now message.now }
{
    match message {
        Message::Hangup | Message::Reject => told_cause(last_in(frame.payload(), CAUSECODE)),
        Message::ClearsCall => clearing_cause(subclass_meaning(frame.subclass())),
        _ => Cause::NormalClearing,
    }
}
