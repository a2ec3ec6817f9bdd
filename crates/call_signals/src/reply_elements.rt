//! Information elements in their order, for the frames that a leg sends ("Information Elements").
ghost use Rattle.std.specs.Prelude.{◌≡◌, ◌+◌, ◌≤◌, ◌++◌, length};
ghost use Rattle.call_signals.specs.ReplyFrame as replies;

use crate::caller::Caller;
use crate::cause::Cause;
use crate::format::Format;
use crate::rules::Credential;
use iax_frames::Payload;
use info_elements::{
    AUTHMETHODS, CALLED_NUMBER, CAPABILITY, CAUSE, CAUSECODE, CHALLENGE, FORMAT, USERNAME, VERSION,
    append_to,
};

// Appends an element, which is left out if there is no user.
fn append_user(payload: &mut Payload, user: &Option<Credential>)
    requires { length payload.old ≤ 1000 }
    ensures appended { payload.new ≡ payload.old ++ replies.element_if USERNAME user.now }
    ensures short { length payload.new ≤ length payload.old + 66 }
{
    match user {
        Some(user) => append_to(payload, USERNAME, user.as_slice()),
        None => {}
    }
}

/// Appends the data of a REJECT and a HANGUP to at most 1,000 octets: CAUSE and CAUSECODE, in this order.
pub fn append_cause(payload: &mut Payload, cause: Cause)
    requires { length payload.old ≤ 1000 }
    ensures { payload.new ≡ payload.old ++ replies.cause_elements cause }
{
    let text = cause.text();
    append_to(payload, CAUSE, text.as_slice());
    append_to(payload, CAUSECODE, &[cause.code()]);
}

/// Appends the data of a NEW to at most 200 octets ("Call Setup"); the called number has at most 255 octets.
pub fn append_new(
    payload: &mut Payload,
    user: &Option<Credential>,
    called: &[u8],
    caller: &Caller,
    format: Format,
)
    requires room { length payload.old ≤ 200 }
    requires called { length called.now ≤ 255 }
    ensures { payload.new ≡ payload.old ++ replies.new_elements user.now called.now caller.now format }
{
    let bits = format.bit().to_be_bytes();
    append_to(payload, VERSION, &[0, 2]);
    append_to(payload, CALLED_NUMBER, called);
    payload.append(caller.as_slice());
    append_user(payload, user);
    append_to(payload, FORMAT, &bits);
    append_to(payload, CAPABILITY, &bits);
}

/// Appends the data of an AUTHREQ to at most 1,000 octets ("Call Setup"); the challenge has at most 255 octets.
pub fn append_auth_req(payload: &mut Payload, user: &Option<Credential>, challenge: &[u8])
    requires room { length payload.old ≤ 1000 }
    requires challenge { length challenge.now ≤ 255 }
    ensures { payload.new ≡ payload.old ++ replies.auth_req_elements user.now challenge.now }
{
    append_user(payload, user);
    append_to(payload, AUTHMETHODS, &[0, 2]);
    append_to(payload, CHALLENGE, challenge);
}
