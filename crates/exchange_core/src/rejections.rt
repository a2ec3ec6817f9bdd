//! The rejections that a call's steps report ("REJECT", "REGREJ").
ghost use Rattle.std.specs.Option.{option_or};
ghost use Rattle.std.specs.Prelude.{◌≡◌};
ghost use Rattle.exchange_core.specs.Rejections.{rejection_of};

use call_control::Reply;
use peer_lock::Rejection;

// Returns the rejection of the step with this answer, or otherwise the one before it.
pub(crate) fn latest(reply: &Reply, before: Option<Rejection>) -> Option<Rejection>
    ensures { result ≡ option_or (rejection_of reply.now) before }
{
    match reply {
        Reply::Datagram(Ok(heard)) | Reply::OpenIn(Ok(heard)) => heard.rejected.or(before),
        Reply::RejectNew(Ok(())) => Some(Rejection::NoNumber),
        _ => before,
    }
}
