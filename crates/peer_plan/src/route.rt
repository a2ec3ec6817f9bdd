//! Routes: which peer a called number leads to.

use crate::short_text::ShortText;
use call_book::PeerId;

// Called numbers that begin with the prefix lead to the peer.
#[derive(Drop)]
pub(crate) struct Route {
    // At most 32 octets 0x21 ..= 0x7e.
    pub(crate) prefix: ShortText,
    // The only peer whose calls it is for. `None` makes it a route for all calls.
    pub(crate) source: Option<PeerId>,
    pub(crate) peer: PeerId,
}
