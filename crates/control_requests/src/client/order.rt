//! The orders of the command line to a running service.
use serde_json::json;
use std::alloc::{AllocError, Global};

/// An order to a running service.
#[derive(Clone, Copy)]
pub enum ControlOrder<'w> {
    /// `peers`
    Peers,
    /// `calls`
    Calls,
    /// `accounts`
    Accounts,
    /// `call <peer> <number>`: places a call.
    Call { peer: &'w str, number: &'w str },
    /// `hangup <number>`: hangs up the leg of a local number.
    HangUp(&'w str),
    /// `stop`
    Stop,
    /// `stop --graceful`
    StopGracefully,
    /// `drain`
    Drain,
    /// `drain off`
    EndDrain,
}

// Returns the order of one word.
fn plain_order<'w>(word: &str) -> Option<ControlOrder<'w>> {
    match word {
        "peers" => Some(ControlOrder::Peers),
        "calls" => Some(ControlOrder::Calls),
        "accounts" => Some(ControlOrder::Accounts),
        "stop" => Some(ControlOrder::Stop),
        "drain" => Some(ControlOrder::Drain),
        _ => None,
    }
}

impl<'w> ControlOrder<'w> {
    /// Returns the order that these words name, or `None` if they name none. Orders are `peers`, `calls`, `accounts`, `call
    /// <peer> <number>`, `hangup <number>`, `drain`, `drain off`, `stop` and `stop --graceful`. Names and numbers aren't
    /// checked here.
    pub fn of(words: &'w [String]) -> Option<ControlOrder<'w>> {
        match words {
            [word] => plain_order(word.as_str()),
            [word, number] if word.as_str() == "hangup" => Some(ControlOrder::HangUp(
                number.as_str(),
            )),
            [word, how] if word.as_str() == "stop" && how.as_str() == "--graceful" => {
                Some(ControlOrder::StopGracefully)
            }
            [word, how] if word.as_str() == "drain" && how.as_str() == "off" => Some(
                ControlOrder::EndDrain,
            ),
            [word, peer, number] if word.as_str() == "call" => Some(ControlOrder::Call {
                peer: peer.as_str(),
                number: number.as_str(),
            }),
            _ => None,
        }
    }

    // Returns its method.
    fn method(self) -> &'static str {
        match self {
            ControlOrder::Peers | ControlOrder::Calls | ControlOrder::Accounts => "GET",
            ControlOrder::Call { .. }
            | ControlOrder::Stop
            | ControlOrder::StopGracefully
            | ControlOrder::Drain => "POST",
            ControlOrder::HangUp(_) | ControlOrder::EndDrain => "DELETE",
        }
    }

    // Returns its path, and the number that ends it, if one does. A word that isn't a number names no call.
    fn path(self) -> (&'static str, &'w str) {
        match self {
            ControlOrder::Peers => ("/peers", ""),
            ControlOrder::Accounts => ("/accounts", ""),
            ControlOrder::Calls | ControlOrder::Call { .. } => ("/calls", ""),
            ControlOrder::HangUp(number) => ("/calls/", number),
            ControlOrder::Stop => ("/stop", ""),
            ControlOrder::StopGracefully => ("/stop/graceful", ""),
            ControlOrder::Drain | ControlOrder::EndDrain => ("/drain", ""),
        }
    }

    // Returns its body.
    fn body(self, alloc: Global) -> Result<String, AllocError> {
        match self {
            ControlOrder::Call { peer, number } => {
                json!(in alloc; {"number": number, "peer": peer})?.to_string(alloc)
            }
            _ => Ok(String::new(alloc)),
        }
    }

    /// Returns the octets of its request.
    pub(crate) fn request(self, alloc: Global) -> Result<String, AllocError> {
        let (path, number) = self.path();
        let body = self.body(alloc)?;
        format!(in alloc;
            "{} {}{} HTTP/1.1\r\nHost: localhost\r\nContent-Length: {}\r\nConnection: close\r\n\r\n{}",
            self.method(),
            path,
            number,
            body.len(),
            body
        )
    }
}
