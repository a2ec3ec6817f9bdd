//! The answers of a peer's calls.
ghost use Rattle.std.specs.Prelude.{◌≡◌};
ghost use Rattle.peer_lock.specs.Statuses.{status_of};

use call_book::LegName;
use iax_frames::CallNumber;
use leg_machine::{Cause, Failure, Format, Judged, Moments, Stage};
use peer_legs::NamedLeg;
use seq_window::Record;

/// A rejection by a step's answer, entries that are dropped, or an AUTHREQ with a challenge of this exchange.
#[derive(Clone, Copy, Debug, PartialEq, Eq)]
pub enum Rejection {
    /// A NEW that finds no free number, by REJECT ("REJECT"), in plan version 4.
    NoNumber,
    /// A NEW at a peer that drains, by REJECT ("REJECT").
    Draining,
    /// A REGREQ or a REGREL, by REGREJ ("REGREJ"), in plan version 4.
    Registration,
    /// A NEW that asks for a call token, by CALLTOKEN (chan_iax2's; RFC 5456 has none). Its sender has to send it again
    /// with the token.
    CallToken,
    /// A trunk frame with more than 16 entries of one call ("Meta Frames"), in plan version 4. The others are dropped.
    ManyEntries,
    /// An AUTHREQ whose challenge begins as this exchange's own do ("AUTHREQ"). A leg hangs up in plan version 4, and
    /// answers it in older versions.
    Reflection,
}

/// The result of a step, except for the signals handed up.
#[derive(Clone, Copy, Debug, PartialEq, Eq)]
pub struct Step {
    /// The judgement of a full frame; `Unnumbered` if there was none, or if the answer belongs to no call.
    pub judged: Judged,
    /// The leg concerned; none for a mini, video or trunk frame, and none if the answer belongs to no call.
    pub touched: Option<LegName>,
    /// Its rejection, if there is one.
    pub rejected: Option<Rejection>,
}

/// The status of a leg.
#[derive(Clone, Copy, Debug, PartialEq, Eq)]
pub struct Status {
    /// Its name.
    pub name: LegName,
    /// Its stage.
    pub stage: Stage,
    /// Whether the layer above isn't done with the end of the call.
    pub owes: bool,
    /// The cause of its end; normal clearing until the cause is known.
    pub cause: Cause,
    /// The number of full frames that are held for retransmission.
    pub held: usize,
    /// The number of entries of the leg's record.
    pub entries: usize,
}

impl Status {
    // Returns the status of a leg.
    pub(crate) fn of(named: &NamedLeg) -> Status
        ensures { result ≡ status_of named.now }
    {
        let leg = named.leg();
        Status {
            name: named.name(),
            stage: leg.stage(),
            owes: leg.owes(),
            cause: leg.cause(),
            held: leg.window().held_len(),
            entries: leg.window().record().len(),
        }
    }
}

/// The facts of a leg that its record doesn't have.
#[derive(Clone, Copy, Debug, PartialEq, Eq)]
pub struct LegFacts {
    /// The moment at which it was opened, in milliseconds.
    pub opened: u64,
    /// The format of the call.
    pub format: Format,
    /// The other side's call number, once it is known.
    pub remote: Option<CallNumber>,
    /// The failure that ended it, if no HANGUP or REJECT did.
    pub failure: Option<Failure>,
    /// The number of retransmitted full frames, modulo 2^64 ("Message Transport").
    pub resent: u64,
    /// The moments at which its call was first offered, accepted, answered and over, in milliseconds.
    pub moments: Moments,
    /// Whether its peer was challenged ("AUTHREQ").
    pub challenged: bool,
    /// Whether it answered a challenge of its peer ("AUTHREP").
    pub authenticated: bool,
}

/// A leg that was given up.
#[derive(Drop)]
pub struct EndedLeg {
    /// Its facts other than its record.
    pub facts: LegFacts,
    /// Its whole record.
    pub history: Record,
}

/// The report of a tick of a peer.
#[derive(Clone, Copy, Debug, PartialEq, Eq)]
pub struct TickReport {
    /// The number of frames that were due and had no memory. They stay due.
    pub skipped: u32,
    /// The octets of media packed into trunk frames.
    pub packed: u64,
    /// Whether no leg has ended and none owes, so that no leg is to be finished.
    pub is_quiet: bool,
}
