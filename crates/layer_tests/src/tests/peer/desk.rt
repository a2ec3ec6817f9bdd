//! A peer under test: datagrams come, legs are opened, ticks are made, and the outbox is emptied.
ghost use Rattle.std.specs.Prelude.{◌≡◌, IfSome, IsTrue};
ghost use Rattle.peer_lock.specs.Openings.{IsOpening};
ghost use Rattle.peer_lock.specs.Unworked.{IsCutFrame};

use crate::tests::leg::rules;
use call_auth::Challenge;
use call_book::{CallBook, Lease};
use iax_frames::{Datagram, Full, read};
use info_elements::elements;
use leg_machine::Message;
use media_ledger::{Blank, Share, supply};
use peer_lock::{LedgerSet, Onwards, OpenError, Pass, PeerError, PeerState, Status, Step};
use std::alloc::Global;
use std::marker::PhantomData;
use std::process::Abort;
use std::sync::ledger::Ledger;

/// The octets that a peer begins with.
pub const OCTETS: u64 = 3;

/// The steps that it begins with.
pub const STEPS: u64 = 16;

/// The ledgers of the tests.
pub struct Lent<O, S> {
    pub octets: PhantomData<O>,
    pub steps: PhantomData<S>,
}

impl<O: Ledger + Send + Sync, S: Ledger + Send + Sync> LedgerSet for Lent<O, S> {
    type Octets = O;

    type Steps = S;

    ghost first_octets = { 3 };

    ghost first_steps = { 16 };
}

/// A peer, with the book, the one pass, and the list of signals.
#[derive(Drop)]
pub struct Desk<J: LedgerSet> {
    pub alloc: Global,
    pub book: CallBook,
    pub state: PeerState<J>,
    pub pass: Pass<J>,
    pub onwards: Onwards,
}

/// Returns the two shares of a supply, the first with all of it, or `None` if there was no memory.
pub fn shares_of<L: Ledger>(
    rt: &impl Abort,
    alloc: Global,
    blank: Blank,
    all: u64,
) -> Option<(Share<L>, Share<L>)>
    requires blank { (blank.name ≡ L.name) × (blank.parts ≡ L.parts) × (blank.parts ≡ 2) }
    ensures { IfSome result (λ shares. shares.0 ≡ all) }
{
    let Ok((_, mut shares)) = supply::<L>(alloc, blank, &[all, 0]) else {
        return None;
    };
    let rest = shares.pop().expect(rt, "two shares");
    let first = shares.pop().expect(rt, "two shares");
    Some((first, rest))
}

/// Returns a peer of four numbers, without a leg. If memory is refused, the call is repeated with the shares that came
/// back.
pub fn state_of<J: LedgerSet>(
    rt: &impl Abort,
    alloc: Global,
    octets: Share<J::Octets>,
    steps: Share<J::Steps>,
) -> PeerState<J>
    requires octets { octets ≡ J.first_octets }
    requires steps { steps ≡ J.first_steps }
{
    let rules = rules(20_000);
    match PeerState::new(alloc, 0, &rules, 1, 4, octets, steps) {
        Ok(state) => state,
        Err((octets, steps, _)) => {
            let state = PeerState::new(alloc, 0, &rules, 1, 4, octets, steps);
            state.ok().expect(rt, "a peer")
        }
    }
}

/// Returns a book for the peer. If memory is refused, the call is repeated.
pub fn book_of(rt: &impl Abort, alloc: Global) -> CallBook {
    match CallBook::new(alloc, &[4], 0) {
        Ok(book) => book,
        Err(_) => CallBook::new(alloc, &[4], 0).expect(rt, "a book"),
    }
}

// Returns whether no element passes the end.
fn is_whole(frame: &Full) -> bool
    ensures { IsTrue result → IsCutFrame frame.now → ⊥ }
{
    match elements(frame.payload()) {
        Ok(_) => true,
        Err(_) => false,
    }
}

/// Returns the NEW of a datagram that opens a leg.
pub fn opening_of(octets: &[u8]) -> Option<Full<'_>>
    ensures { IfSome result IsOpening }
{
    let Ok(Datagram::Full(frame)) = read(octets) else {
        return None;
    };
    let is_short = frame.payload().len() <= 1388;
    let is_first = frame.source().get() != 0
        && frame.destination().get() == 0
        && frame.oseqno() == 0;
    if is_short && is_first && is_whole(&frame) && matches!(Message::of(&frame), Message::New) {
        Some(frame)
    } else {
        None
    }
}

/// The visible state of a peer's first leg, and the octets and steps of the pass.
pub type Look = (Option<Status>, u64, u64);

impl<J: LedgerSet> Desk<J> {
    /// Gives a datagram to the peer.
    pub fn takes(&mut self, octets: &[u8], time: u64) -> Result<Step, PeerError> {
        self.onwards.clear();
        self.state
            .datagram(&mut self.pass, octets, time, &mut self.onwards)
    }

    /// Opens a leg by the NEW, under the lease.
    pub fn opens_for(
        &mut self,
        frame: &Full,
        lease: Lease,
        challenge: &Challenge,
    ) -> Result<Step, (Lease, OpenError)>
        requires { IsOpening frame.now }
    {
        self.onwards.clear();
        let (pass, onwards) = (&mut self.pass, &mut self.onwards);
        self.state
            .open_in(pass, lease, frame, 0, challenge, onwards)
    }

    /// Returns the visible state of the peer.
    pub fn look(&self) -> Look {
        (self.state.look(1), self.pass.octets(), self.pass.steps())
    }

    /// Returns whether all is as it was.
    pub fn is_as(&self, before: &Look) -> bool {
        self.look() == *before && self.onwards.is_empty()
    }
}
