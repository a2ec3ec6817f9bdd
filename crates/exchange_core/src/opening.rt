//! Opens an exchange.
ghost use Rattle.std.specs.Prelude.{◌≡◌, ℕ, ◌+◌, ◌-◌, ◌*◌, ◌<◌, ◌≤◌, ◌^◌, ◌++◌, [], IfOk, OnOk, All, length};
ghost use Rattle.std.specs.Prelude.{replicate, vec_len};
ghost use Rattle.exchange_core.specs.Start.{AreFirstPeers, HasNoCredit, HasNoSteps, IsBlankFor, IsFirstPeer, IsStart, first_book};

use crate::exchange::{Exchange, PeerCell};
use crate::gate::Gate;
use crate::locked::Locked;
use call_book::{CallBook, PeerId};
use media_ledger::shares::supply;
use media_ledger::{Blank, Share, Supply, SupplyError};
use peer_lock::{LedgerSet, PeerState};
use peer_plan::Plan;
use std::alloc::{AllocError, Global};
use std::sync::ledger::Ledger;
use step_log::{NotedBook, NotedPeer, Pass};

// The octets and the steps with which each peer is opened.
const FIRST_CREDIT: u64 = 1 << 48;

impl<G: Gate, J: LedgerSet> Exchange<G, J> {
    /// Returns an exchange with all its passes, as `open_at` opens it with the first serial 0.
    ///
    /// Returns `Err` only if memory was refused; then all arguments are dropped.
    pub fn open(
        alloc: Global,
        plan: Plan,
        gate: G,
        octets: Blank,
        steps: Blank,
    ) -> Result<(Exchange<G, J>, Vec<Pass<J>>), AllocError>
        requires octets { IsBlankFor plan J.Octets.name J.Octets.parts octets.name octets.parts }
        requires steps { IsBlankFor plan J.Steps.name J.Steps.parts steps.name steps.parts }
        requires first { (J.first_octets ≡ 2 ^ 48) × (J.first_steps ≡ 2 ^ 48) }
        ensures plan { IfOk result (λ opened. opened.0 ≡ plan) }
        ensures passes { IfOk result (λ opened. vec_len opened.1 ≡ plan.passes) }
        ensures empty { IfOk result (λ opened. All HasNoCredit opened.1.items) }
        ensures unused { IfOk result (λ opened. All HasNoSteps opened.1.items) }
        ensures start { OnOk result (IsStart plan 0) }
    {
        Exchange::open_at(alloc, plan, gate, octets, steps, 0)
    }

    /// Returns an exchange with all its passes: as many as the plan says, each without credit and without steps. No peer
    /// has a leg, every number is free, and the first leg gets the serial `first_serial`. Each peer may accept 2^48 octets
    /// of media and make 2^48 steps. Each blank has a part for each peer and each pass.
    ///
    /// Returns `Err` only if memory was refused; then everything that was passed in is dropped.
    pub fn open_at(
        alloc: Global,
        plan: Plan,
        gate: G,
        octets: Blank,
        steps: Blank,
        first_serial: u64,
    ) -> Result<(Exchange<G, J>, Vec<Pass<J>>), AllocError>
        requires octets { IsBlankFor plan J.Octets.name J.Octets.parts octets.name octets.parts }
        requires steps { IsBlankFor plan J.Steps.name J.Steps.parts steps.name steps.parts }
        requires first { (J.first_octets ≡ 2 ^ 48) × (J.first_steps ≡ 2 ^ 48) }
        ensures plan { IfOk result (λ opened. opened.0 ≡ plan) }
        ensures passes { IfOk result (λ opened. vec_len opened.1 ≡ plan.passes) }
        ensures empty { IfOk result (λ opened. All HasNoCredit opened.1.items) }
        ensures unused { IfOk result (λ opened. All HasNoSteps opened.1.items) }
        // It is a start of the world of the law over many calls, with a caller for each pass and this serial.
        ensures start { OnOk result (IsStart plan first_serial) }
    {
        let Stock {
            book,
            peers,
            passes,
            octets,
            steps,
        } = full_stock(alloc, &plan, Blanks { octets, steps }, first_serial)?;
        let exchange = Exchange {
            alloc,
            gate,
            plan,
            peers,
            book: Locked::new(NotedBook::new(book)),
            octets: octets.supply,
            steps: steps.supply,
        };
        Ok((exchange, passes))
    }
}

// The parts of both ledgers that aren't supplied yet.
#[derive(Drop)]
struct Blanks {
    octets: Blank,
    steps: Blank,
}

// The issued shares of a ledger: a first share for each peer, and an empty one for each pass.
#[derive(Drop)]
struct Issued<L: Ledger> {
    supply: Supply<L>,
    first: Vec<Share<L>>,
    empty: Vec<Share<L>>,
}

// The parts of a new exchange: its book, the peers under their locks, the passes, and the shares issued for them.
#[derive(Drop)]
struct Stock<J: LedgerSet> {
    book: CallBook,
    peers: Vec<PeerCell<J>>,
    passes: Vec<Pass<J>>,
    octets: Issued<J::Octets>,
    steps: Issued<J::Steps>,
}

// Returns the parts of a plan's exchange, with all peers and passes.
fn full_stock<J: LedgerSet>(
    alloc: Global,
    plan: &Plan,
    blanks: Blanks,
    first_serial: u64,
) -> Result<Stock<J>, AllocError>
    requires octets { IsBlankFor plan.now J.Octets.name J.Octets.parts blanks.octets.name blanks.octets.parts }
    requires steps { IsBlankFor plan.now J.Steps.name J.Steps.parts blanks.steps.name blanks.steps.parts }
    requires first { (J.first_octets ≡ 2 ^ 48) × (J.first_steps ≡ 2 ^ 48) }
    ensures start { OnOk result (IsStart plan.now first_serial × (length plan.now.peers ≤ 32) × (plan.now.passes ≤ 64)) }
    ensures book { IfOk result (λ stock. stock.book ≡ first_book plan.now first_serial) }
    ensures all { IfOk result (λ stock. (vec_len stock.peers ≡ length plan.now.peers) ×
        (vec_len stock.passes ≡ plan.now.passes)) }
    ensures peers { IfOk result (λ stock. AreFirstPeers plan.now 0 stock.peers.items) }
    ensures unused { IfOk result (λ stock. All HasNoCredit stock.passes.items × All HasNoSteps stock.passes.items) }
    ensures supplied { IfOk result (λ stock. (stock.octets.supply.shares ≡ length plan.now.peers + plan.now.passes) ×
        (stock.octets.supply.amount ≡ length plan.now.peers * J.first_octets) ×
        (stock.steps.supply.shares ≡ length plan.now.peers + plan.now.passes) ×
        (stock.steps.supply.amount ≡ length plan.now.peers * J.first_steps)) }
{
    let Ok(mut stock) = first_stock(alloc, plan, blanks, first_serial) else {
        return Err(AllocError);
    };
    match share_out(alloc, plan, &mut stock) {
        Ok(()) => Ok(stock),
        Err(error) => Err(error),
    }
}

// Returns the book and the shares, as yet without peers and passes.
fn first_stock<J: LedgerSet>(
    alloc: Global,
    plan: &Plan,
    blanks: Blanks,
    first_serial: u64,
) -> Result<Stock<J>, AllocError>
    requires octets { IsBlankFor plan.now J.Octets.name J.Octets.parts blanks.octets.name blanks.octets.parts }
    requires steps { IsBlankFor plan.now J.Steps.name J.Steps.parts blanks.steps.name blanks.steps.parts }
    ensures start { OnOk result (IsStart plan.now first_serial) }
    ensures book { IfOk result (λ stock. stock.book ≡ first_book plan.now first_serial) }
    ensures none { IfOk result (λ stock. (stock.peers.items ≡ []) × (stock.passes.items ≡ [])) }
    ensures supplied { IfOk result (λ stock. (stock.octets.supply.shares ≡ length plan.now.peers + plan.now.passes) ×
        (stock.octets.supply.amount ≡ length plan.now.peers * 2 ^ 48) ×
        (stock.steps.supply.shares ≡ length plan.now.peers + plan.now.passes) ×
        (stock.steps.supply.amount ≡ length plan.now.peers * 2 ^ 48)) }
    ensures shares { IfOk result (λ stock. (stock.octets.first.items ≡ replicate (length plan.now.peers) (2 ^ 48)) ×
        (stock.steps.first.items ≡ replicate (length plan.now.peers) (2 ^ 48)) ×
        (stock.octets.empty.items ≡ replicate plan.now.passes 0) × (stock.steps.empty.items ≡ replicate plan.now.passes 0)) }
{
    let Blanks { octets, steps } = blanks;
    let peers = plan.peer_count();
    let passes = plan.passes();
    let Ok(book) = book_of(alloc, plan, first_serial) else {
        return Err(AllocError);
    };
    let Ok(octets) = issue::<J::Octets>(alloc, octets, peers, passes) else {
        return Err(AllocError);
    };
    let Ok(steps) = issue::<J::Steps>(alloc, steps, peers, passes) else {
        return Err(AllocError);
    };
    Ok(Stock {
        book,
        peers: Vec::new(alloc),
        passes: Vec::new(alloc),
        octets,
        steps,
    })
}

// Makes the peers and the passes, each with its shares.
fn share_out<J: LedgerSet>(
    alloc: Global,
    plan: &Plan,
    stock: &mut Stock<J>,
) -> Result<(), AllocError>
    requires none { (stock.old.peers.items ≡ []) × (stock.old.passes.items ≡ []) }
    requires octets { (stock.old.octets.first.items ≡ replicate (length plan.now.peers) J.first_octets) ×
        (stock.old.octets.empty.items ≡ replicate plan.now.passes 0) }
    requires steps { (stock.old.steps.first.items ≡ replicate (length plan.now.peers) J.first_steps) ×
        (stock.old.steps.empty.items ≡ replicate plan.now.passes 0) }
    ensures range { (length plan.now.peers ≤ 32) × (plan.now.passes ≤ 64) }
    ensures all { OnOk result ((vec_len stock.new.peers ≡ length plan.now.peers) × (vec_len stock.new.passes ≡ plan.now.passes)) }
    ensures peers { OnOk result (AreFirstPeers plan.now 0 stock.new.peers.items) }
    ensures unused { OnOk result (All HasNoCredit stock.new.passes.items × All HasNoSteps stock.new.passes.items) }
    ensures supplied { (stock.new.octets.supply ≡ stock.old.octets.supply) × (stock.new.steps.supply ≡ stock.old.steps.supply) }
    ensures book { stock.new.book ≡ stock.old.book }
{
    let peers = plan.peer_count();
    let passes = plan.passes();
    push_cells(
        alloc,
        plan,
        peers,
        &mut stock.octets.first,
        &mut stock.steps.first,
        &mut stock.peers,
    )?;
    push_passes(
        passes,
        &mut stock.octets.empty,
        &mut stock.steps.empty,
        &mut stock.passes,
    )
}

// Returns the book of a plan, with every number free, and with this first serial.
fn book_of(alloc: Global, plan: &Plan, first_serial: u64) -> Result<CallBook, AllocError>
    ensures book { IfOk result (λ book. book ≡ first_book plan.now first_serial) }
    ensures start { OnOk result (IsStart plan.now first_serial) }
{
    // For the proof: a plan has at most 32 peers.
    let _peers = plan.peer_count();
    CallBook::new(alloc, plan.counts(), first_serial)
}

// Returns a supply with a first share for each peer and an empty one for each pass.
fn issue<L: Ledger>(
    alloc: Global,
    blank: Blank,
    peers: u16,
    passes: u16,
) -> Result<Issued<L>, AllocError>
    requires blank { (blank.name ≡ L.name) × (blank.parts ≡ L.parts) × (blank.parts ≡ peers + passes) }
    requires peers { (1 ≤ peers) × (peers ≤ 32) }
    requires passes { passes ≤ 64 }
    ensures supply { IfOk result (λ issue. (issue.supply.shares ≡ peers + passes) × (issue.supply.amount ≡ peers * 2 ^ 48)) }
    ensures first { IfOk result (λ issue. issue.first.items ≡ replicate peers (2 ^ 48)) }
    ensures empty { IfOk result (λ issue. issue.empty.items ≡ replicate passes 0) }
{
    let amounts = amounts_of(alloc, peers, passes)?;
    let (supply, mut first) = match supply::<L>(alloc, blank, amounts.as_slice()) {
        Ok(made) => made,
        Err(SupplyError::Memory) => return Err(AllocError),
        Err(SupplyError::TooMuch) => unreachable!(),
    };
    let empty = first.split_off(usize::from(peers))?;
    Ok(Issued {
        supply,
        first,
        empty,
    })
}

// Returns the octets, or the steps, of each peer and each pass.
fn amounts_of(alloc: Global, peers: u16, passes: u16) -> Result<Vec<u64>, AllocError>
    ensures { IfOk result (λ v. v.items ≡ replicate peers (2 ^ 48) ++ replicate passes 0) }
{
    let mut amounts = Vec::new(alloc);
    push_equal(&mut amounts, peers, FIRST_CREDIT)?;
    push_equal(&mut amounts, passes, 0)?;
    Ok(amounts)
}

// Adds the same amount `count` times behind the others.
fn push_equal(amounts: &mut Vec<u64>, count: u16, amount: u64) -> Result<(), AllocError>
    ensures { OnOk result (amounts.new.items ≡ amounts.old.items ++ replicate count amount) }
{
    for _i in 0..count {
        amounts.push(amount)?;
    }
    Ok(())
}

// Returns a peer of the plan without a leg, with first shares of both supplies.
fn state_of<J: LedgerSet>(
    alloc: Global,
    plan: &Plan,
    peer: PeerId,
    octets: Share<J::Octets>,
    steps: Share<J::Steps>,
) -> Result<NotedPeer<J>, AllocError>
    requires peer { peer < length plan.now.peers }
    requires octets { octets ≡ J.first_octets }
    requires steps { steps ≡ J.first_steps }
    ensures { IfOk result (IsFirstPeer plan.now peer) }
{
    // For the proof: each peer has 1 to 512 numbers.
    let _counts = plan.counts();
    let range = plan.range(peer);
    match PeerState::new(
        alloc,
        peer.get(),
        plan.rules(peer),
        range.first,
        range.count,
        octets,
        steps,
    ) {
        Ok(state) => Ok(NotedPeer::new(peer, state)),
        Err(_) => Err(AllocError),
    }
}

// Removes and returns the last share.
fn last_of<L: Ledger>(shares: &mut Vec<Share<L>>) -> Share<L>
    requires some { 1 ≤ vec_len shares.old }
    // If all are equal, it is one of them.
    ensures equal { (n amount : ℕ) → shares.old.items ≡ replicate n amount →
        (result ≡ amount) × (shares.new.items ≡ replicate (n - 1) amount) }
{
    match shares.pop() {
        Some(share) => share,
        None => unreachable!(),
    }
}

// Puts the peers of the plan behind locks, in its order, each with first shares of both supplies.
fn push_cells<J: LedgerSet>(
    alloc: Global,
    plan: &Plan,
    peers: u16,
    octets: &mut Vec<Share<J::Octets>>,
    steps: &mut Vec<Share<J::Steps>>,
    cells: &mut Vec<PeerCell<J>>,
) -> Result<(), AllocError>
    requires peers { peers ≡ length plan.now.peers }
    requires octets { octets.old.items ≡ replicate peers J.first_octets }
    requires steps { steps.old.items ≡ replicate peers J.first_steps }
    requires none { cells.old.items ≡ [] }
    ensures len { OnOk result (vec_len cells.new ≡ peers) }
    ensures peers { OnOk result (AreFirstPeers plan.now 0 cells.new.items) }
{
    for place in 0..peers {
        let peer = PeerId::new(place);
        let o = last_of(octets);
        let s = last_of(steps);
        let state = state_of(alloc, plan, peer, o, s)?;
        cells.push(Locked::new(state))?;
    }
    Ok(())
}

// Returns a pass of empty shares, without steps.
fn unused_pass<J: LedgerSet>(octets: Share<J::Octets>, steps: Share<J::Steps>) -> Pass<J>
    requires octets { octets ≡ 0 }
    requires steps { steps ≡ 0 }
    ensures empty { (result.credit.octets ≡ 0) × (result.credit.steps ≡ 0) }
    ensures unused { (result.begun ≡ 0) × (result.made ≡ []) }
{
    Pass::new(octets, steps)
}

// Adds `count` passes to the empty list, without credit and without steps.
fn push_passes<J: LedgerSet>(
    count: u16,
    octets: &mut Vec<Share<J::Octets>>,
    steps: &mut Vec<Share<J::Steps>>,
    passes: &mut Vec<Pass<J>>,
) -> Result<(), AllocError>
    requires octets { octets.old.items ≡ replicate count 0 }
    requires steps { steps.old.items ≡ replicate count 0 }
    requires none { passes.old.items ≡ [] }
    ensures len { OnOk result (vec_len passes.new ≡ count) }
    ensures empty { OnOk result (All HasNoCredit passes.new.items) }
    ensures unused { OnOk result (All HasNoSteps passes.new.items) }
{
    for _i in 0..count {
        let o = last_of(octets);
        let s = last_of(steps);
        passes.push(unused_pass(o, s))?;
    }
    Ok(())
}
