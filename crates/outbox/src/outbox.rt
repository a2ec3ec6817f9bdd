//! The datagrams that wait to be sent to a peer.
ghost use Rattle.std.specs.Prelude.{◌≡◌, ◌+◌, ◌<◌, ◌≤◌, ◌↔◌, IsTrue, [], ◌∷◌, ◌++◌, length, take, drop, vec_capacity};
ghost use Rattle.std.specs.Prelude.{IfOk, MatchOption, OnErr};
ghost use Rattle.std.specs.Bool.{OnTrue, OnFalse};
ghost use Rattle.iax_frames.specs.Datagram.{IsFrame};
ghost use Rattle.iax_frames.specs.MiniFrame.{mini_spelling};
ghost use Rattle.outbox.specs.Outbox.{put, no_losses};
ghost use Rattle.memory_requests.specs.Refused.{WasRefused};

use crate::losses::Losses;
use circular_buffer::HeapCircularBuffer;
use iax_frames::{CallNumber, Out, mini_head};
use memory_requests::{ring_with_capacity, with_capacity};
use std::alloc::{AllocError, Global};
use std::marker::Model;

/// The greatest number of datagrams in an outbox.
const MAX_DATAGRAMS: usize = 256;
/// The octets of a full outbox: 1,400 for each of its datagrams.
const CAPACITY: usize = 358400;

/// The datagrams that wait to be sent, at most 256, the oldest first. Contracts see the octets of each, and the number of
/// lost datagrams.
///
/// Each is kept at its own length, of at most 1,400 octets. Only `new` takes memory, and nothing else can fail: a full
/// outbox loses the next datagram, and counts it.
#[derive(Drop)]
pub struct Outbox {
    // The octets of the datagrams, one after another, behind those that were taken out. They start again from the front
    // whenever none waits. So an outbox that is often emptied stays in the processor's cache; a ring would use all of its
    // memory in turn.
    octets: Vec<u8>,
    // The number of octets that were taken out.
    taken: usize,
    // The length of each datagram, in octets.
    lens: HeapCircularBuffer<u16>,
    lost: Losses,
}

impl Model for Outbox {
    ghost use Rattle.std.specs.Prelude.{◌≡◌, ◌≤◌, ℕ, List, length, drop, vec_capacity};
    ghost use Rattle.outbox.specs.Outbox.{OutboxView};
    ghost use Rattle.outbox.specs.Stored.{datagrams_in, HoldsDatagrams};

    ghost Value = { OutboxView };

    ghost view = { λ o. record { waiting = datagrams_in o.lens.items (drop o.taken o.octets.items); lost = o.lost } };

    ghost invariant = { λ o.
        (358400 ≤ vec_capacity o.octets) × (o.lens.capacity ≡ 256) × (o.taken ≤ length o.octets.items) ×
        (length o.octets.items ≤ 358400) × HoldsDatagrams o.lens.items (drop o.taken o.octets.items) };
}

impl Outbox {
    /// Returns an empty outbox, with room for 256 datagrams of 1,400 octets. Returns `Err` only if memory was refused.
    pub fn new(alloc: Global) -> Result<Outbox, AllocError>
        ensures empty { IfOk result (λ outbox. outbox ≡ record { waiting = []; lost = no_losses }) }
        ensures no_memory { OnErr result WasRefused }
    {
        Ok(Outbox {
            octets: with_capacity(alloc, CAPACITY)?,
            taken: 0,
            lens: ring_with_capacity(alloc, MAX_DATAGRAMS)?,
            lost: Losses::default(),
        })
    }

    /// Returns the number of waiting datagrams, 0 ..= 256.
    #[tactic(auto, using(crate::proofs::StoredLaws::as_many))]
    pub fn len(&self) -> usize
        ensures len { result ≡ length self.now.waiting }
        ensures limit { result ≤ 256 }
    {
        self.lens.len()
    }

    /// Returns whether no datagram waits.
    pub fn is_empty(&self) -> bool
        ensures { IsTrue result ↔ (self.now.waiting ≡ []) }
    {
        self.len() == 0
    }

    /// Returns the number of datagrams lost since it was made.
    pub fn lost(&self) -> Losses
        ensures { result ≡ self.now.lost }
    {
        self.lost
    }

    /// Returns whether no further datagram fits: 256 wait.
    #[tactic(auto, using(crate::proofs::StoredLaws::as_many))]
    pub fn is_full(&self) -> bool
        ensures full { IsTrue result ↔ (256 ≤ length self.now.waiting) }
        ensures limit { length self.now.waiting ≤ 256 }
    {
        self.lens.is_full()
    }

    /// Adds a datagram. A full outbox loses it, and counts it.
    pub fn put(&mut self, datagram: &Out)
        ensures { self.new ≡ put self.old (datagram.now ∷ []) }
    {
        self.put_in_two(datagram.octets(), &[]);
    }

    /// Adds a mini frame ("Mini Frames") from call number 1 ..= 32,767, with media of at most 1,396 octets. It has the low
    /// 16 bits of the timestamp, in milliseconds. A full outbox loses it, and counts it.
    pub fn put_mini(&mut self, number: CallNumber, timestamp: u16, media: &[u8])
        requires some { 0 < number }
        requires fits { length media.now ≤ 1396 }
        ensures { self.new
            ≡ put self.old (mini_spelling (record { source = number; timestamp = timestamp; media = media.now }) ∷ []) }
    {
        self.put_in_two(&mini_head(number, timestamp), media);
    }

    // Adds a datagram whose octets come in two pieces, the first two octets in front. A full outbox loses it.
    fn put_in_two(&mut self, front: &[u8], back: &[u8])
        requires frame { IsFrame (front.now ++ back.now) }
        requires first { 2 ≤ length front.now }
        requires fits { length front.now + length back.now ≤ 1400 }
        ensures { self.new ≡ put self.old ((front.now ++ back.now) ∷ []) }
    {
        let len = front.len() + back.len();
        match self.lens.try_push_back(len as u16) {
            Ok(()) => {
                make_room(&mut self.octets, &mut self.taken, len);
                extend(&mut self.octets, front, back);
            }
            Err(_) => self.lost = self.lost.with(front[0], front[1]),
        }
    }

    /// Takes the oldest datagram, and writes it over this one. If none waits, returns false and changes nothing.
    pub fn take_into(&mut self, out: &mut Out) -> bool
        ensures taken { OnTrue result (self.old.waiting ≡ out.new ∷ self.new.waiting) }
        ensures empty { OnFalse result (self.old.waiting ≡ []) }
        ensures same { OnFalse result ((self.new ≡ self.old) × (out.new ≡ out.old)) }
        ensures lost { self.new.lost ≡ self.old.lost }
    {
        match self.lens.pop_front() {
            None => false,
            Some(len) => {
                move_front(&mut self.octets, &mut self.taken, len as usize, out);
                true
            }
        }
    }

    /// Takes the oldest datagram, or returns `None` if none waits.
    pub fn take_out(&mut self) -> Option<Out>
        ensures taken { MatchOption result ((self.old.waiting ≡ []) × (self.new ≡ self.old))
            (λ out. self.old.waiting ≡ out ∷ self.new.waiting) }
        ensures lost { self.new.lost ≡ self.old.lost }
    {
        let mut out = Out::default();
        if self.take_into(&mut out) {
            Some(out)
        } else {
            None
        }
    }
}

// Makes room at the end for `len` more octets. If there is too little, it uses the room of those that were taken out.
fn make_room(octets: &mut Vec<u8>, taken: &mut usize, len: usize)
    requires taken { taken.old ≤ length octets.old.items }
    requires fits { length octets.old.items + len ≤ taken.old + 358400 }
    requires capacity { 358400 ≤ vec_capacity octets.old }
    ensures left { drop taken.new octets.new.items ≡ drop taken.old octets.old.items }
    ensures taken { taken.new ≤ length octets.new.items }
    ensures room { length octets.new.items + len ≤ 358400 }
    ensures capacity { 358400 ≤ vec_capacity octets.new }
{
    if octets.len() + len <= CAPACITY {
        return;
    }
    let left = octets.len() - *taken;
    octets.rotate_left(*taken);
    octets.truncate(left);
    *taken = 0;
}

// Appends octets for which there is room.
fn extend(octets: &mut Vec<u8>, front: &[u8], back: &[u8])
    requires room { length octets.old.items + length front.now + length back.now ≤ 358400 }
    requires capacity { 358400 ≤ vec_capacity octets.old }
    ensures items { octets.new.items ≡ octets.old.items ++ front.now ++ back.now }
    ensures capacity { 358400 ≤ vec_capacity octets.new }
{
    let _ = octets.extend_from_slice(front);
    let _ = octets.extend_from_slice(back);
}

// Takes `len` octets, which spell a frame, from the front of the waiting ones, and writes them over another frame. If none
// is left, there is room from the beginning again.
fn move_front(octets: &mut Vec<u8>, taken: &mut usize, len: usize, out: &mut Out)
    requires within { taken.old + len ≤ length octets.old.items }
    requires frame { IsFrame (take len (drop taken.old octets.old.items)) }
    requires fits { len ≤ 1400 }
    ensures taken { out.new ≡ take len (drop taken.old octets.old.items) }
    ensures left { drop taken.new octets.new.items ≡ drop len (drop taken.old octets.old.items) }
    ensures within { taken.new ≤ length octets.new.items }
    ensures fewer { length octets.new.items ≤ length octets.old.items }
    ensures capacity { vec_capacity octets.new ≡ vec_capacity octets.old }
{
    let end = *taken + len;
    out.replace(&octets[*taken..end], &[]);
    if end == octets.len() {
        octets.clear();
        *taken = 0;
    } else {
        *taken = end;
    }
}
