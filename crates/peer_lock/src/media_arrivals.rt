//! The steps of a peer in which media arrives without a full frame ("Mini Frames", "Meta Frames").
ghost use Rattle.std.specs.Prelude.{◌≡◌, ◌+◌, ◌<◌, ◌≤◌, ◌++◌, [], length, map, IsSome};
ghost use Rattle.iax_frames.specs.TrunkFrame.{entry_item, is_timed};
ghost use Rattle.peer_accounts.specs.Accounts.{with_accepted};
ghost use Rattle.peer_lock.specs.Arrivals.{media_at, trunk_media, entries_len};
ghost use Rattle.peer_legs.specs.Legs.{leg_at};
ghost use Rattle.peer_lock.specs.TrunkEntries.{drops_entries};
ghost use Rattle.peer_accounts.specs.HandedUp.{IsNothing};
ghost use Rattle.peer_lock.specs.Makes.{Takes};

use crate::errors::PeerError;
use crate::state::PeerState;
use crate::trunk_entries::{counts_entry, no_counts};
use iax_frames::{Mini, Trunk};
use leg_machine::{MediaIn, MediaSpan, Signal};
use peer_accounts::{LedgerSet, Onwards, Pass};
use trunk_packer::entry_head_len;

/// More trunk entries than a datagram of 2,048 octets can have.
pub(crate) const ENTRIES: usize = 512;

impl<J: LedgerSet> PeerState<J> {
    // Takes media for the leg of a number. If it counts and there is credit for it, it is handed up.
    pub(crate) fn take_media(
        &mut self,
        pass: &mut Pass<J>,
        number: u16,
        span: MediaSpan,
        onwards: &mut Onwards,
    )
        requires there { IsSome (leg_at self.old.legs number) }
        requires room { 1 ≤ onwards.old.room }
        ensures peer { self.new ≡ record self.old {
          accounts = with_accepted self.old.accounts
              (media_at J.first_octets self.old.accounts.accepted (leg_at self.old.legs number) span).octets;
        } }
        ensures signals { onwards.new.signals ≡ onwards.old.signals
            ++ (media_at J.first_octets self.old.accounts.accepted (leg_at self.old.legs number) span).signals }
        ensures offer { onwards.new.offer ≡ onwards.old.offer }
        ensures room { onwards.old.room ≤ onwards.new.room + 1 }
        ensures credit { pass.new ≡ record pass.old {
          octets = pass.old.octets
              + (media_at J.first_octets self.old.accounts.accepted (leg_at self.old.legs number) span).octets;
        } }
    {
        let named = self.legs.get(number).unwrap();
        if named.leg().media_in(span) == MediaIn::NotYet {
            return;
        }
        let name = named.name();
        if let Some(signal) = self.account.grant(pass, Some(Signal::Media(span))) {
            onwards.push(name, signal);
        }
    }

    // Takes the media of the entries of a trunk frame, in one pass. There is room for all of it. Returns whether entries were
    // dropped, because their call has too many.
    pub(crate) fn take_entries(
        &mut self,
        pass: &mut Pass<J>,
        trunk: &Trunk,
        onwards: &mut Onwards,
    ) -> bool
        requires short { 8 + entries_len (is_timed trunk.now.command_data) (map entry_item trunk.now.entries) ≤ 2048 }
        requires room { length (map entry_item trunk.now.entries) ≤ onwards.old.room }
        requires nothing { IsNothing onwards.old }
        ensures takes { Takes (trunk_media J.first_octets self.old trunk.now) self.old self.new pass.old pass.new onwards.new }
        ensures drops { result ≡ drops_entries self.old.legs self.old.rules.is_hardened [] (map entry_item trunk.now.entries) }
    {
        let is_limited = self.rules.is_hardened;
        let mut counts = no_counts();
        let mut drops = false;
        let timed = trunk.command_data() % 2 == 1;
        let head = entry_head_len(timed);
        let mut at = 8;
        let mut left = trunk.entries();
        while let Some(entry) = left.next() {
            let start = at + head;
            let span = MediaSpan {
                start,
                end: start + entry.2.len(),
            };
            at = span.end;
            if let Some(number) = self.legs.of_remote(entry.0) {
                if is_limited && !counts_entry(&mut counts, self.legs.place_of(number)) {
                    drops = true;
                } else {
                    self.take_media(pass, number, span, onwards);
                }
            }
        }
        drops
    }
}
