//! The legs that a call takes out.
ghost use Rattle.std.specs.Prelude.{◌+◌, ◌≤◌, ◌<◌, IsSome, vec_len, vec_capacity};

use crate::answers::Retired;
use call_book::LegName;
use memory_requests::reserve;
use peer_lock::EndedLeg;
use std::alloc::Global;

// The legs that a call has taken out so far.
#[derive(Drop)]
pub(crate) struct RetiredLegs {
    // The last one, whose name wasn't returned to the book yet.
    last: Option<Retired>,
    // Those before it, in order.
    gone: Vec<Retired>,
    ghost room: { IsSome last → vec_len gone < vec_capacity gone },
}

impl RetiredLegs {
    ghost use Rattle.std.specs.Prelude.{◌≡◌, ◌++◌, None, Some, IsTrue, map, option_map};
    ghost use Rattle.std.specs.Bool.{OnFalse};
    ghost use Rattle.std.specs.Option.{option_to_list};
    ghost use Rattle.exchange_core.specs.Leaving.{all_left, departure_of, given_up_at, leaving_of, nobody, parted};
    ghost use Rattle.memory_requests.specs.Refused.{WasRefused};
    ghost use Rattle.peer_lock.specs.Statuses.{IsHistory};

    // Returns an empty list.
    pub(crate) fn none(alloc: Global) -> RetiredLegs
        ensures { leaving_of result ≡ nobody }
    {
        RetiredLegs {
            last: None,
            gone: Vec::new(alloc),
        }
    }

    // Reserves room for one more. Returns false only if the request was refused.
    pub(crate) fn make_room(&mut self) -> bool
        ensures same { leaving_of self.new ≡ leaving_of self.old }
        ensures room { IsTrue result → vec_len self.new.gone + 2 ≤ vec_capacity self.new.gone }
        ensures refused { OnFalse result WasRefused }
    {
        reserve(&mut self.gone, 2).is_ok()
    }

    // Moves the last one, if there is one, behind those before it. There is room for it.
    fn close(&mut self)
        ensures all { leaving_of self.new ≡ record { last = None; gone = all_left (leaving_of self.old) } }
        ensures room { vec_len self.old.gone + 2 ≤ vec_capacity self.old.gone →
            vec_len self.new.gone < vec_capacity self.new.gone }
    {
        if let Some(leg) = self.last.take() {
            self.gone.push_reserved(leg);
        }
    }

    // Takes the leg that a peer's state gave up under this name, at this moment. There is room for it.
    pub(crate) fn take(&mut self, name: LegName, leg: EndedLeg, now: u64)
        requires room { vec_len self.old.gone + 2 ≤ vec_capacity self.old.gone }
        requires legal { IsHistory leg.history.entries }
        ensures { leaving_of self.new ≡ record { last = Some (given_up_at now name leg); gone = all_left (leaving_of self.old) } }
    {
        self.close();
        let EndedLeg { facts, history } = leg;
        self.last = Some(Retired {
            name,
            facts,
            ended: now,
            partner: None,
            history,
        });
    }

    // Returns the leg, with its former partner.
    fn with_partner(leg: Retired, former: Option<LegName>) -> Retired
        ensures { departure_of result ≡ parted former (departure_of leg) }
    {
        let Retired {
            name,
            facts,
            ended,
            partner: _,
            history,
        } = leg;
        Retired {
            name,
            facts,
            ended,
            partner: former,
            history,
        }
    }

    // Notes that the name of the last one was returned to the book, which returned its former partner.
    pub(crate) fn part(&mut self, former: Option<LegName>)
        ensures { leaving_of self.new ≡ record {
          last = None;
          gone = (leaving_of self.old).gone ++ option_to_list (option_map (parted former) (leaving_of self.old).last);
        } }
    {
        if let Some(leg) = self.last.take() {
            self.gone
                .push_reserved(RetiredLegs::with_partner(leg, former));
        }
    }

    // Returns all of them, in order.
    pub(crate) fn into_legs(self) -> Vec<Retired>
        ensures { map departure_of result.items ≡ all_left (leaving_of self) }
    {
        let mut retired_legs = self;
        retired_legs.close();
        let RetiredLegs { last: _, gone } = retired_legs;
        gone
    }
}
