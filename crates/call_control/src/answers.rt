//! The place to which each answer leads a call. An answer to another step counts as a refusal.
ghost use Rattle.std.specs.Prelude.{◌≡◌, Some, Ok, false};
ghost use Rattle.call_control.specs.Work as work;
ghost use Rattle.call_control.specs.WorkState.{onwards_after, brings_list};

use crate::need::Route;
use crate::place::Place;
use crate::reply::Reply;
use crate::work::Work;
use call_book::{LegName, PeerId, ReserveError};
use leg_machine::{Cause, Command, Format, MediaSpan};
use peer_lock::{OrderError, PeerError, Status};

impl Work {
    /// Takes the answer to the step that `next` names.
    ///
    /// An answer to another step counts as a refusal.
    #[inline(always)]
    pub fn told(&mut self, reply: Reply)
        ensures work { self.new.work ≡ work.after_told self.old.work reply }
        ensures onwards { self.new.onwards ≡ onwards_after self.old.work.place reply self.old.onwards }
    {
        match self.place() {
            Place::Datagram(peer) => match reply {
                Reply::Datagram(Ok(heard)) => self.take_reply(heard),
                Reply::Datagram(Err(PeerError::NeedsNumber)) => self.go_to(Place::ReserveIn(peer)),
                _ => self.end(),
            },
            Place::OpenIn(name) => match reply {
                Reply::OpenIn(Ok(heard)) => self.take_reply(heard),
                _ => self.go_to(Place::GiveBack(name)),
            },
            place => self.answered_without_list(place, &reply),
        }
    }

    // The match that owns the answer is the short one, because each of its arms has to drop it.
    #[inline(always)]
    fn answered_without_list(&mut self, place: Place, reply: &Reply)
        requires { brings_list place ≡ false }
        ensures work { self.new.work ≡ work.told_at place reply.now self.old.work.rest }
        ensures onwards { self.new.onwards ≡ self.old.onwards }
    {
        match place {
            // (not asked for)
            Place::Datagram(_) | Place::OpenIn(_) => self.end(),
            Place::ReserveIn(peer) => self.after_reserve_in(reply, peer),
            Place::RejectNew(_) => self.end(),
            Place::GiveBack(_) => self.end(),
            Place::Routing(offered) => self.after_route(reply, offered),
            Place::Rejecting(offered, _) => self.after_reject(reply, offered),
            Place::ReserveOut(offered, _, format) => self.after_reserve_out(reply, offered, format),
            Place::Bridging(offered, target, format) => {
                self.after_bridge(reply, offered, target, format)
            }
            Place::Accepting(offered, target, format) => {
                self.after_accept(reply, offered, target, format)
            }
            Place::OpenOut(offered, target) => self.after_open_out(reply, offered, target),
            Place::Checking(target) => self.after_check(reply, target),
            Place::Undoing(offered, _) => self.go_to(Place::Dooming(
                offered,
                Cause::NormalClearing,
            )),
            Place::Dooming(_, _) => self.advance(),
            Place::Finding(_, command) => self.after_find(reply, command),
            Place::Passing(partner, command) => self.after_pass(reply, partner, command),
            Place::Looking(name) => self.after_look(reply, name),
            Place::LookingAt(_, _) => self.after_look_at(reply),
            Place::FindingPartner(name, cause) => self.after_find_partner(reply, name, cause),
            Place::HangingUp(name, _, cause) => self.after_partner_hangup(reply, name, cause),
            Place::Paying(name, cause) => self.go_to(Place::Retiring(name, cause)),
            Place::Retiring(name, cause) => self.after_retire(reply, name, cause),
            Place::Freeing(_, cause) => self.after_free(reply, cause),
            Place::Tick(_) => self.after_tick(reply),
            Place::HangUp(_) => self.after_hang_up(reply),
            Place::ReserveCall(_) => self.after_reserve_call(reply),
            Place::OpenCall(name) => self.after_open_call(reply, name),
            Place::End => self.end(),
        }
    }

    fn after_reserve_in(&mut self, reply: &Reply, peer: PeerId)
        ensures { self.new ≡ record self.old { work = work.after_reserve_in reply.now peer self.old.work.rest } }
    {
        match reply {
            Reply::Reserve(Ok(name)) => self.go_to(Place::OpenIn(*name)),
            Reply::Reserve(Err(ReserveError::NoNumber)) => self.go_to(Place::RejectNew(peer)),
            _ => self.end(),
        }
    }

    fn after_route(&mut self, reply: &Reply, offered: LegName)
        ensures { self.new ≡ record self.old { work = work.after_route reply.now offered self.old.work.rest } }
    {
        match reply {
            Reply::Route(Route::To(peer, format)) => {
                self.go_to(Place::ReserveOut(offered, *peer, *format))
            }
            Reply::Route(Route::WithoutFormat) => {
                self.go_to(Place::Rejecting(offered, Cause::CallRejected))
            }
            // The cause of Q.850 is "invalid number format".
            Reply::Route(Route::BadNumber) => {
                self.go_to(Place::Rejecting(offered, Cause::Other(28)))
            }
            _ => self.go_to(Place::Rejecting(offered, Cause::UnallocatedNumber)),
        }
    }

    fn after_reject(&mut self, reply: &Reply, offered: LegName)
        ensures { self.new ≡ record self.old { work = work.after_reject reply.now offered self.old.work.rest } }
    {
        match reply {
            Reply::Order(Ok(())) => self.advance(),
            _ => self.go_to(Place::Dooming(offered, Cause::NormalClearing)),
        }
    }

    fn after_reserve_out(&mut self, reply: &Reply, offered: LegName, format: Format)
        ensures { self.new ≡ record self.old { work = work.after_reserve_out reply.now offered format self.old.work.rest } }
    {
        match reply {
            Reply::Reserve(Ok(target)) => self.go_to(Place::Bridging(offered, *target, format)),
            _ => self.go_to(Place::Rejecting(offered, Cause::NoChannelAvailable)),
        }
    }

    fn after_bridge(&mut self, reply: &Reply, offered: LegName, target: LegName, format: Format)
        ensures { self.new ≡ record self.old { work = work.after_bridge reply.now offered target format self.old.work.rest } }
    {
        match reply {
            Reply::Bridge(Ok(())) => self.go_to(Place::Accepting(offered, target, format)),
            _ => self.go_to(Place::Undoing(offered, target)),
        }
    }

    fn after_accept(&mut self, reply: &Reply, offered: LegName, target: LegName, format: Format)
        ensures { self.new ≡ record self.old { work = work.after_accept reply.now offered target format self.old.work.rest } }
    {
        match reply {
            Reply::Order(Ok(())) => self.go_to(Place::OpenOut(offered, target)),
            _ => self.go_to(Place::Undoing(offered, target)),
        }
    }

    fn after_open_out(&mut self, reply: &Reply, offered: LegName, target: LegName)
        ensures { self.new ≡ record self.old { work = work.after_open_out reply.now offered target self.old.work.rest } }
    {
        match reply {
            Reply::OpenOut(Ok(())) => self.go_to(Place::Checking(target)),
            _ => self.go_to(Place::Undoing(offered, target)),
        }
    }

    fn after_check(&mut self, reply: &Reply, target: LegName)
        ensures { self.new ≡ record self.old { work = work.after_check reply.now target self.old.work.rest } }
    {
        match reply {
            Reply::Partner(Some(_)) => self.advance(),
            _ => self.go_to(Place::Dooming(target, Cause::NormalClearing)),
        }
    }

    fn after_find(&mut self, reply: &Reply, command: Command<MediaSpan>)
        ensures { self.new ≡ record self.old { work = work.after_find reply.now command self.old.work.rest } }
    {
        match reply {
            Reply::Partner(Some(partner)) => self.go_to(Place::Passing(*partner, command)),
            _ => self.advance(),
        }
    }

    fn after_pass(&mut self, reply: &Reply, partner: LegName, command: Command<MediaSpan>)
        ensures { self.new ≡ record self.old { work = work.after_pass reply.now partner command self.old.work.rest } }
    {
        match reply {
            Reply::Order(
                Err(OrderError::WindowFull | OrderError::RecordFull | OrderError::Memory),
            ) => self.after_no_room(&command, partner),
            _ => self.advance(),
        }
    }

    // Dooms the partner, which had no room, unless the order was media.
    fn after_no_room(&mut self, command: &Command<MediaSpan>, partner: LegName)
        ensures { self.new ≡ record self.old { work = work.after_no_room command.now partner self.old.work.rest } }
    {
        match command {
            Command::Media(_) => self.advance(),
            _ => self.go_to(Place::Dooming(partner, Cause::NormalClearing)),
        }
    }

    fn after_look(&mut self, reply: &Reply, name: LegName)
        ensures { self.new ≡ record self.old { work = work.after_look reply.now name self.old.work.rest } }
    {
        match reply {
            Reply::Look(Some(status)) => {
                if status.name == name {
                    self.after_status(status)
                } else {
                    self.advance()
                }
            }
            _ => self.advance(),
        }
    }

    fn after_look_at(&mut self, reply: &Reply)
        ensures { self.new ≡ record self.old { work = work.after_look_at reply.now self.old.work.rest } }
    {
        match reply {
            Reply::Look(Some(status)) => self.after_status(status),
            _ => self.advance(),
        }
    }

    // A leg that owes is settled with its partner before it is taken out.
    fn after_status(&mut self, status: &Status)
        ensures { self.new ≡
            record self.old { work = work.after_status status.now.name status.now.owes status.now.cause self.old.work.rest } }
    {
        if status.owes {
            self.go_to(Place::FindingPartner(status.name, status.cause))
        } else {
            self.go_to(Place::Retiring(status.name, status.cause))
        }
    }

    fn after_find_partner(&mut self, reply: &Reply, name: LegName, cause: Cause)
        ensures { self.new ≡ record self.old { work = work.after_find_partner reply.now name cause self.old.work.rest } }
    {
        match reply {
            Reply::Partner(Some(partner)) => self.go_to(Place::HangingUp(name, *partner, cause)),
            _ => self.go_to(Place::Paying(name, cause)),
        }
    }

    fn after_partner_hangup(&mut self, reply: &Reply, name: LegName, cause: Cause)
        ensures { self.new ≡ record self.old { work = work.after_partner_hangup reply.now name cause self.old.work.rest } }
    {
        match reply {
            Reply::Order(Ok(()) | Err(OrderError::Gone | OrderError::WrongStage)) => {
                self.go_to(Place::Paying(name, cause))
            }
            _ => self.go_to(Place::Retiring(name, cause)),
        }
    }

    fn after_retire(&mut self, reply: &Reply, name: LegName, cause: Cause)
        ensures { self.new ≡ record self.old { work = work.after_retire reply.now name cause self.old.work.rest } }
    {
        match reply {
            Reply::Retire(true) => self.go_to(Place::Freeing(name, cause)),
            _ => self.advance(),
        }
    }

    fn after_free(&mut self, reply: &Reply, cause: Cause)
        ensures { self.new ≡ record self.old { work = work.after_free reply.now cause self.old.work.rest } }
    {
        match reply {
            Reply::Release(Ok(Some(partner))) => self.go_to(Place::Dooming(*partner, cause)),
            _ => self.advance(),
        }
    }

    fn after_tick(&mut self, reply: &Reply)
        ensures { self.new ≡ record self.old { work = work.after_tick reply.now self.old.work.rest } }
    {
        match reply {
            Reply::Tick(Ok(false)) => self.advance(),
            _ => self.end(),
        }
    }

    fn after_hang_up(&mut self, reply: &Reply)
        ensures { self.new ≡ record self.old { work = work.after_hang_up reply.now self.old.work.rest } }
    {
        match reply {
            Reply::Order(Ok(())) => self.advance(),
            _ => self.end(),
        }
    }

    fn after_reserve_call(&mut self, reply: &Reply)
        ensures { self.new ≡ record self.old { work = work.after_reserve_call reply.now self.old.work.rest } }
    {
        match reply {
            Reply::Reserve(Ok(name)) => self.go_to(Place::OpenCall(*name)),
            _ => self.end(),
        }
    }

    fn after_open_call(&mut self, reply: &Reply, called: LegName)
        ensures { self.new ≡ record self.old { work = work.after_open_call reply.now called self.old.work.rest } }
    {
        match reply {
            Reply::OpenOut(Ok(())) => self.end(),
            _ => self.go_to(Place::GiveBack(called)),
        }
    }
}
