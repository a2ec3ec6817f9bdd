//! Media at a leg ("Mini Frames", "Voice Frames").
ghost use Rattle.std.specs.Prelude.{◌≡◌, ◌≤◌, [], ◌∷◌, length, map, None, Ok, Err, if◌then◌else◌, IfErr, OnOk, OnErr};
ghost use Rattle.iax_frames.specs.FullFrame.{spelling};
ghost use Rattle.iax_frames.specs.MiniFrame.{mini_spelling};
ghost use Rattle.call_signals.specs.Stage.{is_talking};
ghost use Rattle.leg_machine.specs.Media as rules;
ghost use Rattle.leg_machine.specs.OrderTable as orders;
ghost use Rattle.memory_requests.specs.Refused.{WasRefused};

use crate::machine::Machine;
use call_signals::{OrderError, Replies};

/// The way in which media is sent ("Mini Frames", "Voice Frames").
#[derive(Clone, Copy, Debug, PartialEq, Eq)]
pub enum MediaSent {
    /// Not at all: the other side quelched it.
    Quelched,
    /// As a full frame of voice.
    Voice,
    /// It may be sent as a mini frame or a trunk entry, with this timestamp: the low 16 bits of the milliseconds since the
    /// opening.
    Mini(u16),
}

// Returns whether the high half of the present timestamp differs from that of the last voice frame sent.
fn is_other_half(last: Option<u32>, present: u32) -> bool
    ensures { result ≡ rules.is_other_half last present }
{
    match last {
        Some(last) => present / 0x1_0000 != last / 0x1_0000,
        None => true,
    }
}

impl Machine {
    ghost use Rattle.leg_machine.specs.Leg.{leg_of, whole_leg, capacity_of};

    /// Returns how media of the layer above is sent at the moment `now`, in milliseconds ("Mini Frames"). Quelched media
    /// isn't sent. Media is sent as a full frame if it is the first, or if the high half of the timestamp has changed since
    /// the last such frame; otherwise as a mini frame. Returns `WrongStage` if the leg isn't talking.
    pub fn media_sent(&self, now: u64) -> Result<MediaSent, OrderError>
        ensures { result ≡ (if is_talking self.now.stage then Ok (rules.media_sent (leg_of self.now) now)
            else Err OrderError.WrongStage) }
    {
        if !self.stage.is_talking() {
            return Err(OrderError::WrongStage);
        }
        let present = self.present(now);
        Ok(if self.quelched {
            MediaSent::Quelched
        } else if is_other_half(self.voice_sent, present) {
            MediaSent::Voice
        } else {
            MediaSent::Mini((present % 0x1_0000) as u16)
        })
    }

    /// Sends media of at most 1,380 octets as a full frame, at the moment `now`, in milliseconds.
    ///
    /// Refusals are checked in this order: `WindowFull`, `RecordFull`, and `Memory`, which never happens with a spare
    /// entry. Then nothing is changed or written.
    pub fn send_voice(
        &mut self,
        media: &[u8],
        now: u64,
        outs: &mut Replies,
    ) -> Result<(), OrderError>
        requires short { length media.now ≤ 1380 }
        requires empty { outs.old ≡ [] }
        ensures leg { OnOk result (leg_of self.new ≡ rules.after_media MediaSent.Voice (leg_of self.old) media.now now) }
        ensures replies { OnOk result (outs.new ≡
            map spelling (rules.media_frames MediaSent.Voice (leg_of self.old) media.now now)) }
        ensures unrefused { OnOk result (orders.media_refused_as MediaSent.Voice (leg_of self.old) ≡ None) }
        ensures refused { IfErr result (orders.IsRefusal (orders.media_refused_as MediaSent.Voice (leg_of self.old))) }
        ensures spare { result ≡ Err OrderError.Memory → self.old.window.spare ≡ 0 }
        ensures err { OnErr result (self.new ≡ self.old) }
        ensures none_sent { OnErr result (outs.new ≡ outs.old) }
        ensures capacity { capacity_of (whole_leg self.old) ≤ capacity_of (whole_leg self.new) }
        ensures no_memory { result ≡ Err OrderError.Memory → WasRefused }
    {
        self.room_for_sending(self.local_room())?;
        let present = self.present(now);
        self.send_frame(self.voice_frame(media, now), now, outs);
        self.voice_sent = Some(present);
        Ok(())
    }

    /// Writes media as a mini frame.
    pub fn mini(&self, timestamp: u16, media: &[u8], outs: &mut Replies)
        requires short { length media.now ≤ 1380 }
        requires empty { outs.old ≡ [] }
        ensures { outs.new ≡ mini_spelling (record { source = self.now.number; timestamp = timestamp; media = media.now }) ∷ [] }
    {
        outs.write_mini(self.number.get(), timestamp, media);
    }
}
