//! Writes a replay as a ladder.
ghost use Rattle.std.specs.Prelude.{◌≡◌, ◌<◌, length};

use crate::views::outcomes::{kept, write_view};
use crate::{
    PeerOfPlan, ReceivedDatagram, ReplayError, ReplayFiles, ScriptLine, Stop, Viewer, replay_with,
    write_outcome,
};
use exchange_core::{refusal_name, stage_name};
use leg_machine::Stage;
use peer_plan::{PeerId, Plan};
use replay_views::ladder::{DatagramEvent, Direction, Ladder};
use std::alloc::Global;
use std::io;
use std::io::Write;
use std::sync::Wait;

/// The form of a ladder.
#[derive(Clone, Copy)]
pub enum LadderForm {
    /// A picture, in SVG.
    Svg,
    /// Plain text, of at most 100 columns.
    Text,
}

// Passes the events of a replay to a ladder.
#[derive(Drop)]
struct LadderViewer {
    alloc: Global,
    ladder: Ladder,
}

impl LadderViewer {
    // Adds the peers of a plan.
    fn peers(&mut self, plan: &Plan) -> io::Result<()> {
        for place in 0..plan.peer_count() {
            let peer = PeerId::new(place);
            let range = plan.range(peer);
            self.ladder.peer(plan.name(peer), range.first, range.count)?;
        }
        Ok(())
    }

    // Adds an order of the script.
    fn order(&mut self, moment: u64, line: &ScriptLine<'_>) -> io::Result<()> {
        let mut text = Vec::new(self.alloc);
        match line {
            ScriptLine::Call(peer, number) => {
                text.write_all(b"call ")?;
                text.write_all(peer)?;
                text.write_all(b" ")?;
                text.write_all(number)?;
                self.ladder.order(moment, &text, None)
            }
            ScriptLine::HangUp(number) => {
                write!(text, "hangup {number}")?;
                self.ladder
                    .order(moment, &text, u16::try_from(*number).ok())
            }
            _ => Ok(()),
        }
    }
}

impl Viewer for LadderViewer {
    fn opened(&mut self, plan: &Plan) -> Result<(), Stop> {
        kept(self.peers(plan))
    }

    fn asked(&mut self, moment: u64, line: &ScriptLine<'_>) -> Result<(), Stop> {
        kept(self.order(moment, line))
    }

    fn received(&mut self, datagram: ReceivedDatagram<'_>) -> Result<(), Stop> {
        let ReceivedDatagram {
            moment,
            peer,
            octets,
            refusal,
        } = datagram;
        kept(
            self.ladder.datagram(&DatagramEvent {
                moment,
                peer: peer.place,
                direction: Direction::In,
                octets,
                refusal: refusal.map(|refusal| refusal_name(refusal)),
            }),
        )
    }

    fn refused(&mut self, moment: u64, name: &'static str) -> Result<(), Stop> {
        kept(self.ladder.refused(moment, name))
    }

    fn sent(&mut self, moment: u64, peer: PeerOfPlan<'_>, octets: &[u8]) -> Result<(), Stop> {
        kept(
            self.ladder.datagram(&DatagramEvent {
                moment,
                peer: peer.place,
                direction: Direction::Out,
                octets,
                refusal: None,
            }),
        )
    }

    fn staged(&mut self, moment: u64, number: u16, stage: Option<Stage>) -> Result<(), Stop> {
        let is_free = stage.is_none();
        kept(
            self.ladder
                .stage(moment, number, stage_name(stage), is_free),
        )
    }
}

// Returns the ladder of a replay.
fn draw<R: Wait>(rt: &R, alloc: Global, files: ReplayFiles<'_>) -> Result<Ladder, ReplayError> {
    let mut viewer = LadderViewer {
        alloc,
        ladder: Ladder::new(alloc),
    };
    replay_with(rt, alloc, files, &mut viewer)?;
    Ok(viewer.ladder)
}

/// Replays a script on an exchange of its plan, and writes its ladder: of all legs, or of the leg of one local number.
/// Returns the status: 0, or 1 after a refusal or if the output can't be written.
///
/// A refused plan or script is printed as `replay` prints it, and nothing else is written.
pub fn write_ladder<R: Wait, W: Write>(
    rt: &R,
    alloc: Global,
    files: ReplayFiles<'_>,
    leg: Option<u16>,
    form: LadderForm,
    writer: &mut W,
) -> u8 {
    let ladder = match draw(rt, alloc, files) {
        Ok(ladder) => ladder,
        Err(error) => return write_outcome(Err(error), writer),
    };
    let drawn = match form {
        LadderForm::Svg => ladder.into_svg(leg),
        LadderForm::Text => ladder.into_text(leg),
    };
    match drawn {
        Ok(octets) => write_view(&octets, writer),
        Err(_) => write_outcome(Err(ReplayError::Memory), writer),
    }
}
