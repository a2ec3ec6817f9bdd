//! Writes a replay as the records of its call legs.
use crate::views::outcomes::write_view;
use crate::{ReplayError, ReplayFiles, Stop, Viewer, replay_with, write_outcome};
use call_records::{CallNumbering, RowTexts, push_header, push_row};
use exchange_core::Retired;
use peer_plan::{PeerId, Plan};
use service_state::call_row;
use std::alloc::{AllocError, Global};
use std::io::Write;
use std::sync::Wait;

// Keeps a row for each leg that is taken out.
#[derive(Drop)]
struct RecordViewer {
    alloc: Global,
    // The names of the peers, in the order of the plan.
    peers: Vec<String>,
    calls: CallNumbering,
    rows: Vec<u8>,
}

impl RecordViewer {
    // Returns a viewer without rows.
    fn new(alloc: Global) -> Result<RecordViewer, AllocError> {
        Ok(RecordViewer {
            alloc,
            peers: Vec::new(alloc),
            calls: CallNumbering::new(alloc, 0, 0)?,
            rows: Vec::new(alloc),
        })
    }

    // Adds the row of a leg. Its moments are those of the script.
    fn push(&mut self, leg: &Retired) -> Result<(), AllocError> {
        let call = self.calls.number_of(leg.name, leg.partner);
        let opened = format!(in self.alloc; "{}", leg.facts.opened)?;
        let ended = format!(in self.alloc; "{}", leg.ended)?;
        let peer = match self.peers.get(usize::from(leg.name.peer)) {
            Some(name) => name.as_str(),
            None => "",
        };
        let texts = RowTexts {
            peer,
            opened: opened.as_str(),
            ended: ended.as_str(),
        };
        push_row(self.alloc, &mut self.rows, &call_row(leg, call), &texts)
    }
}

impl Viewer for RecordViewer {
    fn opened(&mut self, plan: &Plan) -> Result<(), Stop> {
        self.calls = CallNumbering::new(self.alloc, plan.number_count(), 0)?;
        for place in 0..plan.peer_count() {
            let peer = PeerId::new(place);
            let name = String::from_str(self.alloc, plan.name(peer))?;
            if self.peers.push(name).is_err() {
                return Err(Stop::Memory);
            }
        }
        Ok(push_header(self.alloc, &mut self.rows)?)
    }

    fn retired(&mut self, _moment: u64, leg: &Retired) -> Result<(), Stop> {
        Ok(self.push(leg)?)
    }
}

// Returns the rows of a replay.
fn recorded<R: Wait>(
    rt: &R,
    alloc: Global,
    files: ReplayFiles<'_>,
) -> Result<RecordViewer, ReplayError> {
    let mut viewer = RecordViewer::new(alloc)?;
    replay_with(rt, alloc, files, &mut viewer)?;
    Ok(viewer)
}

/// Replays a script on an exchange of its plan, and writes the record of each leg that was taken out. Each is a row of CSV,
/// below a line with the names of the columns. Returns the status: 0, or 1 after a refusal or if the output can't be
/// written.
///
/// The moments `opened` and `ended` are the script's, in milliseconds. A refused plan or script is printed as `replay`
/// prints it, and nothing else is written.
pub fn write_records<R: Wait, W: Write>(
    rt: &R,
    alloc: Global,
    files: ReplayFiles<'_>,
    writer: &mut W,
) -> u8 {
    match recorded(rt, alloc, files) {
        Ok(viewer) => write_view(viewer.rows.as_slice(), writer),
        Err(error) => write_outcome(Err(error), writer),
    }
}
