//! Writes a replay as a capture.
ghost use Rattle.std.specs.Prelude.{◌≡◌};
ghost use Rattle.std.specs.Int.{w32, from_be_bytes};

use crate::views::outcomes::write_view;
use crate::{
    PeerOfPlan, ReceivedDatagram, ReplayError, ReplayFiles, Stop, Viewer, replay_with,
    write_outcome,
};
use peer_plan::Endpoint;
use replay_views::capture::{Capture, CaptureError, Packet, UdpEndpoint};
use std::alloc::Global;
use std::io::Write;
use std::sync::Wait;

// Adds the datagrams of a replay to a capture.
#[derive(Drop)]
struct CaptureViewer {
    alloc: Global,
    capture: Capture,
    // The number of datagrams that UDP can't carry.
    left_out: u64,
}

// Converts an endpoint to the form of packets.
fn udp_endpoint(endpoint: Endpoint) -> UdpEndpoint
    ensures address { result.address ≡ from_be_bytes w32 endpoint.address }
    ensures port { result.port ≡ endpoint.port }
{
    UdpEndpoint {
        address: u32::from_be_bytes(endpoint.address),
        port: endpoint.port,
    }
}

impl CaptureViewer {
    // Adds a datagram from one endpoint to another.
    fn push(
        &mut self,
        moment: u64,
        from: Endpoint,
        to: Endpoint,
        payload: &[u8],
    ) -> Result<(), Stop> {
        let packet = Packet {
            moment,
            from: udp_endpoint(from),
            to: udp_endpoint(to),
            payload,
        };
        match self.capture.push(self.alloc, &packet) {
            Ok(()) => Ok(()),
            Err(CaptureError::TooLong) => {
                self.left_out = self.left_out.saturating_add(1);
                Ok(())
            }
            Err(CaptureError::Memory) => Err(Stop::Memory),
        }
    }
}

impl Viewer for CaptureViewer {
    fn received(&mut self, datagram: ReceivedDatagram<'_>) -> Result<(), Stop> {
        let ReceivedDatagram {
            moment,
            peer,
            octets,
            ..
        } = datagram;
        self.push(moment, peer.endpoint, peer.worker, octets)
    }

    fn sent(&mut self, moment: u64, peer: PeerOfPlan<'_>, octets: &[u8]) -> Result<(), Stop> {
        self.push(moment, peer.worker, peer.endpoint, octets)
    }
}

// Returns the capture of a replay.
fn captured<R: Wait>(
    rt: &R,
    alloc: Global,
    files: ReplayFiles<'_>,
) -> Result<CaptureViewer, ReplayError> {
    let mut viewer = CaptureViewer {
        alloc,
        capture: Capture::new(alloc)?,
        left_out: 0,
    };
    replay_with(rt, alloc, files, &mut viewer)?;
    Ok(viewer)
}

/// Replays a script on an exchange of its plan, and writes a capture of all datagrams. Both directions are in it, in the
/// order in which the exchange received and sent them. Returns the status: 0, or 1 after a refusal or if the output can't
/// be written.
///
/// Moments of the script are counted from the beginning of 1970. A script can have a datagram of more than 65,507 octets,
/// which UDP can't carry: it is left out, and standard error has the number of these. A refused plan or script is printed
/// as `replay` prints it, and nothing else is written.
pub fn write_capture<R: Wait + Eprint, W: Write>(
    rt: &R,
    alloc: Global,
    files: ReplayFiles<'_>,
    writer: &mut W,
) -> u8 {
    let viewer = match captured(rt, alloc, files) {
        Ok(viewer) => viewer,
        Err(error) => return write_outcome(Err(error), writer),
    };
    let left_out = viewer.left_out;
    if left_out > 0 {
        let _ = eprintln!(rt; "{left_out} datagrams of more than 65,507 octets are left out");
    }
    write_view(viewer.capture.octets(), writer)
}
