//! The report of a turn.
ghost use Rattle.std.specs.Prelude.{◌≡◌, ◌+◌, ◌^◌};

use exchange_core::Event;

/// The counts of one turn, or of several together.
#[derive(Clone, Copy, Debug, Default, PartialEq, Eq)]
pub struct TurnReport {
    /// Datagrams that were received.
    pub received: u64,
    /// Received datagrams that the exchange refused, including those of strangers.
    pub refused: u64,
    /// Datagrams that were sent.
    pub sent: u64,
    /// Datagrams that the wire didn't take, and that are lost.
    pub lost: u64,
    /// Calls of the wire that failed.
    pub faults: u64,
    /// Legs that were taken out, modulo 2^64.
    pub retired: u64,
}

impl TurnReport {
    ghost use Rattle.udp_workers.specs.Events.{HasRoom, counted};

    // Returns the report with one more event.
    pub(crate) fn counted(self, event: Event) -> TurnReport
        requires { HasRoom 1 self }
        ensures { result ≡ counted self event }
    {
        let mut report = self;
        match event {
            Event::Received { .. } => report.received += 1,
            Event::Refused { .. } | Event::TurnedAway { .. } => report.refused += 1,
            Event::Rejected { .. } => {}
            Event::Stranger { .. } => {
                report.received += 1;
                report.refused += 1;
            }
            Event::Sent { .. } => report.sent += 1,
            Event::Lost { .. } => report.lost += 1,
            Event::Fault => report.faults += 1,
            Event::Retired { .. } => report.retired = report.retired.wrapping_add(1),
        }
        report
    }
}
