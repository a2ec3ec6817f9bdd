//! The text of a row: peers by their names in the plan, moments as dates.
ghost use Rattle.std.specs.Prelude.{◌≡◌};
ghost use Rattle.call_files.specs.RowLines.{peer_text};

use crate::Spelling;
use call_records::{CallRow, RowTexts, push_row};
use jiff::Timestamp;
use peer_plan::{PeerId, Plan};
use std::alloc::{AllocError, Global};

/// The date of the moment 0, at which the exchange was opened: microseconds since the beginning of 1970, in UTC.
#[derive(Clone, Copy)]
pub struct Calendar {
    pub opened_us: i64,
}

impl Calendar {
    // Formats a moment of the exchange, in milliseconds, as a date and time (RFC 3339, in UTC, with milliseconds). A moment
    // after the year 9999 gives an empty text.
    fn text(self, alloc: Global, moment: u64) -> Result<String, AllocError> {
        let ms = i64::try_from(moment).unwrap_or(i64::MAX);
        match Timestamp::from_millisecond((self.opened_us / 1000).saturating_add(ms)) {
            Ok(moment) => format!(in alloc; "{moment:.3}"),
            Err(_) => Ok(String::new(alloc)),
        }
    }
}

/// Formats the rows of a service.
#[derive(Drop)]
pub(crate) struct RowSpelling<'a> {
    pub(crate) alloc: Global,
    pub(crate) plan: &'a Plan,
    pub(crate) calendar: Calendar,
}

impl<'a> RowSpelling<'a> {
    // Returns the name of a peer, by its place in the plan, or an empty text if there is no such place.
    fn peer(&self, place: u16) -> &str
        ensures { result.now ≡ peer_text self.now.plan.now place }
    {
        if place < self.plan.peer_count() {
            self.plan.name(PeerId::new(place))
        } else {
            ""
        }
    }
}

impl<'a> Spelling<CallRow> for RowSpelling<'a> {
    ghost use Rattle.call_files.specs.RowLines.{IsRowLine};

    ghost is_line = { λ spelling row line. IsRowLine spelling.plan.now row line };

    fn spell(&self, row: &CallRow, octets: &mut Vec<u8>) -> Result<(), AllocError> {
        let opened = self.calendar.text(self.alloc, row.opened)?;
        let ended = self.calendar.text(self.alloc, row.ended)?;
        let texts = RowTexts {
            peer: self.peer(row.name.peer),
            opened: opened.as_str(),
            ended: ended.as_str(),
        };
        push_row(self.alloc, octets, row, &texts)
    }
}
