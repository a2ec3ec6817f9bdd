//! The row of a leg that has ended, and its text.
ghost use Rattle.std.specs.Prelude.{◌≡◌, ◌++◌, OnOk, OnErr, IfOk};
ghost use Rattle.csv.specs.Records.{fields_of};
ghost use Rattle.csv.specs.Writing.{default_writer, row_text};
ghost use Rattle.call_records.specs.Columns as columns;
ghost use Rattle.call_records.specs.Reasons as reasons;

use crate::call_record::CallRecord;
use crate::columns::{
    ending_name, failure_name, push_moment, push_number, push_record, push_telephone, side_name,
};
use crate::reason::reason_name;
use call_book::LegName;
use call_signals::{Failure, Format, Moments};
use csv::StringRecord;
use peer_plan::format_name;
use std::alloc::{AllocError, Global};

/// The row of a leg that has ended. It takes no memory beside itself, and is at most 1,024 octets large.
#[derive(Drop)]
pub struct CallRow {
    /// The serial of the call, which its two legs share.
    pub call: u64,
    pub name: LegName,
    /// The leg with which it was bridged until it was taken out.
    pub partner: Option<LegName>,
    /// Its call, as its record shows it.
    pub leg: CallRecord,
    pub format: Format,
    /// The failure that ended it, if no HANGUP or REJECT did.
    pub failure: Option<Failure>,
    /// The number of retransmitted full frames, modulo 2^64.
    pub resent: u64,
    /// The moments at which its call was first offered, accepted, answered and over, in milliseconds since the exchange was
    /// opened.
    pub moments: Moments,
    /// Whether its peer was challenged.
    pub challenged: bool,
    /// Whether it answered a challenge of its peer.
    pub authenticated: bool,
    /// The moment at which it was opened, in milliseconds since the exchange was opened.
    pub opened: u64,
    /// The moment at which it was taken out, in milliseconds since the exchange was opened.
    pub ended: u64,
}

const _: () = prove!(std::mem::size_of::<CallRow>() <= 1024);

/// The texts of a row that need a plan or a calendar.
#[derive(Clone, Copy)]
pub struct RowTexts<'a> {
    /// The name of the leg's peer.
    pub peer: &'a str,
    /// When the leg was opened.
    pub opened: &'a str,
    /// When it was taken out.
    pub ended: &'a str,
}

// The names of the columns.
const NAMES: [&str; 35] = [
    "call",
    "peer",
    "number",
    "serial",
    "partner_number",
    "partner_serial",
    "opened_by",
    "calling",
    "called",
    "format",
    "opened",
    "opened_ms",
    "ended",
    "ended_ms",
    "accepted_ms",
    "accepted_clock",
    "answered_ms",
    "answered_clock",
    "end_ms",
    "end_clock",
    "talk_ms",
    "ending",
    "cause",
    "failure",
    "sent",
    "acknowledged",
    "taken",
    "resent",
    "digits_taken",
    "digits_sent",
    "accepted_at_ms",
    "answered_at_ms",
    "over_at_ms",
    "bill_ms",
    "reason",
];

impl CallRow {
    // Adds the serial of the call and the name of the leg.
    fn push_names(
        &self,
        alloc: Global,
        fields: &mut StringRecord,
        peer: &str,
    ) -> Result<(), AllocError>
        ensures { OnOk result (fields_of fields.new ≡ fields_of fields.old ++ columns.name_columns self.now peer.now) }
    {
        push_number(alloc, fields, Some(self.call))?;
        fields.push_field(peer)?;
        push_number(alloc, fields, Some(u64::from(self.name.number)))?;
        push_number(alloc, fields, Some(self.name.serial))?;
        push_number(
            alloc,
            fields,
            self.partner.map(|name| u64::from(name.number)),
        )?;
        push_number(alloc, fields, self.partner.map(|name| name.serial))
    }

    // Adds the caller and the called number.
    fn push_parties(&self, alloc: Global, fields: &mut StringRecord) -> Result<(), AllocError>
        ensures { OnOk result (fields_of fields.new ≡ fields_of fields.old ++ columns.party_columns self.now) }
    {
        match self.leg.opened_by {
            Some(side) => fields.push_field(side_name(side))?,
            None => fields.push_field("")?,
        }
        push_telephone(alloc, fields, self.leg.calling.as_ref())?;
        push_telephone(alloc, fields, self.leg.called.as_ref())?;
        fields.push_field(format_name(self.format))
    }

    // Adds the moments at which the leg was opened and taken out.
    fn push_times(
        &self,
        alloc: Global,
        fields: &mut StringRecord,
        opened: &str,
        ended: &str,
    ) -> Result<(), AllocError>
        ensures { OnOk result (fields_of fields.new ≡ fields_of fields.old ++ columns.time_columns self.now opened.now
            ended.now) }
    {
        fields.push_field(opened)?;
        push_number(alloc, fields, Some(self.opened))?;
        fields.push_field(ended)?;
        push_number(alloc, fields, Some(self.ended))
    }

    // Adds the moments at which its call was accepted, was answered and ended.
    fn push_moments(&self, alloc: Global, fields: &mut StringRecord) -> Result<(), AllocError>
        ensures { OnOk result (fields_of fields.new ≡ fields_of fields.old ++ columns.moments_columns self.now) }
    {
        push_moment(alloc, fields, self.leg.accepted)?;
        push_moment(alloc, fields, self.leg.answered)?;
        push_moment(alloc, fields, self.leg.end.map(|end| end.at))?;
        push_number(alloc, fields, self.leg.talk_ms().map(u64::from))
    }

    // Adds the end of the call.
    fn push_ending(&self, alloc: Global, fields: &mut StringRecord) -> Result<(), AllocError>
        ensures { OnOk result (fields_of fields.new ≡ fields_of fields.old ++ columns.ending_columns self.now) }
    {
        let cause = match self.leg.end {
            Some(end) => end.cause.map(u64::from),
            None => None,
        };
        fields.push_field(ending_name(self.leg.end, self.failure))?;
        push_number(alloc, fields, cause)?;
        fields.push_field(failure_name(self.failure))
    }

    // Adds the counts of its frames.
    fn push_counts(&self, alloc: Global, fields: &mut StringRecord) -> Result<(), AllocError>
        ensures { OnOk result (fields_of fields.new ≡ fields_of fields.old ++ columns.count_columns self.now) }
    {
        push_number(alloc, fields, Some(self.leg.sent as u64))?;
        push_number(alloc, fields, Some(self.leg.acknowledged as u64))?;
        push_number(alloc, fields, Some(self.leg.taken as u64))?;
        push_number(alloc, fields, Some(self.resent))?;
        push_number(alloc, fields, Some(self.leg.digits_taken as u64))?;
        push_number(alloc, fields, Some(self.leg.digits_sent as u64))
    }

    // Returns the milliseconds from the answer to the end, by the exchange's clock.
    fn bill_ms(&self) -> Option<u64>
        ensures { result ≡ reasons.bill_ms self.now.moments }
    {
        match (self.moments.answered, self.moments.over) {
            (Some(answered), Some(over)) => Some(over.saturating_sub(answered)),
            _ => None,
        }
    }

    // Adds the call's moments by the exchange's clock, and the reason why it wasn't answered.
    fn push_outcome(&self, alloc: Global, fields: &mut StringRecord) -> Result<(), AllocError>
        ensures { OnOk result (fields_of fields.new ≡ fields_of fields.old ++ columns.outcome_columns self.now) }
    {
        push_number(alloc, fields, self.moments.accepted)?;
        push_number(alloc, fields, self.moments.answered)?;
        push_number(alloc, fields, self.moments.over)?;
        push_number(alloc, fields, self.bill_ms())?;
        fields.push_field(reason_name(self))
    }

    // Adds all columns.
    fn push_columns(
        &self,
        alloc: Global,
        fields: &mut StringRecord,
        texts: &RowTexts<'_>,
    ) -> Result<(), AllocError>
        ensures { OnOk result (fields_of fields.new ≡ fields_of fields.old ++ columns.row_columns self.now texts.now) }
    {
        self.push_names(alloc, fields, texts.peer)?;
        self.push_parties(alloc, fields)?;
        self.push_times(alloc, fields, texts.opened, texts.ended)?;
        self.push_moments(alloc, fields)?;
        self.push_ending(alloc, fields)?;
        self.push_counts(alloc, fields)?;
        self.push_outcome(alloc, fields)
    }

    // Returns all columns.
    fn columns(&self, alloc: Global, texts: &RowTexts<'_>) -> Result<StringRecord, AllocError>
        ensures { IfOk result (λ fields. fields_of fields ≡ columns.row_columns self.now texts.now) }
    {
        let mut fields = StringRecord::new(alloc);
        self.push_columns(alloc, &mut fields, texts)?;
        Ok(fields)
    }
}

/// Adds the line with the names of the columns, or changes nothing.
///
/// `AllocError`: a request for memory was refused.
pub fn push_header(alloc: Global, out: &mut Vec<u8>) -> Result<(), AllocError>
    ensures ok { OnOk result (out.new.items ≡ out.old.items ++ row_text default_writer columns.column_names) }
    ensures err { OnErr result (out.new.items ≡ out.old.items) }
{
    let fields = StringRecord::from_fields(alloc, &NAMES)?;
    push_record(alloc, out, &fields)
}

/// Adds the text of a row as a record of CSV (RFC 4180, with a line feed at its end), or changes nothing.
///
/// `AllocError`: a request for memory was refused.
pub fn push_row(
    alloc: Global,
    out: &mut Vec<u8>,
    row: &CallRow,
    texts: &RowTexts<'_>,
) -> Result<(), AllocError>
    ensures ok { OnOk result (out.new.items ≡ out.old.items ++ row_text default_writer (columns.row_columns row.now texts.now)) }
    ensures err { OnErr result (out.new.items ≡ out.old.items) }
{
    let fields = row.columns(alloc, texts)?;
    push_record(alloc, out, &fields)
}
