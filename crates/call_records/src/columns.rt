//! The columns of a row, one after another, and a row's text.
ghost use Rattle.std.specs.Prelude.{◌≡◌, [], ◌∷◌, ◌++◌, OnOk, OnErr, IfOk, option_copied};
ghost use Rattle.csv.specs.Records.{fields_of};
ghost use Rattle.csv.specs.Writing.{default_writer, row_text};
ghost use Rattle.call_records.specs.Rows as rows;

use crate::call_end::{CallEnd, Ending};
use crate::leg_moment::LegMoment;
use crate::side::Side;
use call_signals::{ElementText, Failure};
use csv::{StringRecord, WriterBuilder};
use plain_text::printable;
use std::alloc::{AllocError, Global};

// Adds a number in decimal digits, or nothing.
pub(crate) fn push_number(
    alloc: Global,
    fields: &mut StringRecord,
    number: Option<u64>,
) -> Result<(), AllocError>
    ensures { OnOk result (fields_of fields.new ≡ fields_of fields.old ++ rows.number_text number ∷ []) }
{
    match number {
        Some(number) => {
            let digits = format!(in alloc; "{number}")?;
            fields.push_field(digits.as_str())
        }
        None => fields.push_field(""),
    }
}

// Adds a telephone number, of any octets, as printable characters, or nothing.
pub(crate) fn push_telephone(
    alloc: Global,
    fields: &mut StringRecord,
    number: Option<&ElementText>,
) -> Result<(), AllocError>
    ensures { OnOk result (fields_of fields.new ≡ fields_of fields.old ++ rows.telephone_text (option_copied number.entry) ∷ []) }
{
    match number {
        Some(number) => {
            let text = printable(alloc, number.as_slice())?;
            fields.push_field(text.as_str())
        }
        None => fields.push_field(""),
    }
}

// Adds the two columns of a moment, or nothing in both.
pub(crate) fn push_moment(
    alloc: Global,
    fields: &mut StringRecord,
    moment: Option<LegMoment>,
) -> Result<(), AllocError>
    ensures { OnOk result (fields_of fields.new ≡ fields_of fields.old ++ rows.moment_columns moment) }
{
    match moment {
        Some(moment) => {
            push_number(alloc, fields, Some(u64::from(moment.ms)))?;
            fields.push_field(side_name(moment.clock))
        }
        None => {
            fields.push_field("")?;
            fields.push_field("")
        }
    }
}

// Returns the name of a side.
pub(crate) fn side_name(side: Side) -> &'static str
    ensures { result.now ≡ rows.side_text side }
{
    match side {
        Side::Peer => "peer",
        Side::Exchange => "exchange",
    }
}

// Returns the name of a failure, or nothing.
pub(crate) fn failure_name(failure: Option<Failure>) -> &'static str
    ensures { result.now ≡ rows.failure_text failure }
{
    match failure {
        Some(Failure::RetriesSpent) => "retries_spent",
        Some(Failure::RecordFull) => "record_full",
        Some(Failure::ChallengeTimeout) => "challenge_timeout",
        Some(Failure::Inval) => "inval",
        None => "",
    }
}

/// Returns the cause of a leg's end: the name of the frame that ended the call, with the side that sent it, or of the
/// leg's failure.
pub fn ending_name(end: Option<CallEnd>, failure: Option<Failure>) -> &'static str
    ensures { result.now ≡ rows.ending_text end failure }
{
    match (end, failure) {
        (Some(end), _) => match end.how {
            Ending::HungUpHere => "hung_up_here",
            Ending::HungUpByPeer => "hung_up_by_peer",
            Ending::RejectedHere => "rejected_here",
            Ending::RejectedByPeer => "rejected_by_peer",
        },
        (None, None) => "unknown",
        (None, failure) => failure_name(failure),
    }
}

// Returns the text of one record.
fn record_text(alloc: Global, fields: &StringRecord) -> Result<Vec<u8>, AllocError>
    ensures { IfOk result (λ text. text.items ≡ row_text default_writer (fields_of fields.now)) }
{
    let mut writer = WriterBuilder::new().from_writer(Vec::new(alloc));
    match writer.write_byte_record(fields.as_byte_record()) {
        Ok(()) => {}
        Err(_) => return Err(AllocError),
    }
    match writer.into_inner() {
        Ok(text) => Ok(text),
        Err(_) => Err(AllocError),
    }
}

// Adds the text of one record, or changes nothing.
pub(crate) fn push_record(
    alloc: Global,
    out: &mut Vec<u8>,
    fields: &StringRecord,
) -> Result<(), AllocError>
    ensures ok { OnOk result (out.new.items ≡ out.old.items ++ row_text default_writer (fields_of fields.now)) }
    ensures err { OnErr result (out.new.items ≡ out.old.items) }
{
    let text = record_text(alloc, fields)?;
    out.extend_from_slice(text.as_slice())
}
