//! The names that are printed.
ghost use Rattle.std.specs.Prelude.{◌≡◌};
ghost use Rattle.exchange_core.specs.PrintedNames as names;

use crate::answers::{CallError, Refusal};
use call_signals::Stage;
use peer_lock::{OrderError, Rejection};

/// Returns the name of a number's stage, which is that of the variant, or `Free` if it has no leg.
pub fn stage_name(stage: Option<Stage>) -> &'static str
    ensures { result.now ≡ names.stage_text stage }
{
    match stage {
        None => "Free",
        Some(Stage::Waiting) => "Waiting",
        Some(Stage::Challenged) => "Challenged",
        Some(Stage::Offered) => "Offered",
        Some(Stage::Linked) => "Linked",
        Some(Stage::Up) => "Up",
        Some(Stage::Closing) => "Closing",
        Some(Stage::Ended) => "Ended",
    }
}

/// Returns the name of the refusal of a datagram or a tick, which is that of the variant.
pub fn refusal_name(refusal: Refusal) -> &'static str
    ensures { result.now ≡ names.refusal_text refusal }
{
    match refusal {
        Refusal::Stranger => "Stranger",
        Refusal::StepsSpent => "StepsSpent",
        Refusal::TooLong => "TooLong",
        Refusal::Short => "Short",
        Refusal::MetaCommand => "MetaCommand",
        Refusal::EntryCut => "EntryCut",
        Refusal::NoSource => "NoSource",
        Refusal::Cut => "Cut",
        Refusal::NoToken => "NoToken",
        Refusal::NoCall => "NoCall",
        Refusal::RecordFull => "RecordFull",
        Refusal::Unaddressed => "Unaddressed",
        Refusal::NewUnacknowledged => "NewUnacknowledged",
        Refusal::SerialsSpent => "SerialsSpent",
        Refusal::NoNumber => "NoNumber",
        Refusal::NumberBusy => "NumberBusy",
        Refusal::Draining => "Draining",
        Refusal::RemoteBusy => "RemoteBusy",
        Refusal::Memory => "Memory",
    }
}

/// Returns the name of a rejection, which is that of the variant.
pub fn rejection_name(rejection: Rejection) -> &'static str
    ensures { result.now ≡ names.rejection_text rejection }
{
    match rejection {
        Rejection::NoNumber => "NoNumber",
        Rejection::Draining => "Draining",
        Rejection::Registration => "Registration",
        Rejection::CallToken => "CallToken",
        Rejection::ManyEntries => "ManyEntries",
        Rejection::Reflection => "Reflection",
    }
}

/// Returns the name of the reason why no call was placed, which is that of the variant.
pub fn call_error_name(error: CallError) -> &'static str
    ensures { result.now ≡ names.call_error_text error }
{
    match error {
        CallError::BadNumber => "BadNumber",
        CallError::SerialsSpent => "SerialsSpent",
        CallError::NoNumber => "NoNumber",
        CallError::StepsSpent => "StepsSpent",
        CallError::NumberBusy => "NumberBusy",
        CallError::Memory => "Memory",
    }
}

/// Returns the name of the reason why a leg doesn't hang up, which is that of the variant.
pub fn order_error_name(error: OrderError) -> &'static str
    ensures { result.now ≡ names.order_error_text error }
{
    match error {
        OrderError::StepsSpent => "StepsSpent",
        OrderError::Gone => "Gone",
        OrderError::WrongStage => "WrongStage",
        OrderError::WindowFull => "WindowFull",
        OrderError::RecordFull => "RecordFull",
        OrderError::Memory => "Memory",
    }
}
