//! The opening of a leg: the rows of a received NEW ("Call Setup").
ghost use Rattle.std.specs.Prelude.{◌≡◌, option_copied};
ghost use Rattle.call_signals.specs.NewElements.{named};
ghost use Rattle.call_signals.specs.Openings as opening;

use crate::cause::Cause;
use crate::effects::{Answering, Effect, rejected, row};
use crate::format::{Format, Formats};
use crate::new_elements::NewElements;
use crate::reply::ReplyFrame;
use crate::rules::PeerRules;
use crate::signal::Signal;
use crate::stage::Stage;
use call_auth::Challenge;

/// The handling of a received NEW ("Call Setup").
#[derive(Clone, Copy)]
pub enum Opening {
    /// VERSION is absent or not 2, or there is no common format.
    Refused,
    /// The peer has a secret, and is challenged.
    Challenges,
    /// The call is offered to the layer above.
    Offers,
}

fn has_bit(bits: u32, format: Format) -> bool
    ensures { result ≡ opening.has_bit bits format }
{
    bits & format.bit() == format.bit()
}

// Returns whether a format of the peer is in FORMAT or CAPABILITY.
fn is_common(wanted: u32, capable: u32, of_peer: bool, format: Format) -> bool
    ensures { result ≡ opening.is_common wanted capable of_peer format }
{
    let stands = has_bit(wanted, format) || has_bit(capable, format);
    of_peer && stands
}

fn common_formats(formats: Formats, wanted: u32, capable: u32) -> Formats
    ensures { result ≡ opening.common_formats formats wanted capable }
{
    Formats {
        gsm: is_common(wanted, capable, formats.gsm, Format::Gsm),
        ulaw: is_common(wanted, capable, formats.ulaw, Format::Ulaw),
        alaw: is_common(wanted, capable, formats.alaw, Format::Alaw),
    }
}

// Returns FORMAT if it is exactly one common bit, otherwise the lowest common bit.
fn chosen_format(common: Formats, wanted: u32) -> Option<Format>
    ensures { result ≡ opening.chosen_format common wanted }
{
    if common.gsm && wanted == Format::Gsm.bit() {
        Some(Format::Gsm)
    } else if common.ulaw && wanted == Format::Ulaw.bit() {
        Some(Format::Ulaw)
    } else if common.alaw && wanted == Format::Alaw.bit() {
        Some(Format::Alaw)
    } else {
        common.lowest()
    }
}

/// Returns the format of the call of a NEW, by its elements ("Call Setup"): FORMAT if that is the bit of exactly one common
/// format, otherwise the common format of the lowest bit, or `None` if no format is common. The common formats are those of
/// the peer that FORMAT or CAPABILITY has.
pub fn call_format(formats: Formats, elements: &NewElements) -> Option<Format>
    ensures { result ≡ opening.format_by formats (named elements.now) }
{
    let wanted = elements.format.unwrap_or(0);
    let capable = elements.capability.unwrap_or(0);
    chosen_format(common_formats(formats, wanted, capable), wanted)
}

/// Returns the formats that the call of a NEW may have: all common ones if the peer's rules route the call by them,
/// otherwise the chosen one.
pub fn offered_formats(rules: &PeerRules, elements: &NewElements, format: Format) -> Formats
    ensures { result ≡ opening.offered_formats rules.now (named elements.now) format }
{
    if rules.routes_format {
        let wanted = elements.format.unwrap_or(0);
        common_formats(rules.formats, wanted, elements.capability.unwrap_or(0))
    } else {
        Formats::alone(format)
    }
}

fn is_version_2(version: Option<u16>) -> bool
    ensures { result ≡ opening.is_version_2 version }
{
    match version {
        Some(version) => version == 2,
        None => false,
    }
}

/// Returns the handling of a NEW, by its elements ("Call Setup"). `Refused` is checked first, then whether the peer has a
/// secret.
pub fn opening_of(rules: &PeerRules, elements: &NewElements) -> Opening
    ensures { result ≡ opening.opening_by rules.now (named elements.now) }
{
    let is_version_2 = is_version_2(elements.version);
    let has_format = call_format(rules.formats, elements).is_some();
    if is_version_2 && has_format {
        if rules.secret.is_some() {
            Opening::Challenges
        } else {
            Opening::Offers
        }
    } else {
        Opening::Refused
    }
}

impl Opening {
    /// Returns the row of the table: the answer, the stage afterwards, and the signal handed up.
    pub fn effect(self) -> Effect
        ensures { result ≡ opening.opening_effect self }
    {
        match self {
            Opening::Refused => rejected(Cause::CallRejected),
            Opening::Challenges => row(
                Answering::Answered(ReplyFrame::AuthReq),
                Stage::Challenged,
                None,
            ),
            Opening::Offers => row(Answering::Silent, Stage::Offered, Some(Signal::Offered)),
        }
    }

    /// Returns the challenge to be sent: this one if the peer is challenged, otherwise `None`.
    pub fn challenge(self, challenge: &Challenge) -> Option<Challenge>
        ensures { result ≡ opening.challenge_sent self challenge.now }
    {
        match self {
            Opening::Refused => None,
            Opening::Challenges => Some(challenge.copied()),
            Opening::Offers => None,
        }
    }
}
