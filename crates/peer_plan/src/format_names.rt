//! The formats as a plan names them.
ghost use Rattle.std.specs.Prelude.{◌≡◌};
ghost use Rattle.peer_plan.specs.FormatNames.{format_name};

use call_signals::Format;

/// Returns the name of a format in a plan: `gsm`, `ulaw` or `alaw`.
pub fn format_name(format: Format) -> &'static str
    ensures { result.now ≡ format_name format }
{
    match format {
        Format::Gsm => "gsm",
        Format::Ulaw => "ulaw",
        Format::Alaw => "alaw",
    }
}
