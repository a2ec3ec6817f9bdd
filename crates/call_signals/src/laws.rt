//! The laws of a call's words.

ghost use Rattle.std.specs.Prelude.{◌≡◌, None, Some};
ghost use Rattle.iax_frames.specs.FullFrame.{FullFrame};
ghost use Rattle.call_signals.specs.Openings.{call_format, IsCommon, IsLowestCommon, IsWanted};
ghost use Rattle.call_signals.specs.declared.format.Format.{Format};
ghost use Rattle.call_signals.specs.declared.format.Formats.{Formats};

/// The format of a call is FORMAT if that is exactly one bit that offer and peer have in common, otherwise the lowest
/// common bit. If no bit is common, there is none ("Call Setup", "Media Formats").
pub fn format_is_wanted_or_lowest()
    ensures wanted { (formats : Formats) (frame : FullFrame) (format : Format) → IsWanted formats frame format →
        call_format formats frame ≡ Some format }
    ensures lowest { (formats : Formats) (frame : FullFrame) (format : Format) →
        ((other : Format) → ¬ IsWanted formats frame other) → IsLowestCommon formats frame format →
        call_format formats frame ≡ Some format }
    ensures none { (formats : Formats) (frame : FullFrame) → ((format : Format) → ¬ IsCommon formats frame format) →
        call_format formats frame ≡ None }
{}
