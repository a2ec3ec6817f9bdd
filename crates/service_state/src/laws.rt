//! The law of label values, over every text.
ghost use Rattle.std.specs.Prelude.{◌≡◌, ℕ, List};
ghost use Rattle.std.specs.List.{flat_map};
ghost use Rattle.service_state.specs.Metrics.{value_octet, read_value};

/// A reader of the text form reads each label's value as it was, whatever octets it has. A law about definitions, for provers;
/// the call does nothing.
pub fn label_values_are_read_back()
    ensures { (octets : List ℕ) → read_value (flat_map value_octet octets) ≡ octets }
{}
