//! The information elements that are read from a NEW ("Call Setup", "Information Elements").
ghost use Rattle.std.specs.Prelude.{◌≡◌, ◌≤◌, length, Some, IfSome};
ghost use Rattle.std.specs.Option.{ForSome};
ghost use Rattle.info_elements.specs.Element.{u8_in, u16_in, u32_in};
ghost use Rattle.call_signals.specs.NewElements.{new_elements, named, with_element};

use info_elements::{
    CALLED_NUMBER, CALLING_NAME, CALLING_NUMBER, CALLINGPRES, CALLINGTNS, CALLINGTON, CAPABILITY,
    FORMAT, VERSION, next_element,
};

/// The information elements of a NEW, each by its name. Of the elements of one number the last counts.
#[derive(Clone, Copy)]
pub struct NewElements<'a> {
    /// CALLED NUMBER, at most 255 octets.
    pub called: Option<&'a [u8]>,
    /// CALLING NUMBER, at most 255 octets.
    pub calling: Option<&'a [u8]>,
    /// CALLING NAME, at most 255 octets.
    pub name: Option<&'a [u8]>,
    /// CALLINGPRES, if it has one octet.
    pub presentation: Option<u8>,
    /// CALLINGTON, if it has one octet.
    pub number_type: Option<u8>,
    /// CALLINGTNS, if it has two octets.
    pub network: Option<u16>,
    /// FORMAT, if it has four octets.
    pub format: Option<u32>,
    /// CAPABILITY, if it has four octets.
    pub capability: Option<u32>,
    /// VERSION, if it has two octets.
    pub version: Option<u16>,
}

// Returns the number in a value of one octet.
fn number_of_one(value: &[u8]) -> Option<u8>
    ensures { result ≡ u8_in (Some value.now) }
{
    match value {
        [a] => Some(*a),
        _ => None,
    }
}

// Returns the number in a value of two octets.
fn number_of_two(value: &[u8]) -> Option<u16>
    ensures { result ≡ u16_in (Some value.now) }
{
    match value {
        [a, b] => Some(u16::from_be_bytes([*a, *b])),
        _ => None,
    }
}

// Returns the number in a value of four octets.
fn number_of_four(value: &[u8]) -> Option<u32>
    ensures { result ≡ u32_in (Some value.now) }
{
    match value {
        [a, b, c, d] => { Some(u32::from_be_bytes([*a, *b, *c, *d])) }
        _ => None,
    }
}

impl<'a> NewElements<'a> {
    /// Reads the elements of a NEW's data, in one pass. Octets that aren't a complete element end them.
    pub fn read(octets: &'a [u8]) -> NewElements<'a>
        ensures elements { named result ≡ new_elements octets.now }
        ensures called { IfSome result.called (λ text. length text.now ≤ 255) }
        ensures calling { IfSome result.calling (λ text. length text.now ≤ 255) }
        ensures name { IfSome result.name (λ text. length text.now ≤ 255) }
    {
        let mut elements = NewElements {
            called: None,
            calling: None,
            name: None,
            presentation: None,
            number_type: None,
            network: None,
            format: None,
            capability: None,
            version: None,
        };
        let mut rest = octets;
        while let Some((number, value, after)) = next_element(rest) {
            elements = elements.with(number, value);
            rest = after;
        }
        elements
    }

    // Returns the elements with one more.
    fn with(self, number: u8, value: &'a [u8]) -> NewElements<'a>
        requires called { ForSome self.called (λ text. length text.now ≤ 255) }
        requires calling { ForSome self.calling (λ text. length text.now ≤ 255) }
        requires name { ForSome self.name (λ text. length text.now ≤ 255) }
        requires short { length value.now ≤ 255 }
        ensures elements { named result ≡ with_element (named self.entry) (record { number = number; value = value.now }) }
        ensures called { IfSome result.called (λ text. length text.now ≤ 255) }
        ensures calling { IfSome result.calling (λ text. length text.now ≤ 255) }
        ensures name { IfSome result.name (λ text. length text.now ≤ 255) }
    {
        match number {
            CALLED_NUMBER => NewElements {
                called: Some(value),
                ..self
            },
            CALLING_NUMBER => NewElements {
                calling: Some(value),
                ..self
            },
            CALLING_NAME => NewElements {
                name: Some(value),
                ..self
            },
            CALLINGPRES => NewElements {
                presentation: number_of_one(value),
                ..self
            },
            CALLINGTON => NewElements {
                number_type: number_of_one(value),
                ..self
            },
            CALLINGTNS => NewElements {
                network: number_of_two(value),
                ..self
            },
            FORMAT => NewElements {
                format: number_of_four(value),
                ..self
            },
            CAPABILITY => NewElements {
                capability: number_of_four(value),
                ..self
            },
            VERSION => NewElements {
                version: number_of_two(value),
                ..self
            },
            _ => self,
        }
    }
}
