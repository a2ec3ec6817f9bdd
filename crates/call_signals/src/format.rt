//! Formats of voice ("Media Formats").
ghost use Rattle.std.specs.Prelude.{◌≡◌};
ghost use Rattle.call_signals.specs.Format.{format_bit, format_of_bit, has_format, lowest_format, same_format, formats_of_both};
ghost use Rattle.call_signals.specs.Format.{format_alone, format_among};

/// A format of voice ("Media Formats").
#[derive(Clone, Copy, Debug, PartialEq, Eq)]
pub enum Format {
    /// GSM.
    Gsm,
    /// G.711 mu-law.
    Ulaw,
    /// G.711 A-law.
    Alaw,
}

impl Format {
    /// Returns the one bit of a FORMAT, a CAPABILITY and a voice frame's subclass: 0x02, 0x04 or 0x08.
    pub fn bit(self) -> u32
        ensures { result ≡ format_bit self }
    {
        match self {
            Format::Gsm => 0x02,
            Format::Ulaw => 0x04,
            Format::Alaw => 0x08,
        }
    }

    /// Returns the format of this bit, 0x02, 0x04 or 0x08, or `None` for any other number.
    pub fn of_bit(bit: u64) -> Option<Format>
        ensures { result ≡ format_of_bit bit }
    {
        if bit == Format::Gsm.bit() as u64 {
            Some(Format::Gsm)
        } else if bit == Format::Ulaw.bit() as u64 {
            Some(Format::Ulaw)
        } else if bit == Format::Alaw.bit() as u64 {
            Some(Format::Alaw)
        } else {
            None
        }
    }

    /// Returns whether both are the same format.
    pub fn is(self, other: Format) -> bool
        ensures { result ≡ same_format self other }
    {
        matches!(
            (self, other),
            (Format::Gsm, Format::Gsm) | (Format::Ulaw, Format::Ulaw) | (Format::Alaw, Format::Alaw)
        )
    }
}

/// A set of formats ("Media Formats"), which may be empty.
#[derive(Clone, Copy, Debug, PartialEq, Eq)]
pub struct Formats {
    pub gsm: bool,
    pub ulaw: bool,
    pub alaw: bool,
}

impl Formats {
    /// Returns whether the format is one of them.
    pub fn contains(self, format: Format) -> bool
        ensures { result ≡ has_format self format }
    {
        match format {
            Format::Gsm => self.gsm,
            Format::Ulaw => self.ulaw,
            Format::Alaw => self.alaw,
        }
    }

    /// Returns the format of the lowest bit, or `None` if there is no format.
    pub fn lowest(self) -> Option<Format>
        ensures { result ≡ lowest_format self }
    {
        if self.gsm {
            Some(Format::Gsm)
        } else if self.ulaw {
            Some(Format::Ulaw)
        } else if self.alaw {
            Some(Format::Alaw)
        } else {
            None
        }
    }

    /// Returns the set of this format alone.
    pub fn alone(format: Format) -> Formats
        ensures { result ≡ format_alone format }
    {
        Formats {
            gsm: format.is(Format::Gsm),
            ulaw: format.is(Format::Ulaw),
            alaw: format.is(Format::Alaw),
        }
    }

    /// Returns the formats that both have.
    pub fn of_both(self, other: Formats) -> Formats
        ensures { result ≡ formats_of_both self other }
    {
        Formats {
            gsm: self.gsm && other.gsm,
            ulaw: self.ulaw && other.ulaw,
            alaw: self.alaw && other.alaw,
        }
    }

    /// Returns this format if it is one of them, otherwise the one of the lowest bit, or `None` if there is no format.
    pub fn among(self, format: Format) -> Option<Format>
        ensures { result ≡ format_among self format }
    {
        if self.contains(format) {
            Some(format)
        } else {
            self.lowest()
        }
    }
}
