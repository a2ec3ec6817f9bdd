//! Metrics, as values and in Prometheus' text form, version 0.0.4.
ghost use Rattle.std.specs.Prelude.{◌≡◌, ◌++◌, [], IfOk, OnOk, OnErr};
ghost use Rattle.service_state.specs.Metrics.{family_text, scrape_text};

use crate::spelling::{family_octets, head_octets};
use std::alloc::{AllocError, Global};
use std::marker::Model;

/// The kind of a family's values.
#[derive(Clone, Copy)]
pub enum Kind {
    /// They only grow, until the service restarts.
    Counter,
    /// They grow and shrink.
    Gauge,
}

/// A label of a sample.
#[derive(Clone, Copy)]
pub struct Label<'a> {
    /// Letters, digits and `_`.
    pub name: &'a str,
    /// Any text.
    pub value: &'a str,
}

/// The labels of a sample.
#[derive(Clone, Copy)]
pub enum Labels<'a> {
    None,
    One(Label<'a>),
    Two(Label<'a>, Label<'a>),
}

/// One value, for the labels that it has.
#[derive(Clone, Copy)]
pub struct Sample<'a> {
    pub labels: Labels<'a>,
    pub value: u64,
}

/// A metric family: its description and its samples.
#[derive(Clone, Copy)]
pub struct Family<'a> {
    /// Letters, digits and `_`.
    pub name: &'a str,
    /// The meaning of its values.
    pub help: &'a str,
    pub kind: Kind,
    pub samples: &'a [Sample<'a>],
}

/// Families in the text form, one after the other. Contracts see their octets.
#[derive(Drop)]
pub struct Metrics {
    text: Vec<u8>,
}

impl Model for Metrics {
    ghost use Rattle.std.specs.Prelude.{List, ℕ};

    ghost Value = { List ℕ };

    ghost view = { λ metrics. metrics.text.items };
}

impl Metrics {
    /// Returns an empty list of families. It takes no memory.
    pub fn new(alloc: Global) -> Metrics
        ensures { result ≡ [] }
    {
        Metrics {
            text: Vec::new(alloc),
        }
    }

    /// Adds a family behind the others.
    ///
    /// `AllocError`: a request for memory was refused. Then the others stay as they were.
    pub fn push(&mut self, alloc: Global, family: &Family<'_>) -> Result<(), AllocError>
        ensures ok { OnOk result (self.new ≡ self.old ++ family_text family.now) }
        ensures err { OnErr result (self.new ≡ self.old) }
    {
        let octets = family_octets(alloc, family)?;
        self.text.extend_from_slice(&octets)
    }

    /// Returns the octets for the client: the head of an HTTP/1.1 answer, an empty line, and the families.
    ///
    /// `AllocError`: a request for memory was refused. Then the families are dropped.
    pub fn into_answer(self, alloc: Global) -> Result<Vec<u8>, AllocError>
        ensures { IfOk result (λ octets. octets.items ≡ scrape_text self) }
    {
        let mut octets = head_octets(alloc, self.text.len())?;
        octets.extend_from_slice(&self.text)?;
        Ok(octets)
    }
}
