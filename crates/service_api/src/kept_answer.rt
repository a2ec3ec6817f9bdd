//! The answer to a scrape, which is made part by part, and kept so that all clients of a second are given the same.
ghost use Rattle.std.specs.Prelude.{◌≡◌, [], None, Some, IfOk, OnErr, OnOk};
ghost use Rattle.service_api.specs.Kept.{KeepsAnswer, is_fresh};
ghost use Rattle.service_state.specs.Metrics.{scrape_text};

use service_state::Metrics;
use std::alloc::{AllocError, Global};
use std::mem;

// The time for which an answer is given, in milliseconds.
const FRESH_MS: u64 = 1000;

/// The answer to `GET /metrics` that was made last, and the parts of the next one. Moments are in milliseconds since the
/// exchange was opened.
#[derive(Drop)]
pub struct KeptAnswer {
    pub(crate) octets: Vec<u8>,
    /// The moment at which it was made.
    pub made: Option<u64>,
    // The metrics of the next answer, and the number of their parts.
    pub(crate) metrics: Metrics,
    pub(crate) parts: u32,
}

impl KeptAnswer {
    /// Returns a value without an answer. It takes no memory.
    pub fn new(alloc: Global) -> KeptAnswer
        ensures octets { result.octets.items ≡ [] }
        ensures made { result.made ≡ None }
    {
        KeptAnswer {
            octets: Vec::new(alloc),
            made: None,
            metrics: Metrics::new(alloc),
            parts: 0,
        }
    }

    /// Returns whether it is given at a moment: for a second after it was made.
    pub fn is_fresh(&self, now: u64) -> bool
        ensures { result ≡ is_fresh self.now.made now }
    {
        match self.made {
            Some(made) => now.saturating_sub(made) < FRESH_MS,
            None => false,
        }
    }

    // Counts a part that was made.
    pub(crate) fn count_part(&mut self)
        ensures { KeepsAnswer self.old self.new }
    {
        self.parts = self.parts.saturating_add(1);
    }

    // Drops the parts.
    pub(crate) fn drop_parts(&mut self, alloc: Global) -> Metrics
        ensures keeps { KeepsAnswer self.old self.new }
        ensures parts { result ≡ self.old.metrics }
    {
        self.parts = 0;
        mem::replace(&mut self.metrics, Metrics::new(alloc))
    }

    // Makes the answer of the parts, at this moment.
    pub(crate) fn finish(&mut self, alloc: Global, now: u64) -> Result<(), AllocError>
        ensures made { OnOk result (self.new.made ≡ Some now) }
        ensures octets { OnOk result (self.new.octets.items ≡ scrape_text self.old.metrics) }
        ensures keeps { OnErr result (KeepsAnswer self.old self.new) }
    {
        let metrics = self.drop_parts(alloc);
        self.octets = metrics.into_answer(alloc)?;
        self.made = Some(now);
        Ok(())
    }

    // Returns a copy of its octets.
    pub(crate) fn given(&self, alloc: Global) -> Result<Vec<u8>, AllocError>
        ensures { IfOk result (λ given. given.items ≡ self.now.octets.items) }
    {
        let mut given = Vec::new(alloc);
        given.extend_from_slice(&self.octets)?;
        Ok(given)
    }
}
