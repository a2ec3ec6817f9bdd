//! Pairs of call numbers, one of each side, that name one leg.
use std::alloc::{AllocError, Global};

// A leg's number at the peer, and at the exchange.
#[derive(Clone, Copy)]
struct Pair {
    peer: u16,
    remote: u16,
    local: u16,
}

/// The numbers of legs, as learnt from frames.
#[derive(Drop)]
pub(crate) struct NumberPairs {
    pairs: Vec<Pair>,
}

impl NumberPairs {
    /// Returns a list without pairs.
    pub(crate) fn new(alloc: Global) -> NumberPairs {
        NumberPairs {
            pairs: Vec::new(alloc),
        }
    }

    /// Returns the number at the exchange of the leg that has this number at a peer.
    pub(crate) fn local(&self, peer: u16, remote: u16) -> Option<u16> {
        for pair in &self.pairs {
            if pair.peer == peer && pair.remote == remote {
                return Some(pair.local);
            }
        }
        None
    }

    /// Learns that the two numbers name one leg.
    pub(crate) fn learn(&mut self, peer: u16, remote: u16, local: u16) -> Result<(), AllocError> {
        for pair in self.pairs.iter_mut() {
            if pair.peer == peer && pair.remote == remote {
                pair.local = local;
                return Ok(());
            }
        }
        let pair = Pair {
            peer,
            remote,
            local,
        };
        Ok(self.pairs.push(pair)?)
    }

    /// Forgets the leg of a number at the exchange that is free.
    pub(crate) fn forget(&mut self, local: u16) {
        self.pairs.retain(|pair| pair.local != local);
    }
}
