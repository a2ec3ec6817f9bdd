//! The places of the lifelines: the exchange is between its peers.
use crate::ladder::row::Row;
use std::alloc::Global;

/// A peer: its name, and its call numbers at the exchange.
#[derive(Drop)]
pub(crate) struct Peer {
    pub name: String,
    pub first: u16,
    pub count: u16,
}

impl Peer {
    /// Returns whether a number is one of its call numbers.
    pub(crate) fn has(&self, number: u16) -> bool {
        number >= self.first && u32::from(number) < u32::from(self.first) + u32::from(self.count)
    }
}

/// The side of the exchange on which a peer is drawn.
#[derive(Clone, Copy)]
pub(crate) enum Side {
    Left,
    Right,
}

/// The peers that are shown, in the order of the plan: the first half left of the exchange, the others right of it.
#[derive(Drop)]
pub(crate) struct Sides {
    shown: Vec<u16>,
    /// Whether a request for memory was refused, so that some are missing.
    pub are_cut: bool,
}

// Returns whether a shown row belongs to this peer.
fn is_seen(rows: &[Row], peer: u16, leg: Option<u16>) -> bool {
    for row in rows {
        if row.peer == Some(peer) && row.is_shown(leg) {
            return true;
        }
    }
    false
}

impl Sides {
    /// Returns the sides of the peers to which shown rows belong.
    pub(crate) fn of(alloc: Global, rows: &[Row], peer_count: usize, leg: Option<u16>) -> Sides {
        let mut shown = Vec::new(alloc);
        let mut are_cut = false;
        for place in 0..peer_count {
            if let Ok(peer) = u16::try_from(place) {
                if is_seen(rows, peer, leg) && shown.push(peer).is_err() {
                    are_cut = true;
                }
            }
        }
        Sides { shown, are_cut }
    }

    /// Returns the shown peers, from left to right.
    pub(crate) fn peers(&self) -> &[u16] {
        &self.shown
    }

    /// Returns the number of peers left of the exchange: one more than right of it if their count is odd.
    pub(crate) fn left_count(&self) -> usize {
        self.shown.len() - self.shown.len() / 2
    }

    /// Returns the place of a peer among them.
    pub(crate) fn place(&self, peer: Option<u16>) -> Option<usize> {
        let peer = peer?;
        for (place, other) in self.shown.iter().enumerate() {
            if *other == peer {
                return Some(place);
            }
        }
        None
    }

    /// Returns the side on which a peer is drawn.
    pub(crate) fn side(&self, peer: Option<u16>) -> Option<Side> {
        let place = self.place(peer)?;
        if place < self.left_count() {
            Some(Side::Left)
        } else {
            Some(Side::Right)
        }
    }
}
