//! One module for each layer, and what they share.
mod book;
mod challenges;
mod held_frames;
mod ledger;
mod leg;
mod octets_read;
mod outboxes;
mod peer;
mod same;
mod trunks;
mod windows;
