//! The tests, and what they share.
mod arrivals;
mod datagrams;
mod desk;
mod drains;
mod growths;
mod legs;
mod losses;
mod opened;
mod pairs;
mod recovery;
mod same;
mod steps_by_hand;
mod storm;
mod two_peers;
mod wires;
mod workers;
