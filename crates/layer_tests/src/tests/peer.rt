//! Tests of one peer: datagrams come, legs are opened, ticks are made, and the outbox is emptied.

mod credits;
mod desk;
mod refused_memory;
mod steps;
