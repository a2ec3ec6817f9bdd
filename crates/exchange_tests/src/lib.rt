//! Tests of an exchange: growths that are refused, a storm of datagrams, two workers at once, and its calls next to a driver
//! that makes their steps without locks. The tests of the workers over wires and sockets are in `wires`.
#![tactic(auto)]

#[cfg(test)]
mod tests;
