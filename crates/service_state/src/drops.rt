//! The datagrams that the system dropped at the sockets of an endpoint, from its table of UDP sockets.

// Returns the drops of a line's socket, if it has this local address.
fn drops_in(line: &str, local: &str) -> Option<u64> {
    let mut words = line.split_ascii_whitespace();
    let _slot = words.next()?;
    if words.next()? != local {
        return None;
    }
    words.last()?.parse::<u64>().ok()
}

/// Returns the drops of all sockets with this local address together, modulo 2^64, or `None` if the table has no such
/// socket. The table has the form of `/proc/net/udp`: a line of headings, and a line for each socket. The second word of a
/// line is the local address, and the last word the number of dropped datagrams. The address has the table's form, as
/// `0100007F:11D9`.
pub fn drops_of(table: &str, local: &str) -> Option<u64> {
    let mut sum: Option<u64> = None;
    for line in table.lines() {
        if let Some(drops) = drops_in(line, local) {
            sum = Some(sum.unwrap_or(0).wrapping_add(drops));
        }
    }
    sum
}
