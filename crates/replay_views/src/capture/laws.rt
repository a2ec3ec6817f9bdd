//! The sums that a receiver of the written packets computes (RFC 791, RFC 768, RFC 1071).
ghost use Rattle.std.specs.Prelude.{◌≡◌, ℕ, ◌+◌, ◌++◌, length};
ghost use Rattle.replay_views.specs.InternetChecksum.{end_around, ones_complement, word_sum};
ghost use Rattle.replay_views.specs.Capture.{ipv4_header, pseudo_header, udp_datagram};
ghost use Rattle.replay_views.specs.declared.capture.packet.Packet.{Packet};

/// The one's complement sum of two sums is that of the two, added with the carry coming in at the lowest bit. A law about
/// definitions, for provers; the call does nothing.
pub fn sums_add_end_around()
    ensures { (sum other : ℕ) → ones_complement (sum + other) ≡ end_around (ones_complement sum) (ones_complement other) }
{}

/// The one's complement sum of an IPv4 header is 0xffff. A law about definitions, for provers; the call does nothing.
pub fn ipv4_headers_sum_to_ones()
    ensures { (source destination octets : ℕ) → ones_complement (word_sum (ipv4_header source destination octets)) ≡ 0xffff }
{}

/// The one's complement sum of a pseudo header, a UDP header and its data is 0xffff. A law about definitions, for provers; the
/// call does nothing.
pub fn udp_datagrams_sum_to_ones()
    ensures { (packet : Packet) → ones_complement (word_sum
        (pseudo_header packet.from.address packet.to.address (8 + length packet.payload.now) ++ udp_datagram packet)) ≡ 0xffff }
{}
