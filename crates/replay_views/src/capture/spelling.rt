//! The octets of a packet.
ghost use Rattle.std.specs.Prelude.{◌≡◌, ◌+◌, ◌≤◌, ◌<◌, ◌^◌, ◌++◌, length, IfOk, OnOk};
ghost use Rattle.std.specs.List.{flat_map};
ghost use Rattle.replay_views.specs.Capture.{record_header, ipv4_front, ipv4_header_with, ipv4_header, pseudo_header};
ghost use Rattle.replay_views.specs.Capture.{udp_with, udp_summed, sent_checksum, udp_checksum, udp_datagram, packet_octets};

use crate::capture::internet_checksum::checksum;
use crate::capture::packet::Packet;
use std::alloc::{AllocError, Global};

// Adds pieces, one behind the other.
fn push_pieces(octets: &mut Vec<u8>, pieces: &[&[u8]]) -> Result<(), AllocError>
    ensures { OnOk result (octets.new.items ≡ octets.old.items ++ flat_map (λ piece. piece.now) pieces.now) }
{
    for piece in pieces {
        octets.extend_from_slice(piece)?;
    }
    Ok(())
}

// Adds the head of a packet of `count` octets.
fn push_record_header(octets: &mut Vec<u8>, moment: u64, count: u32) -> Result<(), AllocError>
    ensures { OnOk result (octets.new.items ≡ octets.old.items ++ record_header moment count) }
{
    let seconds = (moment / 1000 % 4294967296) as u32;
    let micros = (moment % 1000 * 1000) as u32;
    let (seconds, micros, count) = (
        seconds.to_be_bytes(),
        micros.to_be_bytes(),
        count.to_be_bytes(),
    );
    push_pieces(octets, &[&seconds, &micros, &count, &count])
}

// Adds the IPv4 header of a datagram of `count` octets, up to the checksum.
fn push_ipv4_front(octets: &mut Vec<u8>, count: u16) -> Result<(), AllocError>
    requires { 20 + count < 2 ^ 16 }
    ensures { OnOk result (octets.new.items ≡ octets.old.items ++ ipv4_front count) }
{
    let count = (20 + count).to_be_bytes();
    push_pieces(octets, &[&[0x45, 0], &count, &[0, 0, 0x40, 0, 64, 17]])
}

// Adds the IPv4 header of a packet, with this checksum.
fn push_ipv4_with(octets: &mut Vec<u8>, sum: u16, packet: &Packet<'_>) -> Result<(), AllocError>
    requires { length packet.now.payload.now ≤ 65507 }
    ensures { OnOk result (octets.new.items ≡ octets.old.items
        ++ ipv4_header_with sum packet.now.from.address packet.now.to.address (8 + length packet.now.payload.now)) }
{
    push_ipv4_front(octets, 8 + packet.payload.len() as u16)?;
    let (source, destination) = (packet.from.address, packet.to.address);
    let (sum, source, destination) = (
        sum.to_be_bytes(),
        source.to_be_bytes(),
        destination.to_be_bytes(),
    );
    push_pieces(octets, &[&sum, &source, &destination])
}

// Returns the checksum of that header.
fn ipv4_checksum(alloc: Global, packet: &Packet<'_>) -> Result<u16, AllocError>
    requires { length packet.now.payload.now ≤ 65507 }
    ensures { IfOk result (λ sum.
        ipv4_header_with sum packet.now.from.address packet.now.to.address (8 + length packet.now.payload.now)
        ≡ ipv4_header packet.now.from.address packet.now.to.address (8 + length packet.now.payload.now)) }
{
    let mut header = Vec::new(alloc);
    push_ipv4_with(&mut header, 0, packet)?;
    Ok(checksum(header.as_slice()))
}

// Adds the UDP header, with this checksum, and the data.
fn push_udp_with(octets: &mut Vec<u8>, sum: u16, packet: &Packet<'_>) -> Result<(), AllocError>
    requires { length packet.now.payload.now ≤ 65507 }
    ensures { OnOk result (octets.new.items ≡ octets.old.items
        ++ udp_with sum packet.now.from.port packet.now.to.port packet.now.payload.now) }
{
    let count = 8 + packet.payload.len() as u16;
    let (from, to) = (packet.from.port.to_be_bytes(), packet.to.port.to_be_bytes());
    let (count, sum) = (count.to_be_bytes(), sum.to_be_bytes());
    push_pieces(octets, &[&from, &to, &count, &sum, packet.payload])
}

// Adds the pseudo header of a packet.
fn push_pseudo_header(octets: &mut Vec<u8>, packet: &Packet<'_>) -> Result<(), AllocError>
    requires { length packet.now.payload.now ≤ 65507 }
    ensures { OnOk result (octets.new.items ≡ octets.old.items
        ++ pseudo_header packet.now.from.address packet.now.to.address (8 + length packet.now.payload.now)) }
{
    let count = 8 + packet.payload.len() as u16;
    let (source, destination) = (packet.from.address, packet.to.address);
    let (source, destination) = (source.to_be_bytes(), destination.to_be_bytes());
    push_pieces(
        octets,
        &[&source, &destination, &[0, 17], &count.to_be_bytes()],
    )
}

// Returns all octets that a packet's UDP checksum covers.
fn summed(alloc: Global, packet: &Packet<'_>) -> Result<Vec<u8>, AllocError>
    requires { length packet.now.payload.now ≤ 65507 }
    ensures { IfOk result (λ octets. octets.items ≡ udp_summed 0 packet.now) }
{
    let mut octets = Vec::new(alloc);
    push_pseudo_header(&mut octets, packet)?;
    push_udp_with(&mut octets, 0, packet)?;
    Ok(octets)
}

// Returns a checksum as it is sent.
fn sent(sum: u16) -> u16
    ensures { result ≡ sent_checksum sum }
{
    if sum == 0 { 65535 } else { sum }
}

// Returns the checksum of a packet's UDP header and data.
fn udp_checksum(alloc: Global, packet: &Packet<'_>) -> Result<u16, AllocError>
    requires { length packet.now.payload.now ≤ 65507 }
    ensures { IfOk result (λ sum. sum ≡ udp_checksum packet.now) }
{
    let octets = summed(alloc, packet)?;
    Ok(sent(checksum(octets.as_slice())))
}

// Adds the IPv4 header of a packet.
fn push_ipv4(octets: &mut Vec<u8>, alloc: Global, packet: &Packet<'_>) -> Result<(), AllocError>
    requires { length packet.now.payload.now ≤ 65507 }
    ensures { OnOk result (octets.new.items ≡ octets.old.items
        ++ ipv4_header packet.now.from.address packet.now.to.address (8 + length packet.now.payload.now)) }
{
    let sum = ipv4_checksum(alloc, packet)?;
    push_ipv4_with(octets, sum, packet)
}

// Adds the UDP header of a packet, and its data.
fn push_udp(octets: &mut Vec<u8>, alloc: Global, packet: &Packet<'_>) -> Result<(), AllocError>
    requires { length packet.now.payload.now ≤ 65507 }
    ensures { OnOk result (octets.new.items ≡ octets.old.items ++ udp_datagram packet.now) }
{
    let sum = udp_checksum(alloc, packet)?;
    push_udp_with(octets, sum, packet)
}

/// Returns the octets of a packet in the file.
pub(crate) fn packet_octets(alloc: Global, packet: &Packet<'_>) -> Result<Vec<u8>, AllocError>
    requires { length packet.now.payload.now ≤ 65507 }
    ensures { IfOk result (λ octets. octets.items ≡ packet_octets packet.now) }
{
    let mut octets = Vec::new(alloc);
    let count = packet.payload.len() as u16;
    push_record_header(&mut octets, packet.moment, 28 + u32::from(count))?;
    push_ipv4(&mut octets, alloc, packet)?;
    push_udp(&mut octets, alloc, packet)?;
    Ok(octets)
}
