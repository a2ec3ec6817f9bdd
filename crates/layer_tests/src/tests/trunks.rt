//! Media that waits for a trunk frame.
use crate::tests::same::{holds, same};
use iax_frames::CallNumber;
use std::process::Abort;
use trunk_packer::Packer;

// Queues an entry of the calls 3 and 1 each, and packs both into this frame.
fn packs_two(rt: &impl Abort, packer: &mut Packer, timed: bool, frame: &[u8]) {
    let first = packer.queue(CallNumber::new(3), 20, &[0xaa, 0xbb, 0xcc]);
    let second = packer.queue(CallNumber::new(1), 20, &[0xdd]);
    same(rt, &[first, second], &[Ok(()), Ok(())]);
    let (out, octets) = packer.pack(20, timed).expect(rt, "a frame");
    same(rt, &(out.octets(), octets), &(frame, 4));
    holds(rt, "no other frame", packer.pack(20, timed).is_none());
}

#[test]
fn trunked_media(rt: HostRuntime) {
    let mut packer = Packer::new(rt.alloc()).expect(&rt, "a packer");
    let timed = [
        0, 0, 1, 1, 0, 0, 0, 0x14, 0, 3, 0, 3, 0, 0x14, 0xaa, 0xbb, 0xcc, 0, 1, 0, 1, 0, 0x14, 0xdd,
    ];
    packs_two(&rt, &mut packer, true, &timed);
    let untimed = [
        0, 0, 1, 0, 0, 0, 0, 0x14, 0, 3, 0, 3, 0xaa, 0xbb, 0xcc, 0, 1, 0, 1, 0xdd,
    ];
    packs_two(&rt, &mut packer, false, &untimed);
}
