//! Datagrams that wait to be sent.
use crate::tests::same::same;
use iax_frames::{CallNumber, FullHead, Out, write_full, write_trunk};
use outbox::{Losses, Outbox};
use std::process::Abort;

#[test]
fn a_datagram_waits(rt: HostRuntime) {
    let mut outbox = Outbox::new(rt.alloc()).expect(&rt, "an outbox");
    outbox.put(&write_trunk(20, true));
    let mut out = Out::default();
    let is_there = outbox.take_into(&mut out);
    let trunk: &[u8] = &[0, 0, 1, 1, 0, 0, 0, 0x14];
    same(&rt, &(is_there, out.octets()), &(true, trunk));
}

#[test]
fn a_full_outbox_counts_what_it_loses(rt: HostRuntime) {
    let mut outbox = Outbox::new(rt.alloc()).expect(&rt, "an outbox");
    for place in 0..257 {
        outbox.put_mini(CallNumber::new(256), place, &[7]);
    }
    outbox.put_mini(CallNumber::new(5), 0, &[7]);
    outbox.put(&write_trunk(20, true));
    outbox.put(&a_full_frame(&rt));
    let lost = Losses {
        full: 1,
        mini: 2,
        trunk: 1,
    };
    same(&rt, &outbox.lost(), &lost);
    // One that fits isn't lost, and the others stay counted.
    let mut out = Out::default();
    same(&rt, &outbox.take_into(&mut out), &true);
    outbox.put(&write_trunk(20, true));
    same(&rt, &(outbox.len(), outbox.lost()), &(256, lost));
}

// An ACK of a call.
fn a_full_frame(rt: &impl Abort) -> Out {
    let head = FullHead {
        source: CallNumber::new(1),
        retransmitted: false,
        destination: CallNumber::new(2),
        timestamp: 20,
        oseqno: 1,
        iseqno: 1,
        frame_type: 6,
        subclass: 4,
    };
    write_full(&head, &[]).expect(rt, "a frame without data")
}
