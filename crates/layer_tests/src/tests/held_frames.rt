//! Frames that wait for their acknowledgement.
use crate::tests::same::same;
use iax_frames::{Frame, Payload};
use resend_queue::{Held, Resend};

fn held(number: u8) -> Held {
    Held {
        number,
        frame: Frame {
            ts: 0,
            kind: 6,
            subclass: 4,
            payload: Payload::empty(),
        },
        last: 0,
        tries: 0,
    }
}

#[test]
fn no_place_for_a_second(rt: HostRuntime) {
    let mut queue = Resend::new(rt.alloc(), 1).expect(&rt, "a queue");
    let pushed = [queue.push(held(7)).is_ok(), queue.push(held(8)).is_ok()];
    same(&rt, &pushed, &[true, false]);
    same(&rt, &queue.due(1000, 1000), &Some(0));
}
