//! A peer and its book. Any one of their requests for memory may be refused.
//!
//! The test passes whichever request is refused, and if none is. A refused call changes nothing, and the same call then has
//! the result that it would have had. `.ci/refusals` refuses the requests one at a time.
use crate::frames::NEW_300;
use crate::tests::leg::Wish;
use crate::tests::peer::credits::{Case, plays};
use crate::tests::peer::steps::Step;
use crate::tests::same::holds;
use leg_machine::{Judged, Stage};

/// A whole call of the peer. It is accepted and answered; a digit and media come; the same digit is sent, and an octet of
/// media, for which there is credit.
static WHOLE_CALL: Case<'static> = Case {
    name: "whole call",
    steps: &[
        Step::Opens(NEW_300),
        Step::Order(0, Wish::Accept),
        Step::Says("800100070000000000010607090400000004"),
        Step::Comes(10, "800700010000000001010604", Judged::Unnumbered),
        Step::Order(20, Wish::Answer),
        Step::Says("800100070000001401010404"),
        Step::Stage(Stage::Up),
        Step::Comes(32, "800700010000002001020135", Judged::Taken),
        Step::Says("800100070000002002020604"),
        Step::Comes(40, "800700010000002802020204ff", Judged::Taken),
        Step::Says("800100070000002802030604"),
        Step::Media(50, "00070032aabb", Some((4, 6))),
        Step::Octets(3),
        Step::Order(60, Wish::Digit),
        Step::Says("800100070000003c02030135"),
        // The credit for three octets is used for a voice frame of one octet, and two stay.
        Step::Order(70, Wish::Media),
        Step::Says("800100070000004603030204aa"),
        Step::Octets(2),
        Step::Tick(80, true),
        Step::Says(""),
    ],
};

#[test]
fn any_growth_of_a_peer_refused(rt: HostRuntime) {
    if !plays(&rt, rt.alloc(), &WHOLE_CALL) {
        let played = plays(&rt, rt.alloc(), &WHOLE_CALL);
        holds(&rt, "a peer", played);
    }
}
