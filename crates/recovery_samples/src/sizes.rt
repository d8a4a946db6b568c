// How much room a line of the journal takes.
use recovery_model::Event;
use std::mem::size_of;
use std::test::*;

#[test]
fn an_event_takes_under_200_bytes(rt: HostRuntime) {
    assert!(rt; size_of::<Event>() < 200);
}
