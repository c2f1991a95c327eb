use crate::{Bus, CpuNo, CpuState, Request};
use std::test::Fail;

const A: CpuNo = CpuNo(0);

const B: CpuNo = CpuNo(1);

const C: CpuNo = CpuNo(2);

const NONE: CpuNo = CpuNo(3);

#[test]
fn states_and_requests(rt: HostRuntime) -> Result<(), Fail> {
    let mut bus = Bus::new(rt.alloc(), 3)?;
    assert_eq!(rt; bus.cpus(), 3);
    assert_eq!(rt; bus.state(A), CpuState::Operating);
    assert_eq!(rt; bus.state(B), CpuState::Stopped);
    assert_eq!(rt; bus.state(NONE), CpuState::CheckStop);

    bus.signal(A, B, 4);
    assert_eq!(rt; bus.state(B), CpuState::Operating);
    bus.signal(A, B, 5);
    assert_eq!(rt; bus.state(B), CpuState::Stopped);
    bus.signal(A, B, 6);
    assert!(rt; bus.restart_pending(B));
    bus.restart_taken(B);
    assert!(rt; !bus.restart_pending(B));
    assert_eq!(rt; bus.state(B), CpuState::Operating);
    Ok(())
}

#[test]
fn requests_with_their_senders(rt: HostRuntime) -> Result<(), Fail> {
    let mut bus = Bus::new(rt.alloc(), 3)?;
    bus.key(A);
    bus.signal(B, A, 3);
    bus.signal(C, A, 2);
    bus.check_stop(C);
    bus.signal(NONE, A, 3);
    bus.signal(A, NONE, 3);
    bus.key(NONE);
    for (r, is_there) in [
        (Request::Key, true),
        (Request::Malfunction(C), true),
        (Request::Malfunction(B), false),
        (Request::Emergency(B), true),
        (Request::Emergency(NONE), false),
        (Request::ExternalCall(C), true),
        (Request::ExternalCall(B), false),
        (Request::Comparator, false),
        (Request::Timer, false),
    ] {
        assert_eq!(rt; bus.pending(A, r), is_there, "{r:?}");
        bus.clear(A, r);
        assert!(rt; !bus.pending(A, r));
        assert!(rt; !bus.pending(NONE, r));
    }
    assert!(rt; bus.pending(B, Request::Malfunction(C)));
    assert!(rt; !bus.pending(C, Request::Malfunction(C)));
    assert_eq!(rt; bus.state(C), CpuState::CheckStop);
    Ok(())
}

#[test]
fn answers_to_orders(rt: HostRuntime) -> Result<(), Fail> {
    let mut bus = Bus::new(rt.alloc(), 3)?;
    bus.signal(A, B, 2);
    bus.check_stop(C);
    for (to, order, code, status) in [
        (3, 1, 3, 0),
        (0xFFFF, 7, 3, 0),
        (0, 0, 1, 0x02),
        (2, 7, 1, 0x02),
        (0, 1, 0, 0),
        (1, 1, 1, 0xC0),
        (2, 1, 1, 0x10),
        (2, 4, 1, 0x10),
        (1, 2, 1, 0x80),
        (1, 3, 0, 0),
        (0, 2, 0, 0),
        (1, 6, 0, 0),
    ] {
        let answer = bus.answer(to, order);
        assert_eq!(rt; answer.cc, code, "order {order} to {to}");
        assert_eq!(rt; answer.status, status, "order {order} to {to}");
        assert_eq!(rt; answer.accepted, code == 0, "order {order} to {to}");
    }
    Ok(())
}

/// Two CPUs at the start: a sense of the stopped one stores its state, a start of one that is not
/// there answers code 3, and order 9 is invalid.
#[test]
fn a_stopped_cpu_an_absent_cpu_and_an_invalid_order(rt: HostRuntime) -> Result<(), Fail> {
    let bus = Bus::new(rt.alloc(), 2)?;
    let sensed = bus.answer(1, 1);
    assert_eq!(rt; sensed.cc, 1);
    assert_eq!(rt; sensed.status, 0x0000_0040);
    let absent = bus.answer(2, 4);
    assert_eq!(rt; absent.cc, 3);
    let invalid = bus.answer(1, 9);
    assert_eq!(rt; invalid.cc, 1);
    assert_eq!(rt; invalid.status, 0x0000_0002);
    Ok(())
}
