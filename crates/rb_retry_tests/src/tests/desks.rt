use crate::tests::devices::expect_same;
use crate::tests::fixtures::{expect, expect_set, kept, offer};
use rb_binary::BinaryTimer;
use rb_kept::Kept;
use rb_ledger::Tally;
use rb_queue::Ask;
use rb_retry::{Desk, DeskFault, KeptDesk};
use rb_timer::{ListTimer, Timer};
use std::alloc::Global;
use std::process::Abort;

// Makes calls at a desk and asserts their answers. A take or a timed poll is made at the desk's
// moment, whatever moment is handed in, and does not wait.
fn expect_calls<D: Desk>(rt: &impl Abort, desk: &mut D) {
    expect_same(rt, desk.now(), 0);
    offer(rt, desk, 3, 10);
    expect(rt, desk, 99, Ask::Take, Err(DeskFault::Stopped));
    expect_set(rt, desk, 10, Some(10));
    expect_set(rt, desk, 4, Some(10));
    expect(rt, desk, 0, Ask::Take, Ok(Some(0)));
    let (start, timeout) = (10, 1);
    expect(
        rt,
        desk,
        0,
        Ask::PollFor { start, timeout },
        Err(DeskFault::Stopped),
    );
    let timeout = 0;
    expect(rt, desk, 0, Ask::PollFor { start, timeout }, Ok(None));
    expect(rt, desk, 11, Ask::Size, Ok(Some(0)));
    expect(rt, desk, 12, Ask::Clear, Err(DeskFault::Full));
}

fn expect_history<T: Timer>(rt: &impl Abort, kept: &Kept<T>, tally: &Tally) {
    let moments = [(3, 3), (10, 10), (10, 10), (11, 11)];
    expect_same(rt, kept.history().len(), 4);
    for (event, moments) in kept.history().iter().zip(moments) {
        expect_same(rt, (event.asked, event.at), moments);
    }
    expect_same(rt, tally.calls(), 4);
}

fn run<T: Timer>(rt: &impl Abort, kept: &mut Kept<T>, tally: &mut Tally) {
    let mut desk = KeptDesk::new(kept, tally);
    expect_calls(rt, &mut desk);
}

fn expect_run<T: Timer>(rt: &impl Abort, alloc: Global) {
    let (mut kept, mut tally) = kept::<T>(rt, alloc, 4);
    run(rt, &mut kept, &mut tally);
    expect_history(rt, &kept, &tally);
}

#[test]
fn a_kept_desk_answers_at_once(rt: HostRuntime) {
    expect_run::<ListTimer>(&rt, rt.alloc());
    expect_run::<BinaryTimer>(&rt, rt.alloc());
}
