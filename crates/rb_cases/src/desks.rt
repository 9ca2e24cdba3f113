//! The desks at which a table of jobs is run.

ghost use Rattle.std.specs.Prelude.{◌≡◌};

use crate::finding::Finding;
use crate::fixed_clock::FixedClock;
use crate::flaw::Flaw;
use crate::job_subject::JobSubject;
use crate::numbers::number;
use crate::table::Table;
use crate::tables::run_rows;
use rb_binary::BinaryTimer;
use rb_blocking::{Bell, TurnGate};
use rb_kept::Kept;
use rb_lock::{Pass, Shared};
use rb_retry::{Desk, KeptDesk};
use rb_shared_desk::SharedDesk;
use rb_timer::{ListTimer, Timer};
use std::alloc::Global;
use std::sync::Wait;
use std::time;

// What the set-up says.
#[derive(Clone, Copy)]
struct SetUp {
    capacity: u64,
    clock: u64,
    is_kept: bool,
}

/// Runs a table at the desks.
pub fn run_desks<R: Wait + time::Clock>(
    rt: &R,
    alloc: Global,
    table: &Table<'_>,
    found: &mut Finding,
) -> Result<(), Flaw> {
    let set_up = set_up_of(table, found)?;
    over_kept::<ListTimer>(alloc, table, set_up, "kept, over list, ", found)?;
    over_kept::<BinaryTimer>(alloc, table, set_up, "kept, over heap, ", found)?;
    if set_up.is_kept {
        return Ok(());
    }
    over_shared(rt, alloc, table, set_up, found)
}

fn set_up_of(table: &Table<'_>, found: &mut Finding) -> Result<SetUp, Flaw> {
    let mut set_up = SetUp {
        capacity: 100,
        clock: 0,
        is_kept: false,
    };
    for line in table.set_up {
        found.line = line.number;
        match line.cut() {
            ("capacity", count) => set_up.capacity = number(count)? as u64,
            ("clock", moment) => set_up.clock = number(moment)? as u64,
            ("desk", "kept") => set_up.is_kept = true,
            _ => return Err(Flaw::SetUp),
        }
    }
    found.line = table.line;
    Ok(set_up)
}

fn over_kept<T: Timer>(
    alloc: Global,
    table: &Table<'_>,
    set_up: SetUp,
    place: &str,
    found: &mut Finding,
) -> Result<(), Flaw> {
    found.begin(table.line, place)?;
    match Kept::<T>::new(alloc, set_up.capacity) {
        Ok((mut kept, mut tally)) => {
            let mut desk = KeptDesk::new(&mut kept, &mut tally);
            let _ = desk.set(set_up.clock);
            at_desk(alloc, desk, table, found)
        }
        Err(_) => Err(Flaw::Capacity),
    }
}

fn over_shared<R: Wait + time::Clock>(
    rt: &R,
    alloc: Global,
    table: &Table<'_>,
    set_up: SetUp,
    found: &mut Finding,
) -> Result<(), Flaw> {
    found.begin(table.line, "shared, ")?;
    let Ok((kept, tally)) = Kept::<ListTimer>::new(alloc, set_up.capacity) else {
        return Err(Flaw::Capacity);
    };
    match Shared::open(alloc, kept, tally) {
        Ok((shared, mut pass)) => with_pass(rt, alloc, &shared, &mut pass, table, set_up, found),
        Err(_) => Err(Flaw::Memory),
    }
}

fn with_pass<R: Wait + time::Clock>(
    rt: &R,
    alloc: Global,
    shared: &Shared<ListTimer>,
    pass: &mut Pass<ListTimer>,
    table: &Table<'_>,
    set_up: SetUp,
    found: &mut Finding,
) -> Result<(), Flaw>
    requires pass { pass.old.table ≡ shared.now }
{
    let (clock, bell, mut gate) = (FixedClock(set_up.clock), Bell::new(), TurnGate { limit: 0 });
    let desk = SharedDesk::new(rt, shared, pass, &clock, &mut gate, &bell);
    at_desk(alloc, desk, table, found)
}

fn at_desk<D: Desk + Drop>(
    alloc: Global,
    desk: D,
    table: &Table<'_>,
    found: &mut Finding,
) -> Result<(), Flaw> {
    let mut subject = JobSubject::new(alloc, desk);
    run_rows(alloc, &mut subject, table, found)
}
