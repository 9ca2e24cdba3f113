ghost use Rattle.std.specs.Prelude.{◌≡◌, ◌≢◌, ◌+◌, ◌≤◌, ◌<◌, ◌⊎◌, [], ◌∷◌, ℕ, Some, IfOk, IfErr, OnErr};
ghost use mathlib.Core.List.{IsPrefix};
ghost use Rattle.rb_ledger.specs.Totals.{nothing};
ghost use Rattle.rb_queue.specs.Counts.{events_of, audit_of};
ghost use Rattle.rb_lock.specs.Parts.{all_parts};
ghost use Rattle.rb_lock.specs.Passes.{first_pass, split_from, with_parts, folded_with, all_records, tally_of, Learns};
ghost use Rattle.rb_kept.specs.Shares.{totals_of};
ghost use Rattle.rb_lock.specs.SharedCalls.{Answered};
ghost use Rattle.rb_lock.specs.ClosedQueues.{HasCallsOf, IsRefused, AreCounts};

use crate::fault::{CloseFault, OpenFault, SplitFault};
use crate::lock::{
    FREE, act, cut_note, give, give_and_draw, learn, next_name, put_back, take, take_out,
};
use crate::note::Note;
use crate::pair::{MOST_NAMES, Pair};
use crate::pass::Pass;
use crate::rule::LockRule;
use crate::steps::{Cut, Fold};
use crate::view::View;
use atomic_table::{Refused, Table};
use rb_kept::{CallFault, Kept, Outcome};
use rb_ledger::{Tally, Totals};
use rb_queue::{Ask, Audit};
use rb_timer::Timer;
use std::alloc::Global;
use std::fmt::{self, Debug, Formatter};
use std::marker::Model;
use std::snapshot::Snapshot;
use std::sync::Wait;

/// A kept queue that many threads call, each through a pass of its own.
///
/// The queue is in the one slot of a table, and the table's one word says whether it is at home. Each
/// taking and each giving back is one exchange of the word. Only the seat that took the queue touches
/// the slot.
#[derive(Drop)]
pub struct Shared<T: Timer> {
    table: Table<Option<Pair<T>>, View, Snapshot<Kept<T>>, LockRule, Global>,
}

impl<T: Timer> Model for Shared<T> {
    ghost use Rattle.atomic_table.specs.Seated.{TableId, table_id_coded};

    ghost Value = { TableId };

    ghost coded = { table_id_coded };

    ghost use Rattle.rb_lock.specs.LockSteps.{HasOneWord};

    ghost view = { λ shared. shared.table.shared.table_id };

    ghost invariant = { λ shared. HasOneWord shared.table.shared.table_id };
}

impl<T: Timer> Shared<T> {
    /// Shares a queue that has not been called yet, and returns its first pass, of name 0, which has all parts.
    ///
    /// It takes memory only for the lock. If there is not enough, the fault is `Memory`, and the queue and
    /// its share are handed back.
    pub fn open(
        alloc: Global,
        kept: Kept<T>,
        tally: Tally,
    ) -> Result<(Shared<T>, Pass<T>), (Kept<T>, Tally, OpenFault)>
        requires history { kept.history ≡ [] }
        requires tally { tally ≡ nothing }
        ensures pass { IfOk result (λ opened. opened.1 ≡ first_pass opened.0 kept) }
        ensures kept { IfErr result (λ refused. refused.0 ≡ kept) }
        ensures handed_back { IfErr result (λ refused. refused.1 ≡ tally) }
    {
        let mut kept = kept;
        // A page of the history that is first needed while one pass calls would keep all others waiting.
        kept.touch_room();
        let start = Snapshot::of(&kept);
        // For the proof: how long a history may be.
        let _ = kept.capacity();
        let Ok(mut slots) = Vec::with_capacity(alloc, 1) else {
            return Err((kept, tally, OpenFault::Memory));
        };
        slots.push_reserved(Some(Pair { kept, names: 1 }));
        match Table::new(alloc, &[FREE], slots, &start) {
            Ok((table, seat)) => {
                let pass = Pass {
                    seat,
                    name: 0,
                    tally,
                };
                Ok((Shared { table }, pass))
            }
            Err(Refused { slots }) => Err((only_kept(slots), tally, OpenFault::Memory)),
        }
    }

    /// Splits a new pass off, under the next name, which was never given before. It waits while another
    /// pass calls, and takes no memory.
    ///
    /// The new pass has seen what this one has, and has made no call. Its name is below 65,536, and none
    /// of those that this pass knew to be given; this pass now knows it to be given. The fault is `Names`,
    /// only if all 65,536 names are given.
    /// Either way this pass may have seen more of the history than before. Together they have the parts that it had.
    pub fn split<R: Wait>(&self, rt: &R, pass: &mut Pass<T>) -> Result<Pass<T>, SplitFault>
        requires pass { pass.old.table ≡ self.now }
        ensures learns { Learns (with_parts pass.old pass.new.parts) pass.new }
        ensures tried { pass.new.tried ≡ pass.old.tried + 1 }
        ensures mine { pass.new.mine ≡ pass.old.mine }
        ensures parts { IfOk result (λ child. pass.new.parts + child.parts ≡ pass.old.parts) }
        ensures whole { OnErr result (pass.new.parts ≡ pass.old.parts) }
        ensures child { IfOk result (λ child. child ≡ split_from pass.new child.name child.parts) }
        ensures unheard { IfOk result (λ child. events_of child.seen child.name ≡ []) }
        ensures later { IfOk result (λ child. pass.old.noted ≤ child.name) }
        ensures noted { IfOk result (λ child. child.name < pass.new.noted) }
        ensures few { IfOk result (λ child. child.name < MOST_NAMES) }
        ensures names { OnErr result (pass.new.noted ≡ MOST_NAMES) }
    {
        let table = &self.table.shared;
        take(table, rt, &mut pass.seat);
        let Some(name) = next_name(table, &mut pass.seat) else {
            give(table, &mut pass.seat);
            return Err(SplitFault::Names);
        };
        give_and_draw(table, &mut pass.seat);
        let seat = table.split_seat::<Cut>(&mut pass.seat);
        let tally = pass.tally.split();
        Ok(Pass { seat, name, tally })
    }

    /// Folds another pass, and all that were folded into it, into this one, which counts their calls, and has their
    /// parts, from now on. It does not wait.
    pub fn fold(&self, pass: &mut Pass<T>, other: Pass<T>)
        requires pass { pass.old.table ≡ self.now }
        requires other { other.table ≡ self.now }
        ensures { pass.new ≡ folded_with pass.old other }
    {
        let Pass {
            seat,
            name: _,
            tally,
        } = other;
        self.table.shared.join_seat::<Fold>(&mut pass.seat, seat);
        pass.tally.join(tally);
    }

    /// A note of what a pass has seen. It does not wait.
    pub fn note(&self, pass: &mut Pass<T>) -> Note<T>
        requires { pass.old.table ≡ self.now }
        ensures pass { pass.new ≡ pass.old }
        ensures note { result ≡ record { table = self.now; seen = pass.old.seen } }
    {
        let seat = cut_note(&self.table.shared, &mut pass.seat);
        Note { seat }
    }

    /// Lets a pass learn what a note tells. It does not wait.
    ///
    /// So a call that got its reply before its pass gave the note stands before each call that this pass makes from now on.
    pub fn hear(&self, pass: &mut Pass<T>, note: Note<T>)
        requires pass { pass.old.table ≡ self.now }
        requires note { note.table ≡ self.now }
        ensures learns { Learns pass.old pass.new }
        ensures tried { pass.new.tried ≡ pass.old.tried }
        ensures mine { pass.new.mine ≡ pass.old.mine }
        ensures heard { IsPrefix note.seen pass.new.seen }
        ensures which { (pass.new.seen ≡ pass.old.seen) ⊎ (pass.new.seen ≡ note.seen) }
    {
        learn(&self.table.shared, &mut pass.seat, note.seat);
    }

    /// Lets two passes learn what the other has seen. It does not wait.
    ///
    /// Afterwards both have seen the same history, which begins with what each had seen.
    pub fn meet(&self, first: &mut Pass<T>, second: &mut Pass<T>)
        requires first { first.old.table ≡ self.now }
        requires second { second.old.table ≡ self.now }
        ensures same { first.new.seen ≡ second.new.seen }
        ensures first { Learns first.old first.new }
        ensures first_tried { first.new.tried ≡ first.old.tried }
        ensures first_mine { first.new.mine ≡ first.old.mine }
        ensures second { Learns second.old second.new }
        ensures second_tried { second.new.tried ≡ second.old.tried }
        ensures second_mine { second.new.mine ≡ second.old.mine }
    {
        let note = self.note(first);
        self.hear(second, note);
        let note = self.note(second);
        self.hear(first, note);
    }

    /// Makes one call, like `Kept::act`, with the pass's name as seat. It waits while another pass
    /// calls.
    ///
    /// After a reply the pass has seen a legal history that begins with all that it had seen and
    /// ends with this call, and the reply is that of the history. Otherwise no event was made: after
    /// `Later` the pass has seen a history from which the ask would wait, and after `Full` one with
    /// `capacity` events. Only an offer and a drain are refused with `Memory`.
    pub fn call<R: Wait>(
        &self,
        rt: &R,
        pass: &mut Pass<T>,
        asked: u64,
        ask: Ask,
    ) -> Result<Outcome, CallFault>
        requires pass { pass.old.table ≡ self.now }
        ensures learns { Learns pass.old pass.new }
        ensures tried { pass.new.tried ≡ pass.old.tried + 1 }
        ensures answered { Answered pass.old pass.new
            (record { seat = pass.old.name; asked = asked; ask = ask }) result }
    {
        let table = &self.table.shared;
        take(table, rt, &mut pass.seat);
        let outcome = act(
            table,
            &mut pass.seat,
            &mut pass.tally,
            pass.name,
            asked,
            ask,
        );
        give(table, &mut pass.seat);
        outcome
    }

    /// Ends the sharing, if every pass with calls is this one or folded into it. It waits while
    /// another pass calls, and takes no memory.
    ///
    /// The history that comes back consists of the calls of these passes. The fault is `NotAll` if the
    /// pass's totals are not those of the whole history; it hands everything back. A pass with all parts is not
    /// refused: each one that was split off has been folded again.
    pub fn close<R: Wait>(
        self,
        rt: &R,
        pass: Pass<T>,
    ) -> Result<(Kept<T>, Tally, Audit), (Shared<T>, Pass<T>, CloseFault)>
        requires pass { pass.table ≡ self }
        ensures capacity { IfOk result (λ closed. closed.0.capacity ≡ pass.capacity) }
        ensures opening { IfOk result (λ closed. closed.0.opening ≡ pass.opening) }
        ensures holds { IfOk result (λ closed. HasCallsOf closed.0 (all_records pass)) }
        ensures tally { IfOk result (λ closed. closed.1 ≡ tally_of pass) }
        ensures totals { IfOk result (λ closed. closed.1 ≡ totals_of closed.0.history) }
        ensures audit { IfOk result (λ closed. closed.2 ≡ audit_of closed.0.opening closed.0.history) }
        ensures handed_back { IfErr result (λ refused. refused.0 ≡ self) }
        ensures learns { IfErr result (λ refused. Learns pass refused.1) }
        ensures tried { IfErr result (λ refused. refused.1.tried ≡ pass.tried + 1) }
        ensures mine { IfErr result (λ refused. refused.1.mine ≡ pass.mine) }
        ensures not_all { IfErr result (λ refused. IsRefused refused.1 refused.2) }
        ensures missing { OnErr result (pass.parts ≢ all_parts) }
    {
        let Pass {
            mut seat,
            name,
            tally,
        } = pass;
        let table = &self.table.shared;
        take(table, rt, &mut seat);
        let pair = take_out(table, &mut seat);
        let audit = pair.kept.audit();
        let booked = totals_in(audit);
        let counted = tally.totals();
        if counted == booked {
            return Ok((pair.kept, tally, audit));
        }
        put_back(table, &mut seat, pair);
        give(table, &mut seat);
        let pass = Pass { seat, name, tally };
        Err((self, pass, CloseFault::NotAll(counted, booked)))
    }
}

// What is in the lock can't be seen without taking the lock.
impl<T: Timer> Debug for Shared<T> {
    fn fmt<W: fmt::Write>(&self, f: &mut Formatter<W>) -> fmt::Result {
        f.debug_struct("Shared").finish_non_exhaustive()
    }
}

// The totals that an audit has.
fn totals_in(audit: Audit) -> Totals
    ensures totals { result ≡ record { calls = audit.calls; offered = audit.offered; given = audit.given } }
    ensures fits { AreCounts result }
{
    Totals {
        calls: audit.calls,
        offered: audit.offered,
        given: audit.given,
    }
}

// The kept queue of the one pair among these slots.
fn only_kept<T: Timer>(mut slots: Vec<Option<Pair<T>>>) -> Kept<T>
    requires { (pair : Pair T) × (slots.items ≡ Some pair ∷ []) }
    ensures { (names : ℕ) × (slots.items ≡ Some (record { kept = result; names = names }) ∷ []) }
{
    slots.pop().unwrap().unwrap().kept
}
