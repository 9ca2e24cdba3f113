ghost use Rattle.std.specs.Prelude.{◌≡◌, ◌+◌, ◌-◌, ◌<◌, ◌≤◌, ◌∷◌, ◌++◌, [], List, None, Some, length, map, drop, insert, remove, slice_get, IfOk, IsTrue, MatchOption, MatchResult, ◌↔◌};
ghost use Rattle.rb_delayed.specs.declared.element.Element.{Element};
ghost use Rattle.rb_session.specs.Held.{place_of, AreGiven};
ghost use Rattle.rb_session.specs.JobMap.{present};

use crate::job_map::{find, put, put_all, take};
use indexmap::IndexMap;
use rb_queue::{Ask, Reply};
use rb_retry::{Desk, DeskFault, Job, drain};
use std::alloc::{AllocError, Global};
use std::marker::Model;

/// The greatest number of jobs that a session holds.
pub const MOST_HELD: usize = 64;

/// How many entries there may be: as many as jobs may be held, and as many of jobs that ended.
pub(crate) const MOST_ENTRIES: usize = 2 * MOST_HELD;

/// The jobs that a session holds, by id, in the order of their fetches, at most 64. Contracts see the elements.
///
/// The room for all of them is taken at once, so no fetch can want memory for its job.
///
/// A map gives the room of an entry back only where at least half of the entries go. So a job that ends leaves its
/// entry, empty, behind those of the others, until there are as many empty ones as others.
#[derive(Drop)]
pub(crate) struct HeldJobs {
    jobs: IndexMap<u64, Option<Job>>,
    // How many jobs there are. Behind their entries come empty ones.
    count: usize,
    // Empty between calls, with room for all jobs.
    aside: Vec<Job>,
}

impl Model for HeldJobs {
    ghost use Rattle.std.specs.Prelude.{◌≡◌, ◌≤◌, List, [], vec_capacity};
    ghost use Rattle.rb_delayed.specs.declared.element.Element.{Element};
    ghost use Rattle.std.specs.Coded.{coded_list};
    ghost use Rattle.rb_delayed.specs.contracts.element.Element.{the_row};
    ghost use Rattle.rb_session.specs.JobMap.{held_in, AreFiled};
    ghost use Rattle.rb_session.specs.declared.held_jobs.TheConstants.{MOST_HELD};

    ghost Value = { List Element };

    ghost coded = { coded_list the_row.coded };

    ghost view = { λ held. held_in held.jobs.entries held.count };

    ghost invariant = { λ held. AreFiled held.jobs held.count × (held.count ≤ MOST_HELD)
        × (held.aside.items ≡ []) × (MOST_HELD ≤ vec_capacity held.aside) };
}

impl HeldJobs {
    /// No job, with room for 64.
    pub(crate) fn new(alloc: Global) -> Result<Self, AllocError>
        ensures { IfOk result (λ held. held ≡ []) }
    {
        let jobs = IndexMap::with_capacity(alloc, MOST_ENTRIES)?;
        let aside = Vec::with_capacity(alloc, MOST_HELD)?;
        Ok(HeldJobs {
            jobs,
            count: 0,
            aside,
        })
    }

    /// Whether no job is held.
    pub(crate) fn is_empty(&self) -> bool
        ensures { IsTrue result ↔ (length self.now ≡ 0) }
    {
        self.count == 0
    }

    /// How many more may be held.
    pub(crate) fn free(&self) -> usize
        ensures free { result ≡ MOST_HELD - length self.now }
        ensures few { length self.now ≤ MOST_HELD }
    {
        MOST_HELD - self.count
    }

    /// The last `count` jobs that were fetched, in their order, or all if there are fewer.
    pub(crate) fn last(&self, count: usize) -> &[Option<Job>]
        ensures { result.now ≡ map Some (drop (length self.now - count) self.now) }
    {
        let first = self.count.saturating_sub(count);
        &self.jobs.values().as_slice()[first..self.count]
    }

    /// The place of the job of this id, if it is held.
    pub(crate) fn place_of(&self, id: u64) -> Option<usize>
        ensures { result ≡ place_of self.now id }
    {
        match find(&self.jobs, id) {
            Some(place) if place < self.count => Some(place),
            _ => None,
        }
    }

    /// Holds a job after the others. Its id is not held.
    #[inline(always)]
    pub(crate) fn hold(&mut self, job: Job)
        requires few { length self.old < MOST_HELD }
        requires new { place_of self.old job.id ≡ None }
        ensures { self.new ≡ self.old ++ job ∷ [] }
    {
        put(&mut self.jobs, self.count, self.count, job);
        self.count += 1;
    }

    /// Takes out the job at this place.
    #[inline(always)]
    pub(crate) fn take_out(&mut self, place: usize) -> Job
        requires { place < length self.old }
        ensures job { slice_get self.old place ≡ Some result }
        ensures rest { self.new ≡ remove self.old place }
        ensures few { length self.new < MOST_HELD }
        ensures gone { place_of self.new result.id ≡ None }
    {
        let job = take(&mut self.jobs, self.count, place);
        self.count -= 1;
        job
    }

    /// Puts a job back to the place from which it was taken out.
    pub(crate) fn put_back(&mut self, place: usize, job: Job)
        requires within { place ≤ length self.old }
        requires few { length self.old < MOST_HELD }
        requires new { place_of self.old job.id ≡ None }
        ensures { self.new ≡ insert self.old place job }
    {
        put(&mut self.jobs, self.count, place, job);
        self.count += 1;
    }

    /// Fetches at most `max` expired elements, and holds them after the others.
    pub(crate) fn drain<D: Desk>(
        &mut self,
        desk: &mut D,
        asked: u64,
        max: u64,
    ) -> Result<(), DeskFault>
        requires few { length self.old + max ≤ MOST_HELD }
        requires given { AreGiven (D.mine (D.state desk.old)) self.old }
        ensures { MatchResult result
            (λ _. (items : List Element) × (self.new ≡ self.old ++ items)
            × D.Steps (D.state desk.old) asked (Ask.Drain max) (Ok (Reply.Drained items)) (D.state desk.new))
            (λ fault. (self.new ≡ self.old)
            × D.Steps (D.state desk.old) asked (Ask.Drain max) (Err fault) (D.state desk.new)) }
    {
        drain(desk, asked, max, &mut self.aside)?;
        self.count = put_all(&mut self.jobs, self.count, &mut self.aside);
        Ok(())
    }

    /// Takes out the job that was fetched before the others, if one is held.
    pub(crate) fn take_first(&mut self) -> Option<Job>
        ensures { MatchOption result ((self.old ≡ []) × (self.new ≡ [])) (λ job. self.old ≡ job ∷ self.new) }
    {
        if self.is_empty() {
            return None;
        }
        Some(self.take_out(0))
    }
}
