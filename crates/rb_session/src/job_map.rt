ghost use Rattle.std.specs.Prelude.{◌≡◌, ◌+◌, ◌-◌, ◌<◌, ◌≤◌, ◌∷◌, ◌++◌, [], None, Some, length, take, insert, remove, get_or, slice_get, nat_eq, vec_len, vec_capacity};
ghost use Rattle.std.specs.Map.{remove_entry};
ghost use Rattle.indexmap.specs.IndexMap.{index_map_len, index_of, keys, move_index, spare, IsUnique};
ghost use Rattle.rb_session.specs.Held.{place_of, AreNew};
ghost use Rattle.rb_session.specs.JobMap.{filed, held_in, AreFiled};
ghost use Rattle.rb_session.specs.declared.held_jobs.TheConstants.{MOST_HELD, MOST_ENTRIES};

use indexmap::IndexMap;
use rb_retry::Job;

/// Puts a job at a place among the first `count` entries, or behind them. Its id is not held.
#[inline(always)]
pub(crate) fn put(jobs: &mut IndexMap<u64, Option<Job>>, count: usize, place: usize, job: Job)
    requires filed { AreFiled jobs.old count }
    requires few { count < MOST_HELD }
    requires within { place ≤ count }
    requires new { place_of (held_in jobs.old.entries count) job.id ≡ None }
    ensures filed { AreFiled jobs.new (count + 1) }
    ensures held { held_in jobs.new.entries (count + 1) ≡ insert (held_in jobs.old.entries count) place job }
{
    let at = file(jobs, count, job);
    move_entry(jobs, at, place);
}

/// Puts all these jobs behind the first `count` entries, in their order, and returns how many there are then.
pub(crate) fn put_all(
    jobs: &mut IndexMap<u64, Option<Job>>,
    count: usize,
    fetched: &mut Vec<Job>,
) -> usize
    requires filed { AreFiled jobs.old count }
    requires few { count + vec_len fetched.old ≤ MOST_HELD }
    requires new { AreNew (held_in jobs.old.entries count) fetched.old.items }
    ensures filed { AreFiled jobs.new result }
    ensures few { result ≤ MOST_HELD }
    ensures held { held_in jobs.new.entries result ≡ held_in jobs.old.entries count ++ fetched.old.items }
    ensures empty { fetched.new.items ≡ [] }
    ensures capacity { vec_capacity fetched.new ≡ vec_capacity fetched.old }
{
    let mut count = count;
    fetched.reverse();
    while let Some(job) = fetched.pop() {
        put(jobs, count, count, job);
        count += 1;
    }
    count
}

/// Takes the job at a place out of the first `count` entries. Its entry is empty then, and comes behind those of the
/// others.
#[inline(always)]
pub(crate) fn take(jobs: &mut IndexMap<u64, Option<Job>>, count: usize, place: usize) -> Job
    requires filed { AreFiled jobs.old count }
    requires within { place < count }
    ensures filed { AreFiled jobs.new (count - 1) }
    ensures job { slice_get (held_in jobs.old.entries count) place ≡ Some result }
    ensures held { held_in jobs.new.entries (count - 1) ≡ remove (held_in jobs.old.entries count) place }
    ensures gone { place_of (held_in jobs.new.entries (count - 1)) result.id ≡ None }
{
    let last = count - 1;
    move_entry(jobs, place, last);
    let job = jobs[last].take().unwrap();
    drop_ended(jobs, last);
    job
}

/// The index of the entry of this id. That of the first is found with no lookup.
#[inline(always)]
pub(crate) fn find(jobs: &IndexMap<u64, Option<Job>>, id: u64) -> Option<usize>
    ensures { result ≡ index_of nat_eq jobs.now id }
{
    match jobs.first() {
        Some((first, _)) if *first == id => Some(0),
        _ => jobs.get_index_of(&id),
    }
}

// Moves an entry, and shifts those in between by one. Most are in their place already.
#[inline(always)]
fn move_entry(jobs: &mut IndexMap<u64, Option<Job>>, from: usize, to: usize)
    requires from_within { from < index_map_len jobs.old }
    requires to_within { to < index_map_len jobs.old }
    ensures entries { jobs.new.entries ≡ move_index jobs.old.entries from to }
    ensures len { index_map_len jobs.new ≡ index_map_len jobs.old }
    ensures room { spare jobs.new ≡ spare jobs.old }
    ensures unique { IsUnique nat_eq jobs.new }
{
    // The length is what says that the ids are unique.
    let _len = jobs.len();
    if from != to {
        jobs.move_index(from, to);
    }
}

// Drops the entries behind the first `count`, if they are at least half of all. So the map has their room again.
fn drop_ended(jobs: &mut IndexMap<u64, Option<Job>>, count: usize)
    requires first { take count jobs.old.entries ≡ filed (held_in jobs.old.entries count) }
    requires counted { length (held_in jobs.old.entries count) ≡ count }
    requires room { MOST_ENTRIES ≤ index_map_len jobs.old + spare jobs.old }
    ensures filed { AreFiled jobs.new count }
    ensures held { held_in jobs.new.entries count ≡ held_in jobs.old.entries count }
{
    if count <= jobs.len() / 2 {
        jobs.truncate(count);
    }
}

// Files a job under its id, and returns its index. The other entries keep their order.
#[inline(always)]
fn file(jobs: &mut IndexMap<u64, Option<Job>>, count: usize, job: Job) -> usize
    requires filed { AreFiled jobs.old count }
    requires new { place_of (held_in jobs.old.entries count) job.id ≡ None }
    requires room { 0 < spare jobs.old }
    ensures there { slice_get jobs.new.entries result ≡ Some (job.id, Some job) }
    ensures others { remove jobs.new.entries result ≡ remove_entry (nat_eq job.id) jobs.old.entries }
    ensures len { index_map_len jobs.new ≤ index_map_len jobs.old + 1 }
    ensures room { index_map_len jobs.old + spare jobs.old ≤ index_map_len jobs.new + spare jobs.new }
{
    let at = entry_for(jobs, count, job.element().id);
    jobs[at] = Some(job);
    at
}

// The index of the entry for an id, which is empty. That of a job that ended is used again.
#[inline(always)]
fn entry_for(jobs: &mut IndexMap<u64, Option<Job>>, count: usize, id: u64) -> usize
    requires filed { AreFiled jobs.old count }
    requires new { place_of (held_in jobs.old.entries count) id ≡ None }
    requires room { 0 < spare jobs.old }
    ensures within { result < index_map_len jobs.new }
    ensures key { get_or (keys jobs.new) result 0 ≡ id }
    ensures others { remove jobs.new.entries result ≡ remove_entry (nat_eq id) jobs.old.entries }
    ensures len { index_map_len jobs.new ≤ index_map_len jobs.old + 1 }
    ensures room { index_map_len jobs.old + spare jobs.old ≤ index_map_len jobs.new + spare jobs.new }
{
    match index_of_ended(jobs, count, id) {
        Some(at) => at,
        None => {
            let at = jobs.len();
            jobs.insert(id, None).unwrap();
            at
        }
    }
}

// The index of the entry of this id, if it was of a job that ended. If no job had ended, there is nothing to look up.
#[inline(always)]
fn index_of_ended(jobs: &IndexMap<u64, Option<Job>>, count: usize, id: u64) -> Option<usize>
    requires filed { AreFiled jobs.now count }
    requires new { place_of (held_in jobs.now.entries count) id ≡ None }
    ensures { result ≡ index_of nat_eq jobs.now id }
{
    if jobs.len() <= count {
        return None;
    }
    jobs.get_index_of(&id)
}
