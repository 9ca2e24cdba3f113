ghost use Rattle.std.specs.Prelude.{◌≡◌, ◌<◌, ◌≤◌, ℕ, [], length, vec_capacity};
ghost use Rattle.rb_queue.specs.Opening.{ids_of};
ghost use Rattle.rb_kept.specs.Performing.{Performs};

use rb_delayed::{Delayed, Element, add_capped};
use rb_queue::{Act, Ask, DelayQueue, Ids, Reply};
use rb_timer::Timer;
use std::alloc::Global;

/// What the queue did, and the reply to the caller.
#[derive(Debug, Drop)]
pub(crate) struct Answer {
    pub(crate) act: Act,
    pub(crate) reply: Reply,
}

/// How an ask of the queue ended. It is not a `Result`: an answer has the size of two elements, and
/// each wrapping would copy it.
#[derive(Debug, Drop)]
pub(crate) enum Performed {
    /// It got a reply.
    Done(Answer),
    /// It would wait, since nothing has expired. This is the least expiry, in nanoseconds, if any.
    Later(Option<u64>),
    /// There is not enough memory for it, and the queue is unchanged.
    NoMemory,
}

/// Asks the queue at this moment.
pub(crate) fn perform<T: Timer>(
    alloc: Global,
    queue: &mut DelayQueue<T>,
    at: u64,
    ask: Ask,
) -> Performed
    requires { queue.old.next_id < u64.MAX }
    ensures { Performs queue.old at ask result queue.new }
{
    match ask {
        Ask::Offer(draft) => {
            let Ok(element) = queue.offer(draft) else {
                return Performed::NoMemory;
            };
            // The event keeps one copy, and the caller gets the other. The copy has a name of its own,
            // because an element that is written twice in one value counts as moved.
            let recorded = element;
            Performed::Done(Answer {
                act: Act::Offer(recorded),
                reply: Reply::Offered(element),
            })
        }
        Ask::Poll => poll(queue, at),
        Ask::Take => take(queue, at),
        Ask::PollFor { start, timeout } => poll_for(queue, at, start, timeout),
        Ask::Peek => peek(queue),
        Ask::Remove(id) => remove(queue, id),
        Ask::Drain(max) => drain(alloc, queue, at, max),
        Ask::Clear => clear(queue),
        Ask::Size => size(queue),
    }
}

fn poll<T: Timer>(queue: &mut DelayQueue<T>, at: u64) -> Performed
    ensures { Performs queue.old at Ask.Poll result queue.new }
{
    match queue.poll(at) {
        Some(element) => Performed::Done(Answer {
            act: Act::Poll(Some(element.id())),
            reply: Reply::Item(element),
        }),
        None => Performed::Done(Answer {
            act: Act::Poll(None),
            reply: Reply::Nothing,
        }),
    }
}

fn take<T: Timer>(queue: &mut DelayQueue<T>, at: u64) -> Performed
    ensures { Performs queue.old at Ask.Take result queue.new }
{
    match queue.poll(at) {
        Some(element) => Performed::Done(Answer {
            act: Act::Take(element.id()),
            reply: Reply::Item(element),
        }),
        None => Performed::Later(queue.next_expiry()),
    }
}

fn poll_for<T: Timer>(queue: &mut DelayQueue<T>, at: u64, start: u64, timeout: u64) -> Performed
    ensures { Performs queue.old at (Ask.PollFor start timeout) result queue.new }
{
    if let Some(element) = queue.poll(at) {
        return Performed::Done(Answer {
            act: Act::PollFor {
                start,
                timeout,
                got: Some(element.id()),
            },
            reply: Reply::Item(element),
        });
    }
    if at < add_capped(start, timeout) {
        return Performed::Later(queue.next_expiry());
    }
    Performed::Done(Answer {
        act: Act::PollFor {
            start,
            timeout,
            got: None,
        },
        reply: Reply::Nothing,
    })
}

fn peek<T: Timer>(queue: &DelayQueue<T>) -> Performed
    ensures { (now : ℕ) → Performs queue.now now Ask.Peek result queue.now }
{
    match queue.peek() {
        Some(element) => Performed::Done(Answer {
            act: Act::Peek(Some(element.id())),
            reply: Reply::Head(element),
        }),
        None => Performed::Done(Answer {
            act: Act::Peek(None),
            reply: Reply::Nothing,
        }),
    }
}

fn remove<T: Timer>(queue: &mut DelayQueue<T>, id: u64) -> Performed
    ensures { (now : ℕ) → Performs queue.old now (Ask.Remove id) result queue.new }
{
    let found = queue.remove(id);
    Performed::Done(Answer {
        act: Act::Remove { id, found },
        reply: Reply::Removed(found),
    })
}

// It takes the memory for the ids before it takes anything out.
fn drain<T: Timer>(alloc: Global, queue: &mut DelayQueue<T>, at: u64, max: u64) -> Performed
    ensures { Performs queue.old at (Ask.Drain max) result queue.new }
{
    let most = max.min(queue.size()) as usize;
    let Ok(room) = Vec::with_capacity(alloc, most) else {
        return Performed::NoMemory;
    };
    let Ok(items) = queue.drain(at, max) else {
        return Performed::NoMemory;
    };
    let ids = ids_of(items.as_slice(), room);
    Performed::Done(Answer {
        act: Act::Drain { max, ids },
        reply: Reply::Drained(items),
    })
}

// The ids of the elements, in a vector that has room for them. The history keeps this vector, so the
// room that is left over is given back.
fn ids_of(elements: &[Element], mut ids: Vec<u64>) -> Ids
    requires empty { ids.items ≡ [] }
    requires room { length elements.now ≤ vec_capacity ids }
    ensures { result ≡ ids_of elements.now }
{
    for element in elements {
        ids.push_reserved(element.id);
    }
    ids.shrink_to_fit();
    Ids::new(ids)
}

fn clear<T: Timer>(queue: &mut DelayQueue<T>) -> Performed
    ensures { (now : ℕ) → Performs queue.old now Ask.Clear result queue.new }
{
    queue.clear();
    Performed::Done(Answer {
        act: Act::Clear,
        reply: Reply::Cleared,
    })
}

fn size<T: Timer>(queue: &DelayQueue<T>) -> Performed
    ensures { (now : ℕ) → Performs queue.now now Ask.Size result queue.now }
{
    let count = queue.size();
    Performed::Done(Answer {
        act: Act::Size(count),
        reply: Reply::Size(count),
    })
}
