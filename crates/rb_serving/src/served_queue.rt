ghost use Rattle.std.specs.Prelude.{◌≡◌, IfOk, IfErr};
ghost use Rattle.rb_lock.specs.Parts.{all_parts};
ghost use Rattle.rb_serving.specs.Serving.{IsOpened};

use rb_ending::BrokerFault;
use rb_kept::Kept;
use rb_lock::{Pass, Shared};
use rb_options::ServerRunOptions;
use rb_queue::Opening;
use rb_timer::Timer;
use std::alloc::Global;

/// A queue that a server is to serve: shared, with a pass of it.
#[derive(Drop)]
pub struct ServedQueue<T: Timer> {
    pub(crate) shared: Shared<T>,
    pub(crate) pass: Pass<T>,
    ghost of: { pass.table ≡ shared },
    // No other pass is left, so the queue can be closed.
    ghost whole: { pass.parts ≡ all_parts },
}

impl<T: Timer> ServedQueue<T> {
    /// A queue that begins with this opening, which nobody has called, with room for as many calls as the options say.
    ///
    /// Memory is taken for the whole history. The only fault is `Memory`, since that number is in range.
    pub fn open(
        alloc: Global,
        options: &ServerRunOptions,
        opening: Opening,
    ) -> Result<ServedQueue<T>, BrokerFault>
        ensures opened { IfOk result (λ queue. IsOpened opening options.now queue.shared queue.pass) }
        ensures fault { IfErr result (λ fault. fault ≡ BrokerFault.Memory) }
    {
        let (kept, tally) = Kept::<T>::new_from(alloc, options.calls, opening).map_err(
            |_| BrokerFault::Memory,
        )?;
        let (shared, pass) = Shared::open(alloc, kept, tally).map_err(|_| BrokerFault::Memory)?;
        Ok(ServedQueue { shared, pass })
    }
}
