// Laws say which events a session makes: `events_of_..` at every desk, and `history_of_..` at the
// kept one.

use rb_jobs::{events_of_run, events_of_session, history_of_run, history_of_session};
use rb_retry::KeptDesk;
use rb_timer::ListTimer;

#[test]
fn the_laws_hold_of_a_kept_desk(_rt: HostRuntime) {
    events_of_session::<KeptDesk<'_, ListTimer>>();
    history_of_session::<ListTimer>();
    events_of_run::<KeptDesk<'_, ListTimer>, Vec<u8>>();
    history_of_run::<ListTimer, Vec<u8>>();
}
