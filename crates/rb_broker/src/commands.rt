use crate::files::{check_output, opening_behind, text_of};
use crate::greeting::greeting_line;
use crate::history_file::HistoryFile;
use crate::listener::Place;
use crate::run_clock::RunClock;
use rb_blocking::MachineClock;
use rb_ending::BrokerFault;
use rb_options::{ReplayOptions, ScriptOptions, ServeOptions};
use rb_runs::{over_timer, print_replay, record_script};
use rb_serving::{Ending, TcpDoor, TcpManners, print_listening, run_server};
use rb_session::Ended;
use std::sync::Wait;
use std::thread::Threads;
use std::time;

/// Runs a script from standard input to standard output, which gets the replies before each read and at the end.
///
/// It reads the file `from` before anything else, and opens the file `history` before the session, so both may be the
/// same. It empties that file once the session has all the memory that it needs. If standard output is closed, it does
/// not create the file.
pub fn script(
    rt: &HostRuntime,
    options: &ScriptOptions,
    history: Option<&str>,
    from: Option<&str>,
) -> Result<Ended, BrokerFault> {
    let opening = opening_behind(rt, from)?;
    check_output(rt, history)?;
    let history = HistoryFile::create(rt, history)?;
    let (_, ended) = over_timer!(
        options.timer,
        record_script::<_, _, _, _>(
            rt.alloc(),
            options,
            opening,
            &mut rt.stdin(),
            &mut rt.stdout(),
            history
        )
    );
    ended
}

/// Checks the history in a file, prints the line about it, and returns the exit status.
pub fn replay(rt: &HostRuntime, options: &ReplayOptions, file: &str) -> Result<u8, BrokerFault> {
    print_replay(rt.alloc(), options, &text_of(rt, file)?, &mut rt.stdout())
}

/// Serves clients at a port of 127.0.0.1, each of whom is greeted by this line, until its sessions are used up or it was
/// asked to end; then writes the history of the run, and prints its counts.
///
/// It reads the file `from` before anything else. It looks at a listener that it is handed before it opens the file
/// `history`, which would get that number if there was none. It opens that file before it binds the port, and empties it
/// once all workers have been started, before it lets anybody in: so both may be the same, and neither a port in use,
/// an output that is full or closed, want of memory nor a worker that can't be started costs an earlier history.
///
/// `handle` starts the workers, and they wait by it.
pub fn serve<R: Threads + Wait + time::Clock + Sync>(
    rt: &HostRuntime,
    handle: &R,
    options: &ServeOptions,
    greeting: Option<&str>,
    ending: Option<&Ending>,
    history: Option<&str>,
    from: Option<&str>,
) -> Result<(), BrokerFault> {
    let opening = opening_behind(rt, from)?;
    let greeting = greeting_line(rt.alloc(), greeting)?;
    let place = Place::of(options)?;
    check_output(rt, history)?;
    let history = HistoryFile::create(rt, history)?;
    let listener = place.listener(rt)?;
    let clock = MachineClock::new(rt);
    let manners = TcpManners::of(options, greeting.as_slice(), ending);
    let (sessions, turns) = (options.sessions, options.turns);
    let door = TcpDoor::new(rt.alloc(), listener, sessions, turns, manners, &clock)?;
    print_listening(rt.alloc(), &mut rt.stdout(), options.port)?;
    let (_, _, ended) = over_timer!(
        options.timer,
        run_server::<_, _, _, _, _, _>(
            handle,
            rt.alloc(),
            door.entrance(),
            RunClock::new(handle, options.since),
            &options.run,
            opening,
            history,
            &mut rt.stdout()
        )
    );
    ended
}
