ghost use Rattle.std.specs.Prelude.{◌≡◌, IfOk, OnErr};
ghost use Rattle.rb_timer.specs.Run.{Step, Run};

use crate::command::{TimerAnswer, TimerCommand};
use crate::timer::Timer;
use std::alloc::{AllocError, Global};

/// Runs the commands on a timer, one after the other, and returns an answer for each.
///
/// The answer is `Refused` exactly if the condition of an insert or a removal fails; that command
/// changes nothing. The memory for the answers is taken before the first command: on `Err` there was
/// not enough, and nothing has changed.
pub fn run_timer<T: Timer>(
    alloc: Global,
    timer: &mut T,
    commands: &[TimerCommand],
) -> Result<Vec<TimerAnswer>, AllocError>
    ensures run { IfOk result (λ answers. Run (T.room timer.old) (T.content timer.old) commands.now answers.items
        (T.content timer.new)) }
    ensures room { T.room timer.new ≡ T.room timer.old }
    ensures err { OnErr result (timer.new ≡ timer.old) }
{
    let mut answers = Vec::with_capacity(alloc, commands.len())?;
    for command in commands {
        answers.push_reserved(answer(timer, *command));
    }
    Ok(answers)
}

// Runs one command.
fn answer<T: Timer>(timer: &mut T, command: TimerCommand) -> TimerAnswer
    ensures step { Step (T.room timer.old) (T.content timer.old) command result (T.content timer.new) }
    ensures room { T.room timer.new ≡ T.room timer.old }
{
    match command {
        TimerCommand::Insert(slot, expiry) => insert(timer, slot, expiry),
        TimerCommand::Remove(slot) => remove(timer, slot),
        TimerCommand::Least => TimerAnswer::Entry(timer.least()),
        TimerCommand::Due(now) => TimerAnswer::Entry(timer.due(now)),
        TimerCommand::Clear => {
            timer.clear();
            TimerAnswer::Cleared
        }
    }
}

fn insert<T: Timer>(timer: &mut T, slot: usize, expiry: u64) -> TimerAnswer
    ensures step { Step (T.room timer.old) (T.content timer.old) (TimerCommand.Insert slot expiry) result
        (T.content timer.new) }
    ensures room { T.room timer.new ≡ T.room timer.old }
{
    if slot >= timer.room() || timer.get(slot).is_some() {
        return TimerAnswer::Refused;
    }
    timer.insert(slot, expiry);
    TimerAnswer::Inserted
}

fn remove<T: Timer>(timer: &mut T, slot: usize) -> TimerAnswer
    ensures step { Step (T.room timer.old) (T.content timer.old) (TimerCommand.Remove slot) result
        (T.content timer.new) }
    ensures room { T.room timer.new ≡ T.room timer.old }
{
    if timer.get(slot).is_none() {
        return TimerAnswer::Refused;
    }
    TimerAnswer::Removed(timer.remove(slot))
}
