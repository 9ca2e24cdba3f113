use crate::case::Case;
use crate::differences::compare_texts;
use crate::finding::Finding;
use crate::flaw::Flaw;
use rb_arguments::Words;
use rb_options::ReplayOptions;
use rb_runs::run_replay;
use std::alloc::{AllocError, Global};

/// Replays the history of a case, and tells what differs from the case.
pub fn run_replay_case(alloc: Global, case: &Case<'_>, found: &mut Finding) -> Result<(), Flaw> {
    let told = &mut found.told;
    told.clear();
    let Some(options) = options_of(alloc, case)? else {
        told.push_str("the words of `args` are refused")?;
        return Err(Flaw::Differs);
    };
    match run_replay(alloc, &options, &case.history.bytes) {
        Ok((line, status)) => compare(alloc, case, &line, status, told),
        Err(fault) => {
            write!(told, "ends by a fault: {fault}")?;
            Err(Flaw::Differs)
        }
    }
}

// Compares the line and the status with the case.
fn compare(
    alloc: Global,
    case: &Case<'_>,
    line: &str,
    status: u8,
    told: &mut String,
) -> Result<(), Flaw> {
    let (verdict, wanted) = (case.verdict.unwrap_or(""), case.status.unwrap_or(0));
    let verdict = format!(in alloc; "{verdict}\n")?;
    compare_texts(told, "verdict", line, &verdict)?;
    if status == wanted {
        return Ok(());
    }
    write!(told, "status: {status} in place of {wanted}")?;
    Err(Flaw::Differs)
}

fn options_of(alloc: Global, case: &Case<'_>) -> Result<Option<ReplayOptions>, AllocError> {
    match case.words(alloc, &["rb_broker", "replay", "FILE"])? {
        Ok(Words::Replay { options, .. }) => Ok(Some(options)),
        _ => Ok(None),
    }
}
