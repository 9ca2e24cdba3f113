use crate::case::Case;
use crate::devices::{MOST_CUT, SIZES};
use crate::differences::{compare_lines, compare_texts};
use crate::finding::Finding;
use crate::flaw::Flaw;
use crate::reads::Reads;
use crate::sink::Sink;
use crate::source::Source;
use crate::timers::{TIMERS, timer_name};
use rb_arguments::Words;
use rb_ending::BrokerFault;
use rb_options::{ScriptOptions, TimerKind};
use rb_protocol::{LimitedReader, LimitedWriter, WriterStatus};
use rb_queue::Opening;
use rb_runs::{opening_in, run_script, run_script_delivered};
use rb_session::{Delivery, Ended, HandsOn};
use std::alloc::{AllocError, Global};

// The deliveries of the two calls that run a script, with the words that tell of them.
const DELIVERIES: [(Delivery, &str); 2] = [
    (Delivery::AtOnce, "replies at once"),
    (Delivery::Gathered(HandsOn::BeforeReads), "replies gathered"),
];

/// Runs a script. It differs if a run does not come out as it must: what is told is then about the first such run.
pub fn run_script_case(alloc: Global, case: &Case<'_>, found: &mut Finding) -> Result<(), Flaw> {
    for timer in TIMERS {
        if case.devices.have_timer(timer) {
            over_timer(alloc, case, timer, &mut found.told)?;
        }
    }
    Ok(())
}

// Runs the script over a timer, with each delivery.
fn over_timer(
    alloc: Global,
    case: &Case<'_>,
    timer: TimerKind,
    told: &mut String,
) -> Result<(), Flaw> {
    let Some(options) = options_of(alloc, case, timer)? else {
        told.clear();
        told.push_str("the words of `args` are refused")?;
        return Err(Flaw::Differs);
    };
    for way in DELIVERIES {
        by_reads(alloc, case, &options, way, told)?;
    }
    Ok(())
}

// Runs the script with reads of each size and cut in two at each place.
fn by_reads(
    alloc: Global,
    case: &Case<'_>,
    options: &ScriptOptions,
    way: (Delivery, &str),
    told: &mut String,
) -> Result<(), Flaw> {
    by_sizes(alloc, case, options, way, told)?;
    if case.devices.have_any_size() && case.input.bytes.len() <= MOST_CUT {
        by_cuts(alloc, case, options, way, told)?;
    }
    Ok(())
}

fn by_sizes(
    alloc: Global,
    case: &Case<'_>,
    options: &ScriptOptions,
    way: (Delivery, &str),
    told: &mut String,
) -> Result<(), Flaw> {
    let (delivery, replies) = way;
    for size in SIZES {
        if case.devices.have_size(size) {
            let (timer, reads) = (timer_name(options.timer), size_name(size));
            told.clear();
            write!(told, "over {timer}, {replies}, reads {reads}: ")?;
            run(alloc, case, options, delivery, Reads::of_size(size), told)?;
        }
    }
    Ok(())
}

fn size_name(size: usize) -> &'static str {
    match size {
        usize::MAX => "whole",
        1 => "1",
        _ => "7",
    }
}

fn by_cuts(
    alloc: Global,
    case: &Case<'_>,
    options: &ScriptOptions,
    way: (Delivery, &str),
    told: &mut String,
) -> Result<(), Flaw> {
    let (delivery, replies) = way;
    for first in 1..case.input.bytes.len() {
        let timer = timer_name(options.timer);
        told.clear();
        write!(told, "over {timer}, {replies}, cut behind byte {first}: ")?;
        run(
            alloc,
            case,
            options,
            delivery,
            Reads::cut_behind(first),
            told,
        )?;
    }
    Ok(())
}

// Runs the script with `options`, which choose the timer, and with `reads`.
fn run(
    alloc: Global,
    case: &Case<'_>,
    options: &ScriptOptions,
    delivery: Delivery,
    reads: Reads,
    told: &mut String,
) -> Result<(), Flaw> {
    let mut writer = Sink::new(alloc, case.devices.writer_fails, case.devices.writer_takes);
    let mut recorder = recorder_of(alloc, case);
    let source = source_of(case, reads);
    let ended = ended(
        alloc,
        case,
        options,
        delivery,
        source,
        &mut writer,
        recorder.as_mut(),
    );
    compare(alloc, case, ended, &writer, recorder.as_ref(), told)
}

// Compares a run with the case: the replies, the end and the history.
fn compare(
    alloc: Global,
    case: &Case<'_>,
    ended: Result<Ended, BrokerFault>,
    writer: &Sink,
    recorder: Option<&Sink>,
    told: &mut String,
) -> Result<(), Flaw> {
    compare_lines(alloc, told, "replies", &writer.bytes, &case.replies.bytes)?;
    compare_ends(alloc, case, ended, told)?;
    match recorder {
        Some(recorder) => compare_lines(
            alloc,
            told,
            "history",
            &recorder.bytes,
            &case.history.bytes,
        ),
        None => Ok(()),
    }
}

fn compare_ends(
    alloc: Global,
    case: &Case<'_>,
    ended: Result<Ended, BrokerFault>,
    told: &mut String,
) -> Result<(), Flaw> {
    let ends = text_of(alloc, ended)?;
    compare_texts(told, "ends", &ends, case.ends.unwrap_or(""))
}

// Runs the script over these devices. Returns how it ended.
fn ended(
    alloc: Global,
    case: &Case<'_>,
    options: &ScriptOptions,
    delivery: Delivery,
    source: Source<'_>,
    writer: &mut Sink,
    recorder: Option<&mut Sink>,
) -> Result<Ended, BrokerFault> {
    let opening = opening_of(alloc, case)?;
    let mut source = source;
    match delivery {
        Delivery::AtOnce => run_script(alloc, options, opening, &mut source, writer, recorder),
        gathered => {
            let mut status = WriterStatus::of(&*writer);
            let (_, report) = run_script_delivered(
                alloc,
                options,
                gathered,
                opening,
                &mut LimitedReader::new(&mut source),
                LimitedWriter::new(writer, &mut status),
                recorder,
            );
            report.result()
        }
    }
}

fn source_of<'a>(case: &'a Case<'_>, reads: Reads) -> Source<'a> {
    let devices = &case.devices;
    let input = case.input.bytes.as_slice();
    let rest = match devices.reader_fails {
        Some(behind) => input.get(..behind).unwrap_or(input),
        None => input,
    };
    Source::new(
        rest,
        reads,
        devices.reader_fails.is_some(),
        devices.are_interrupted(),
    )
}

fn recorder_of(alloc: Global, case: &Case<'_>) -> Option<Sink> {
    if case.history.is_given {
        Some(Sink::new(alloc, case.devices.recorder_fails, None))
    } else {
        None
    }
}

fn opening_of(alloc: Global, case: &Case<'_>) -> Result<Opening, BrokerFault> {
    if case.from.is_given {
        opening_in(alloc, &case.from.bytes)
    } else {
        Ok(Opening::empty(alloc))
    }
}

fn options_of(
    alloc: Global,
    case: &Case<'_>,
    timer: TimerKind,
) -> Result<Option<ScriptOptions>, AllocError> {
    let first = ["rb_broker", "script", "--timer", timer_name(timer)];
    match case.words(alloc, &first)? {
        Ok(Words::Script { options, .. }) => Ok(Some(options)),
        _ => Ok(None),
    }
}

// Returns how a run ended, in the words of a case.
fn text_of(alloc: Global, ended: Result<Ended, BrokerFault>) -> Result<String, AllocError> {
    match ended {
        Ok(Ended::Quit { lost }) => format!(in alloc; "quit {lost}"),
        Ok(Ended::EndOfInput { lost }) => format!(in alloc; "input {lost}"),
        Err(fault) => format!(in alloc; "{fault}"),
    }
}
