//! `pie explain`: the choice of events by its options, and its end.
ghost use Rattle.std.specs.Prelude.{◌≡◌, is_none};
ghost use Rattle.clap.specs.Words.{found_of, rows_of};
ghost use Rattle.pie_commands.specs.Selections.{chosen_events, every_of, is_selected, is_summary, may_combine, output_kind_of, selection_of, sums_kind};

use crate::call::Call;
use crate::end::End;
use crate::files::{Output, Source};
use crate::json::JsonWriter;
use crate::line::Part::{Number, Text};
use crate::line::{parts, say};
use crate::options::{bounds_of, file, flag, moment, number, parsed, report_two, text};
use crate::progress::{ProgressReader, allows_colours, writes_to_terminal};
use crate::reports::{as_digest, in_words};
use crate::steps::{end_of_clean_steps, explain_steps, lacks_queue};
use clap::ArgMatches;
use pie_explain::{
    ByFlow, Digest, EventChoice, EventRecords, ExplainFault, Form, LineStyle, Report, Selection,
    SummariesOnly, Words,
};
use pie_linux_history::{StepsExplained, StepsFault, StepsFinding};
use pie_trace::TraceFault;
use std::alloc::Global;
use std::io::Stderr;

/// The message for options that choose events more than once.
const ONE_CHOICE: &str =
    "explain takes only one of --event N, --tag T, --lost, --marked and --all; see pie explain --help";

/// The message for an interval of length 0.
const NO_PERIOD: &str = "--every: the interval must be at least 1 ns";

/// The end of the line about the events that an explanation leaves out at a step that differs.
const LEFT_OUT: &str =
    " is not what the rules give there, so it and its queue's events up to the next init or resume are not explained";

/// Returns the length of an interval in these options, if it is valid.
fn every_of(options: &ArgMatches<'_>) -> Option<u64>
    ensures { result ≡ every_of (rows_of (found_of options.now)) }
{
    moment(options, "every").unwrap_or(None)
}

/// Returns true if an option chooses events.
fn is_selected(options: &ArgMatches<'_>) -> bool
    ensures { result ≡ is_selected (rows_of (found_of options.now)) }
{
    let is_numbered = number(options, "event").is_some() || number(options, "tag").is_some();
    let is_by_kind = flag(options, "lost") || (flag(options, "marked") || flag(options, "all"));
    is_numbered || is_by_kind
}

/// Returns true if these options request summaries, of all chosen events, of each interval, or by flow; or if they choose
/// no events.
fn is_summary(options: &ArgMatches<'_>) -> bool
    ensures { result ≡ is_summary (rows_of (found_of options.now)) }
{
    let (digest, flows) = (flag(options, "digest"), number(options, "flows").is_some());
    let is_asked = (flag(options, "summary") || every_of(options).is_some()) || (digest || flows);
    !is_selected(options) || is_asked
}

/// Returns the chosen events, if at most one of the five options chooses some. Without any of them these are all events.
fn chosen_events(options: &ArgMatches<'_>) -> Option<EventChoice>
    ensures { result ≡ chosen_events (rows_of (found_of options.now)) }
{
    let (event, tag) = (number(options, "event"), number(options, "tag"));
    let (lost, marked) = (flag(options, "lost"), flag(options, "marked"));
    let all = flag(options, "all");
    match (event, tag, lost, marked, all) {
        (Some(event), None, false, false, false) => Some(EventChoice::Number(event)),
        (None, Some(tag), false, false, false) => Some(EventChoice::Tag(tag)),
        (None, None, true, false, false) => Some(EventChoice::Lost),
        (None, None, false, true, false) => Some(EventChoice::Marked),
        (None, None, false, false, _) => Some(EventChoice::All),
        _ => None,
    }
}

/// Writes the lines of options that don't choose events by exactly one option.
fn report_choices(options: &ArgMatches<'_>, errors: Stderr) {
    let given = [
        ("event", number(options, "event").is_some()),
        ("tag", number(options, "tag").is_some()),
        ("lost", flag(options, "lost")),
        ("marked", flag(options, "marked")),
        ("all", flag(options, "all")),
    ];
    say(errors, &[Text(ONE_CHOICE)]);
    report_two(&given, errors);
}

/// Returns why the options exclude each other, if they do.
fn conflict(options: &ArgMatches<'_>, is_every: bool) -> Option<&'static str>
    ensures { is_none result ≡ may_combine is_every (rows_of (found_of options.now)) }
{
    let (digest, csv) = (flag(options, "digest"), flag(options, "csv"));
    if digest && number(options, "flows").is_some() {
        return Some("--flows cannot be combined with --digest");
    }
    if flag(options, "json") && (csv || digest) {
        return Some("--json cannot be combined with --csv or --digest");
    }
    if flag(options, "full") && !is_every {
        return Some("--full needs --every");
    }
    if flag(options, "summary") && is_every {
        return Some(
            "--summary cannot be combined with --every, which writes a line for each interval",
        );
    }
    None
}

/// Returns the selection of these options. If they are not valid together, writes a line to `errors` and returns
/// `None`.
#[tactic(auto, unfolding(crate::specs::Selections::selection_of))]
fn selection_of(options: &ArgMatches<'_>, errors: Stderr) -> Option<Selection>
    ensures { result ≡ selection_of (rows_of (found_of options.now)) }
{
    let (from, to) = bounds_of(options, errors)?;
    let every = parsed(moment(options, "every"), "--every:", errors)?;
    let Some(which) = chosen_events(options) else {
        report_choices(options, errors);
        return None;
    };
    if matches!(every, Some(0)) {
        say(errors, &[Text(NO_PERIOD)]);
        return None;
    }
    if let Some(why) = conflict(options, every.is_some()) {
        say(errors, &[Text(why)]);
        return None;
    }
    Some(Selection { which, from, to })
}

/// The kind of output about the chosen events.
#[derive(Clone, Copy)]
pub(crate) enum OutputKind {
    /// A CSV record for each event.
    Records(EventRecords),
    /// Each event in words.
    Words(Words),
    /// Summaries, of all events or of each interval.
    Sums(SummariesOnly),
    /// Summaries, and between them the words for lost and marked packets.
    Digest(Digest),
    /// Sums by flow, with rows for a limited number of flows.
    Flows(ByFlow),
}

/// Returns the kind of summaries: of each interval in words a line, unless `full`, in this style.
fn sums_kind(full: bool, style: LineStyle, every: Option<u64>, form: Form) -> OutputKind
    ensures { result ≡ sums_kind full style every form }
{
    let style = if every.is_some() && !(form.csv || full) {
        Some(style)
    } else {
        None
    };
    OutputKind::Sums(SummariesOnly { form, every, style })
}

/// Returns the kind of output that these options request: each event, or sums over the events. With `--json` it is in CSV,
/// whose objects are written. Lines have this style.
fn output_kind_of(options: &ArgMatches<'_>, style: LineStyle) -> OutputKind
    ensures { result ≡ output_kind_of style (rows_of (found_of options.now)) }
{
    let (csv, by_wall) = (
        flag(options, "csv") || flag(options, "json"),
        flag(options, "wall"),
    );
    let (packets, flows) = (flag(options, "digest"), number(options, "flows"));
    let (every, form) = (every_of(options), Form { csv, by_wall });
    match (is_summary(options), packets, flows) {
        (true, _, Some(most)) => OutputKind::Flows(ByFlow { form, every, most }),
        (true, true, None) => OutputKind::Digest(Digest {
            form,
            every,
            style: None,
        }),
        (true, false, None) => sums_kind(flag(options, "full"), style, every, form),
        (false, _, _) => {
            if csv {
                OutputKind::Records(EventRecords { by_wall })
            } else {
                OutputKind::Words(Words { by_wall })
            }
        }
    }
}

/// Writes the explanations of the chosen events.
fn explain_with(
    alloc: Global,
    input: ProgressReader<'_, Source<'_>>,
    output: &mut JsonWriter<'_>,
    selection: Selection,
    kind: OutputKind,
) -> Result<u64, ExplainFault> {
    let outcome = match kind {
        OutputKind::Records(each) => explain_by(alloc, input, output, selection, each),
        OutputKind::Sums(sums) => explain_by(alloc, input, output, selection, sums),
        OutputKind::Words(each) => explain_by(alloc, input, output, selection, in_words(each)),
        OutputKind::Digest(it) => explain_by(alloc, input, output, selection, as_digest(it)),
        OutputKind::Flows(flows) => explain_by(alloc, input, output, selection, flows),
    };
    match outcome {
        Err(ExplainFault::Trace(why)) => Err(ExplainFault::Trace(output.fault_of(why))),
        _ => outcome,
    }
}

/// Writes the explanations of the chosen events by one report.
#[inline(never)]
pub(crate) fn explain_by<P: Report>(
    alloc: Global,
    input: ProgressReader<'_, Source<'_>>,
    output: &mut JsonWriter<'_>,
    selection: Selection,
    report: P,
) -> Result<u64, ExplainFault> {
    pie_explain::explain(alloc, input, output, selection, report)
}

/// Returns the end of an explanation of a history with this result.
fn end_of(call: &Call<'_, '_>, outcome: Result<u64, ExplainFault>) -> End {
    match outcome {
        Ok(_) => End::Done,
        Err(ExplainFault::Trace(why)) => call.end_at_fault(why),
        Err(ExplainFault::Differs { event }) => {
            call.end_at_event(ExplainFault::Differs { event }, event)
        }
        Err(why) => call.failed_by(why),
    }
}

/// Returns the end of an explanation of recorded steps with this result. Writes the output that was withheld, unless the text
/// lacks the chosen queue.
fn end_of_steps(
    call: &Call<'_, '_>,
    output: &mut JsonWriter<'_>,
    selection: Selection,
    queue: Option<&str>,
    outcome: Result<StepsExplained, StepsFault>,
) -> End {
    let is_absent = match outcome {
        Ok(explained) => lacks_queue(queue, explained.finding),
        Err(_) => false,
    };
    if !is_absent && output.release().is_err() {
        return End::Fault(TraceFault::Write);
    }
    match outcome {
        Ok(StepsExplained { count, finding }) => match finding {
            StepsFinding::Clean(counts) => {
                end_of_clean_steps(call, selection, queue, count, counts)
            }
            StepsFinding::Differs { first, count } => {
                let end = call.end_at_step(
                    parts! { Text("event "), Number(first.event), Text(LEFT_OUT) },
                    first,
                );
                if count > 1 {
                    say(call.errors, &[Text("events that differ: "), Number(count)]);
                }
                end
            }
        },
        Err(why) => call.end_of_steps(None, file(call.options), why),
    }
}

/// `pie explain`: explains the chosen events of the text in the file that the options name, or in standard input,
/// up to its first fault or a history's first event that differs. Returns a difference as `End::Differs`. If the text has a
/// fault, the options choose events more than once, no event matches, or the reader, the writer or memory fails, the end
/// is an error. Each error has a line on the error stream; a writer's fault is reported later (`End::report`). On a
/// terminal the header of lines is repeated, and lines are coloured unless the user wants no colours. With a queue up to 64 KiB of
/// the output are withheld, in case the text lacks it.
pub(crate) fn explain(call: &Call<'_, '_>, output: &mut Output) -> End {
    let (alloc, options) = (call.alloc, call.options);
    let Some(selection) = selection_of(options, call.errors) else {
        return End::Failed;
    };
    let (watched, is_steps) = match call.open_either(None, file(options), true) {
        Ok(opened) => opened,
        Err(end) => return end,
    };
    let repeats = writes_to_terminal(call);
    let colours = repeats && allows_colours(call.system);
    let kind = output_kind_of(options, LineStyle { repeats, colours });
    let queue = text(options, "queue");
    let most = if queue.is_some() { 1 << 16 } else { 0 };
    let mut output = JsonWriter::new(alloc, output, flag(options, "json"), most);
    match (is_steps, queue) {
        (true, _) => {
            let outcome = explain_steps(alloc, watched, &mut output, selection, queue, kind);
            end_of_steps(call, &mut output, selection, queue, outcome)
        }
        (false, None) => {
            end_of(
                call,
                explain_with(alloc, watched, &mut output, selection, kind),
            )
        }
        (false, Some(_)) => {
            drop(watched);
            call.failed(&[Text("--queue is only for a text of pie-watch")])
        }
    }
}
