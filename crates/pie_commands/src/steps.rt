//! Texts of recorded steps of Linux, which `pie-watch` writes: their audits, explanations and cuts by pie_linux_history, and
//! the ends of these.

use crate::call::Call;
use crate::end::End;
use crate::explain::OutputKind;
use crate::files::{Output, Source};
use crate::json::JsonWriter;
use crate::line::Part::{Name, Number, Text};
use crate::line::{lead, parts, say, say_parts, say_text};
use crate::progress::ProgressReader;
use pie_explain::{Digest, EventChoice, ExplainFault, Selection, SummariesOnly};
use pie_linux_history::{
    Beside, Differences, PacketWords, StepPieces, StepsAudit, StepsCounts, StepsExplained,
    StepsFault, StepsFinding, report,
};
use std::alloc::Global;
use std::io::Stderr;

/// Audits a text of recorded steps.
#[inline(never)]
pub(crate) fn audit_steps(
    alloc: Global,
    reader: ProgressReader<'_, Source<'_>>,
    queue: Option<&str>,
) -> StepsAudit {
    pie_linux_history::audit(alloc, reader, queue)
}

/// Explains the selected packets of a text of recorded steps in words, or writes a report of another kind about the
/// selected events.
#[inline(never)]
pub(crate) fn explain_steps(
    alloc: Global,
    reader: ProgressReader<'_, Source<'_>>,
    output: &mut JsonWriter<'_>,
    selection: Selection,
    queue: Option<&str>,
    kind: OutputKind,
) -> Result<StepsExplained, StepsFault> {
    let outcome = match kind {
        OutputKind::Words(_) => {
            pie_linux_history::explain(alloc, reader, output, selection, queue, PacketWords)
        }
        OutputKind::Records(each) => {
            report(alloc, reader, output, selection, queue, each, Beside::Queue)
        }
        OutputKind::Sums(sums) => {
            report(
                alloc,
                reader,
                output,
                selection,
                queue,
                sums,
                Beside::Nothing,
            )
        }
        OutputKind::Digest(Digest { form, every, style }) => {
            let sums = SummariesOnly { form, every, style };
            report(
                alloc,
                reader,
                output,
                selection,
                queue,
                sums,
                Beside::Packets,
            )
        }
        OutputKind::Flows(flows) => {
            report(
                alloc,
                reader,
                output,
                selection,
                queue,
                flows,
                Beside::Nothing,
            )
        }
    };
    match outcome {
        Err(StepsFault::Trace(why)) => Err(StepsFault::Trace(output.fault_of(why))),
        _ => outcome,
    }
}

/// Cuts pieces out of a text of recorded steps.
#[inline(never)]
pub(crate) fn cut_steps(
    alloc: Global,
    reader: ProgressReader<'_, Source<'_>>,
    output: &mut Output,
    pieces: StepPieces,
) -> Result<(u64, StepsFinding), StepsFault> {
    pie_linux_history::cut(alloc, reader, output, pieces)
}

/// Returns true if the text has no step of the chosen queue.
pub(crate) fn lacks_queue(queue: Option<&str>, finding: StepsFinding) -> bool {
    match finding {
        StepsFinding::Clean(counts) => queue.is_some() && counts.steps == 0 && counts.lost == 0,
        StepsFinding::Differs { .. } => false,
    }
}

/// Writes the number of steps that the recorder lost, and the numbers of steps whose rows lack an input, each if it is above 0,
/// after the name of the file.
pub(crate) fn report_lost(errors: Stderr, name: Option<&str>, counts: StepsCounts) {
    let [file, colon] = lead(name);
    let numbers = [
        (
            "steps that were lost when the text was recorded: ",
            counts.lost,
        ),
        (
            "steps without the returned packets (column rq): ",
            counts.without_returned,
        ),
        (
            "steps without the protocol behind a VLAN tag: ",
            counts.without_protocol,
        ),
        ("steps without the row of a change: ", counts.without_change),
    ];
    for (text, number) in numbers {
        if number > 0 {
            say(errors, &[file, colon, Text(text), Number(number)]);
        }
    }
}

/// Writes the number of steps that differ if there are several, and a line for each that is kept except the first `before` of
/// the text: queue by queue.
pub(crate) fn report_differences(
    errors: Stderr,
    name: Option<&str>,
    found: &Differences,
    before: usize,
) {
    let ([file, colon], all) = (lead(name), &found.first);
    if found.count > 1 {
        say_parts! { errors; file, colon, Text("events that differ: "), Number(found.count) };
    }
    for place in 0..all.len() {
        let queue = &all[place].queue;
        if all[..place].iter().any(|one| one.queue.equals(queue)) {
            continue;
        }
        for other in place.max(before)..all.len() {
            let one = all[other];
            if one.queue.equals(queue) {
                say_text(
                    errors,
                    parts! { file, colon, Text("event "), Number(one.event), Text(", ") },
                    one,
                );
            }
        }
    }
    let unnamed = found.count.saturating_sub(all.len() as u64);
    if unnamed > 0 {
        say_parts! { errors; file, colon, Text("further events that differ: "), Number(unnamed) };
    }
}

/// Returns the end of a clean text of recorded steps, of which `count` packets or events were selected. Writes why none was
/// selected, if one event, the packets of one tag, or a queue that the text lacks was chosen.
pub(crate) fn end_of_clean_steps(
    call: &Call<'_, '_>,
    selection: Selection,
    queue: Option<&str>,
    count: u64,
    counts: StepsCounts,
) -> End {
    report_lost(call.errors, None, counts);
    let events = counts.events;
    match (queue, selection.which) {
        (Some(name), _) if lacks_queue(queue, StepsFinding::Clean(counts)) => {
            call.failed(&[Text("the text has no queue "), Name(name)])
        }
        _ if count > 0 => End::Done,
        (Some(name), EventChoice::Tag(_) | EventChoice::Number(_)) => {
            call.failed(parts! { Text("no event of queue "), Name(name), Text(" is selected") })
        }
        (None, EventChoice::Tag(_) | EventChoice::Number(_)) if !selection.is_whole() => {
            call.failed_by(ExplainFault::NoneWithin)
        }
        (None, EventChoice::Tag(tag)) => call.failed_by(ExplainFault::NoTag { tag }),
        (None, EventChoice::Number(event)) if event > events => {
            call.failed(parts! {
                Text("there is no event "), Number(event), Text(": the text has "), Number(events), Text(" events")
            })
        }
        (None, EventChoice::Number(event)) => {
            call.failed(
                parts! { Text("event "), Number(event), Text(" is no arrival, and drops no packet") },
            )
        }
        _ => End::Done,
    }
}
