//! `pie audit`: of one text, or of files, each in turn; with `--joined` of the files of one history, in its order.

use crate::audit_json::write_object;
use crate::call::Call;
use crate::difference::{Details, details_of, write_details};
use crate::end::End;
use crate::files::{Output, Source};
use crate::joint::report_joint;
use crate::line::Part::{Name, Number, Text};
use crate::line::{lead, say, say_parts, say_text, write_parts};
use crate::options::{flag, text};
use crate::progress::ProgressReader;
use crate::steps::{audit_steps, lacks_queue, report_differences, report_lost};
use pie_audit::Finding;
use pie_cut::{Joined, Joint, TextEnd, UnlikeRecords, audit_joined};
use pie_linux_history::{Differences, StepsFinding};
use pie_trace::TraceFault;
use std::io;
use std::io::Write;

/// The result of an audit of a text.
#[derive(Drop)]
pub(crate) struct Audited {
    pub(crate) joined: Joined,
    /// The finding of recorded steps of Linux, and the steps that differ.
    pub(crate) steps: Option<(StepsFinding, Differences)>,
    /// The records that differ at a joint.
    unlike: Option<UnlikeRecords>,
}

/// Audits recorded steps in the file `name`, if it has a name, as `audit_text` does.
fn audit_of_steps<'w>(
    call: &Call<'_, 'w>,
    name: Option<&'w str>,
    watched: ProgressReader<'_, Source<'_>>,
) -> Result<Audited, End> {
    let queue = text(call.options, "queue");
    let audit = audit_steps(call.alloc, watched, queue);
    let found = match audit.finding {
        Ok(found) => found,
        Err(why) => {
            report_differences(call.errors, name, &audit.differences, 0);
            return Err(call.end_of_steps(name, name, why));
        }
    };
    if let Some(chosen) = queue
        && lacks_queue(queue, found)
    {
        let [file, colon] = lead(name);
        let lacks = Text("the text has no queue ");
        return Err(call.failed(&[file, colon, lacks, Name(chosen)]));
    }
    let finding = match found {
        StepsFinding::Clean(counts) => Finding::Clean {
            events: counts.events,
        },
        StepsFinding::Differs { first, .. } => Finding::Differs { event: first.event },
    };
    Ok(Audited {
        joined: Joined {
            finding,
            joint: None,
        },
        steps: Some((found, audit.differences)),
        unlike: None,
    })
}

/// Audits a history in the file `name`, if it has a name, as `audit_text` does.
fn audit_history(
    call: &Call<'_, '_>,
    name: Option<&str>,
    watched: ProgressReader<'_, Source<'_>>,
    end: &mut Option<TextEnd>,
) -> Result<Audited, End> {
    let mut unlike = None;
    let found = if flag(call.options, "joined") {
        audit_joined(call.alloc, watched, end, &mut unlike)
    } else {
        match pie_audit::audit(call.alloc, watched) {
            Ok(finding) => Ok(Joined {
                finding,
                joint: None,
            }),
            Err(why) => Err(why),
        }
    };
    match found {
        Ok(joined) => Ok(Audited {
            joined,
            steps: None,
            unlike,
        }),
        Err(why) => Err(call.end_of_text(name, name, why)),
    }
}

/// Audits a text of either kind in the file `name`, or in standard input without a name. With `--joined` also compares its
/// beginning with `end`, the end of the text before it, and stores the end of this text in `end`. If the text can't be audited,
/// writes a line to the error stream, and returns the end.
#[inline(never)]
fn audit_text<'w>(
    call: &Call<'_, 'w>,
    name: Option<&'w str>,
    end: &mut Option<TextEnd>,
) -> Result<Audited, End> {
    let (watched, is_steps) = match call.open_either(name, name, false) {
        Ok(opened) => opened,
        Err(end) => return Err(end),
    };
    let has_queue = text(call.options, "queue").is_some();
    match (is_steps, has_queue, flag(call.options, "joined")) {
        (false, false, _) => audit_history(call, name, watched, end),
        (true, _, false) => audit_of_steps(call, name, watched),
        _ => {
            drop(watched);
            let [file, colon] = lead(name);
            let why = if is_steps {
                "--joined is not for a text of pie-watch"
            } else {
                "--queue is only for a text of pie-watch"
            };
            Err(call.failed(&[file, colon, Text(why)]))
        }
    }
}

/// Writes the lines of a result, each after the name of the file if there is one, and flushes the writer.
fn write_lines(name: Option<&str>, joined: Joined, output: &mut Output) -> io::Result<()> {
    let [file, colon] = lead(name);
    let (finding, number) = match joined.finding {
        Finding::Clean { events } => (Text("clean,"), Number(events)),
        Finding::Differs { event } => (Text("differs,"), Number(event)),
    };
    write_parts(output, &[file, colon, finding, number, Text("\n")])?;
    let (none, comma) = (Text(""), Text(","));
    let joint = match joined.joint {
        None => return output.flush(),
        Some(Joint::Follows) => [Text("follows"), none, none, none],
        Some(Joint::Gap { last, first }) => { [Text("gap,"), Number(last), comma, Number(first)] }
        Some(Joint::Unlike { last, .. }) => { [Text("unlike,"), Number(last), none, none] }
    };
    write_parts(output, &[file, colon])?;
    write_parts(output, &joint)?;
    output.write_all(b"\n")?;
    output.flush()
}

/// Writes the lines on the error stream about a result: the event that differs with its `details`, the numbers of lost steps,
/// or the joint that does not fit.
fn report<'r>(
    call: &Call<'_, '_>,
    name: Option<&'r str>,
    audited: &'r Audited,
    details: &Option<Details>,
) {
    match &audited.steps {
        Some((StepsFinding::Clean(counts), _)) => {
            report_lost(call.errors, name, *counts);
            if counts.steps == 0 && counts.lost == 0 {
                let [file, colon] = lead(name);
                say(call.errors, &[file, colon, Text("no step was recorded")]);
            }
        }
        Some((StepsFinding::Differs { first, .. }, found)) => {
            say_text(call.errors, &lead(name), *first);
            report_differences(call.errors, name, found, 1);
        }
        None => {}
    }
    let Some(name) = name else {
        return;
    };
    if let Some(details) = details {
        write_details(call, name, details);
    }
    report_joint(call.errors, name, audited.joined, &audited.unlike);
}

/// Writes the result of an audit, and the lines about it. Returns the end of the text.
fn end_of_audited<'r>(
    call: &Call<'_, '_>,
    name: Option<&'r str>,
    audited: &'r Audited,
    output: &mut Output,
) -> End {
    let details = match (audited.joined.finding, &audited.steps, name) {
        (Finding::Differs { event }, None, Some(name)) => details_of(call, name, event),
        _ => None,
    };
    let written = if flag(call.options, "json") {
        write_object(call.alloc, name.unwrap_or("-"), audited, &details, output)
    } else {
        write_lines(name, audited.joined, output)
    };
    if written.is_err() {
        return End::Fault(TraceFault::Write);
    }
    report(call, name, audited, &details);
    match (audited.joined.finding, audited.joined.joint) {
        (Finding::Clean { .. }, None | Some(Joint::Follows)) => End::Done,
        _ => End::Differs,
    }
}

/// Returns the worse of the ends of two files: a file that could not be audited is worse than one that differs.
fn worse(one: End, other: End) -> End {
    match (one, other) {
        (End::Done, End::Done) => End::Done,
        (End::Done | End::Differs, End::Done | End::Differs) => End::Differs,
        _ => End::Failed,
    }
}

/// Audits the text in the file `name`, and writes the result. `is_read` is true if standard input was already read.
fn audit_named<'w>(
    call: &Call<'_, 'w>,
    name: Option<&'w str>,
    is_read: bool,
    last: &mut Option<TextEnd>,
    output: &mut Output,
) -> End {
    if is_read && name == Some("-") {
        say_parts! { call.errors; Text("-: standard input has already been read") };
        *last = None;
        return End::Unopened;
    }
    match audit_text(call, name, last) {
        Ok(audited) => end_of_audited(call, name, &audited, output),
        Err(end) => {
            *last = None;
            end
        }
    }
}

/// `pie audit`: audits the files that the options name, each in turn, or standard input if they name none, and writes the finding of
/// each. With `--joined` they are the files of one history, in its order; then it also writes the joint of a file with the
/// file before it, if that file was clean. Returns the worst end of all files; a joint that does not fit counts as a
/// difference. If a line can't be written, returns the writer's fault.
pub(crate) fn audit(call: &Call<'_, '_>, output: &mut Output) -> End {
    let mut last: Option<TextEnd> = None;
    let names = call.options.get_strs("file").unwrap_or(&[]);
    let mut worst = End::Done;
    for place in 0..names.len().max(1) {
        let (name, is_read) = (names.get(place).copied(), names[..place].contains(&"-"));
        let end = audit_named(call, name, is_read, &mut last, output);
        if names.is_empty() || matches!(end, End::Fault(TraceFault::Write)) {
            drop(last);
            return end;
        }
        worst = worse(worst, end);
    }
    drop(last);
    worst
}
