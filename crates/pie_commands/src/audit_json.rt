//! The objects of `pie audit --json`.

use crate::audit::Audited;
use crate::difference::Details;
use crate::files::Output;
use crate::json::write_string;
use crate::line::Part::{Number, Text};
use crate::line::{put_parts, write_parts};
use pie_audit::Finding;
use pie_cut::Joint;
use pie_linux_history::{Differences, StepDifference, StepsFinding};
use pie_record::RowBuffer;
use std::alloc::Global;
use std::io;
use std::io::Write;

/// Writes a member with the text of a record, without its line feed, after the member's name.
fn put_record(name: &str, row: &RowBuffer, output: &mut Output) -> io::Result<()> {
    let text = row.as_bytes();
    output.write_all(name.as_bytes())?;
    write_string(output, &text[..text.len().saturating_sub(1)])
}

/// Writes the members of an event that differs: its record, and the right record or the reason why there is none.
fn put_details(details: &Details, output: &mut Output) -> io::Result<()> {
    put_record(",\"recorded\":", &details.recorded(), output)?;
    match details.right() {
        Some(right) => put_record(",\"right\":", &right, output),
        // (no reason has a character that JSON escapes)
        None => write!(output, ",\"reason\":\"{}\"", details.reason()),
    }
}

/// Writes the members of a step that differs: both numbers, and a text with the queue, the step and the column.
fn put_step(alloc: Global, found: &StepDifference, output: &mut Output) -> io::Result<()> {
    put_parts! { output;
        Text(",\"recorded\":"), Number(found.difference.recorded), Text(",\"right\":"),
        Number(found.difference.right), Text(",\"reason\":")
    }?;
    let text = format!(in alloc; "{found}")?;
    write_string(output, text.as_bytes())
}

/// Writes the number of steps that differ, if there are several, and an object for each that is kept after the first one.
fn put_others(alloc: Global, found: &Differences, output: &mut Output) -> io::Result<()> {
    if found.count < 2 {
        return Ok(());
    }
    let mut lead = Text(",\"others\":[");
    write_parts(output, &[Text(",\"differences\":"), Number(found.count)])?;
    for one in found.first.iter().skip(1) {
        write_parts(output, &[lead, Text("{\"event\":"), Number(one.event)])?;
        put_step(alloc, one, output)?;
        output.write_all(b"}")?;
        lead = Text(",");
    }
    output.write_all(b"]")
}

/// Writes the members of a joint, if there is one.
fn put_joint(joint: Option<Joint>, output: &mut Output) -> io::Result<()> {
    match joint {
        None => Ok(()),
        Some(Joint::Follows) => output.write_all(b",\"joint\":\"follows\""),
        Some(Joint::Gap { last, first }) => {
            put_parts! { output; Text(",\"joint\":\"gap\",\"last\":"), Number(last), Text(",\"first\":"), Number(first) }
        }
        Some(Joint::Unlike { last, .. }) => {
            put_parts! { output; Text(",\"joint\":\"unlike\",\"last\":"), Number(last) }
        }
    }
}

/// Writes the object of a file's finding and joint, with the `details` of an event that differs if they are known, and flushes
/// the writer.
pub(crate) fn write_object(
    alloc: Global,
    name: &str,
    audited: &Audited,
    details: &Option<Details>,
    output: &mut Output,
) -> io::Result<()> {
    output.write_all(b"{\"file\":")?;
    write_string(output, name.as_bytes())?;
    let (finding, number) = match audited.joined.finding {
        Finding::Clean { events } => (",\"finding\":\"clean\",\"events\":", events),
        Finding::Differs { event } => (",\"finding\":\"differs\",\"event\":", event),
    };
    write_parts(output, &[Text(finding), Number(number)])?;
    if let Some(details) = details {
        put_details(details, output)?;
    }
    match &audited.steps {
        Some((StepsFinding::Clean(counts), _)) if counts.lost > 0 => {
            write_parts(output, &[Text(",\"lost\":"), Number(counts.lost)])?
        }
        Some((StepsFinding::Differs { first, .. }, found)) => {
            put_step(alloc, first, output)?;
            put_others(alloc, found, output)?;
        }
        _ => {}
    }
    put_joint(audited.joined.joint, output)?;
    output.write_all(b"}\n")?;
    output.flush()
}
