//! The line on the error stream about a joint at which two texts do not fit together.

use crate::line::Part::{Name, Number, Text};
use crate::line::say_parts;
use pie_audit::Finding;
use pie_cut::{Joined, Joint, UnlikeRecords};
use pie_trace::diagnosis::{queued_field_name, resume_field_name};
use std::io::Stderr;
use std::str::from_utf8;

/// Writes the line about events that are missing between two texts, or are in both: the first text ends with event `last`, and
/// the next event of the second one is `first`. `end` is the number of its last event, as far as it was audited.
fn report_gap(errors: Stderr, name: &str, last: u64, first: u64, end: u64) {
    let (from, to, text) = if last < first {
        (
            last.saturating_add(1),
            first.saturating_sub(1),
            " are missing",
        )
    } else {
        (first, last.min(end), " are in both files")
    };
    if last < first || from <= to {
        return say_parts! { errors;
            Name(name), Text(": at the joint: events "), Number(from), Text(" to "), Number(to), Text(text)
        };
    }
    say_parts! { errors;
        Name(name), Text(": at the joint: the next event is "), Number(first),
        Text(", the file before ends with event "), Number(last)
    };
}

/// Returns the text of a field of this name. A record without the field `decay` has the keyword of the mode at its place.
fn text_of<'a>(name: &str, field: &'a str) -> &'a str {
    match (name, field) {
        ("decay", "half") => field,
        ("decay", _) => "absent",
        (_, "") => "empty",
        _ => field,
    }
}

/// Writes the line about the first field that differs between a record of the end, `before`, and one of the beginning, `begun`.
/// `packet` is the number of the packet of records `queued`.
fn report_fields<'r>(
    errors: Stderr,
    name: &'r str,
    packet: Option<u64>,
    before: &'r [u8],
    begun: &'r [u8],
) {
    let (Ok(before), Ok(begun)) = (from_utf8(before), from_utf8(begun)) else {
        return;
    };
    let has_decay = before.contains(",half,") || begun.contains(",half,");
    let (mut ones, mut others) = (before.trim_end().split(','), begun.trim_end().split(','));
    for place in 0..64 {
        let (one, other) = (ones.next().unwrap_or(""), others.next().unwrap_or(""));
        if one == other {
            continue;
        }
        let (record, field) = match packet {
            None => ("resume", resume_field_name(has_decay, place)),
            Some(_) => ("queued", queued_field_name(place)),
        };
        let (of, packet) = match packet {
            None => (Text(")"), Text("")),
            Some(packet) => (Text(") of packet "), Number(packet)),
        };
        return say_parts! { errors;
            Name(name), Text(": at the joint: "), Text(record), Text(" field "), Number(place as u64 + 1),
            Text(" ("), Text(field), of, packet, Text(" is "), Text(text_of(field, other)),
            Text(", the file before ends with "), Text(text_of(field, one))
        };
    }
}

/// Writes the line about a joint, unless the file `name` follows the file before it: the events that are missing or in
/// both files, or the first field that differs.
pub(crate) fn report_joint<'r>(
    errors: Stderr,
    name: &'r str,
    joined: Joined,
    unlike: &'r Option<UnlikeRecords>,
) {
    let (Finding::Clean { events: end } | Finding::Differs { event: end }) = joined.finding;
    if let Some(Joint::Gap { last, first }) = joined.joint {
        report_gap(errors, name, last, first, end);
    }
    match unlike {
        Some(UnlikeRecords::Resume { before, begun }) => {
            report_fields(errors, name, None, before.as_bytes(), begun.as_bytes())
        }
        Some(
            UnlikeRecords::Queued {
                packet,
                before,
                begun,
            },
        ) => {
            report_fields(
                errors,
                name,
                Some(*packet),
                before.as_bytes(),
                begun.as_bytes(),
            )
        }
        None => {}
    }
}
