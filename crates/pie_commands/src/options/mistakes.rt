//! The lines after the message of a mistake in the command line: the values that an option takes, the nearest keyword, and
//! the two options that exclude each other.

use crate::call::Call;
use crate::line::Part::{Number, Text};
use crate::line::say_parts;
use crate::options::argument::{Argument, ValueKind};
use crate::options::command_line::page_of;
use crate::options::subcommand::subcommand_named;
use crate::options::values::text;
use std::io::Stderr;
use strsim::levenshtein;

/// The options of other subcommands that choose the profile and the optional elements.
const ELEMENTS: &[&str] = &["profile", "delay", "picking", "step", "size", "decay"];

/// The greatest distance between a word and a keyword that is named for it.
const FAR: usize = 2;

/// Writes a line with the text of the option `name`, if it is none of these keywords. The line also has the keyword that is nearest to the text,
/// if its distance is at most 2: the number of characters to insert, remove or replace (Levenshtein); the first of them if several are as near.
pub(crate) fn report_nearest(call: &Call<'_, '_>, name: &'static str, keywords: &[&'static str]) {
    let Some(given) = text(call.options, name) else {
        return;
    };
    let (mut near, mut least) = ("", FAR + 1);
    for keyword in keywords {
        if *keyword == given {
            return;
        }
        let distance = levenshtein(call.alloc, given, keyword).unwrap_or(least);
        if distance < least {
            least = distance;
            near = *keyword;
        }
    }
    let similar = match near {
        "" => "",
        _ => "; a similar value is '",
    };
    let quote = if near.is_empty() { "" } else { "'" };
    say_parts! { call.errors;
        Text("'"), Text(given), Text("' is no value of --"), Text(name), Text(similar), Text(near), Text(quote)
    };
}

/// Writes a line with the first two of these options that are given, if two are. Each has its name, and true if it is given.
pub(crate) fn report_two(options: &[(&str, bool)], errors: Stderr) {
    let mut first = "";
    for (name, is_given) in options {
        if *is_given && !first.is_empty() {
            return say_parts! { errors; Text("--"), Text(first), Text(" and --"), Text(name), Text(" are both given") };
        }
        if *is_given {
            first = *name;
        }
    }
}

/// Returns the name of the option at this place of the command line, and its value: the text after its equals sign, or the
/// next word.
fn option_at<'a>(words: &'a [String], place: usize) -> Option<(&'a str, Option<&'a str>)> {
    let option = words.get(place)?.as_str().strip_prefix("--")?;
    match (option.split_once('='), words.get(place.saturating_add(1))) {
        (Some((name, value)), _) => Some((name, Some(value))),
        (None, Some(next)) => Some((option, Some(next.as_str()))),
        (None, None) => Some((option, None)),
    }
}

/// If the value of the option `name` is not a number that it takes, by the rows of a page, writes a line with the numbers that it
/// takes, and returns true.
fn report_number(rows: &'static str, name: &str, value: &str, errors: Stderr) -> bool {
    for row in rows.lines() {
        let argument = Argument::of(row);
        if argument.name != name {
            continue;
        }
        let ValueKind::Number(least, most) = argument.takes else {
            return false;
        };
        if matches!(value.parse::<u64>(), Ok(number) if least <= number && number <= most) {
            return false;
        }
        say_parts! { errors;
            Text("--"), Text(name), Text(" takes a whole number from "), Number(least), Text(" to "), Number(most),
            Text(", such as --"), Text(name), Text(" "), Number(least)
        };
        return true;
    }
    false
}

/// Writes a line with the numbers that the first option of the command line `words` takes whose value is not one of them, if
/// there is one.
pub(crate) fn report_numbers(words: &[String], errors: Stderr) {
    let Some(subcommand) = words
        .get(1)
        .and_then(|word| subcommand_named(word.as_str()))
    else {
        return;
    };
    let rows = page_of(subcommand.work).rows;
    for place in 2..words.len() {
        if let Some((name, Some(value))) = option_at(words, place)
            && report_number(rows, name, value, errors)
        {
            return;
        }
    }
}

/// If `pie what-if` is given an option that chooses the profile or an element, writes a line with the reason why these
/// cannot change. `words` is the command line.
pub(crate) fn report_elements(words: &[String], errors: Stderr) {
    for place in 2..words.len() {
        if let Some((name, _)) = option_at(words, place)
            && ELEMENTS.contains(&name)
        {
            return say_parts! { errors;
                Text("what-if cannot change --"), Text(name),
                Text(": the first record of a history chooses the profile and the elements for all its events")
            };
        }
    }
}
