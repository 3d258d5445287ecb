//! The values of the options of a subcommand.
ghost use Rattle.std.specs.Prelude.{◌≡◌, ◌≤◌, IfSome, None, Ok, option_map};
ghost use Rattle.std.specs.Result.{result_ok};
ghost use Rattle.clap.specs.Words.{first_of, found_of, rows_of};
ghost use Rattle.pie_commands.specs.Values.{bound_given, bounds_of, flag_given, in_order, moment_given, number_given, number_or};

use crate::line::Part::Text;
use crate::line::{say, say_text};
use clap::ArgMatches;
use pie_units::{Moment, MomentFault, When, WhenFault};
use std::fmt::Display;
use std::io::Stderr;

/// Returns the number that is given for an option.
pub(crate) fn number(options: &ArgMatches<'_>, name: &str) -> Option<u64>
    ensures { result ≡ number_given name.now (rows_of (found_of options.now)) }
{
    options.get_one::<u64>(name)
}

/// Returns the number that is given for an option, or `unnamed`. `clap` refuses a number outside `least` to `most`.
pub(crate) fn number_or(
    options: &ArgMatches<'_>,
    name: &str,
    least: u64,
    most: u64,
    unnamed: u64,
) -> u64
    requires { least ≤ most }
    ensures given { result ≡ number_or name.now least most unnamed (rows_of (found_of options.now)) }
    ensures least { least ≤ result }
    ensures most { result ≤ most }
{
    number(options, name)
        .unwrap_or(unnamed)
        .min(most)
        .max(least)
}

/// Returns true if the option `name`, which has no value, is given.
pub(crate) fn flag(options: &ArgMatches<'_>, name: &str) -> bool
    ensures { result ≡ flag_given name.now (rows_of (found_of options.now)) }
{
    matches!(text(options, name), Some("true"))
}

/// Returns the text that is given for an option.
pub(crate) fn text<'a>(options: &ArgMatches<'a>, name: &str) -> Option<&'a str>
    ensures { option_map (λ text. text.now) result ≡ first_of name.now (rows_of (found_of options.now)) }
{
    options.get_str(name)
}

/// Returns the file to read that the options name.
pub(crate) fn file<'a>(options: &ArgMatches<'a>) -> Option<&'a str> {
    text(options, "file")
}

/// Returns the file of this name: none for `-`, which is standard input or output.
pub(crate) fn file_of<'a>(name: Option<&'a str>) -> Option<&'a str> {
    match name {
        Some(name) => { if name == "-" { None } else { Some(name) } }
        None => None,
    }
}

/// Returns the output file that the options name.
pub(crate) fn output<'a>(options: &ArgMatches<'a>) -> Option<&'a str> {
    file_of(text(options, "output"))
}

// ---- moments and wall-clock times

/// Returns the moment in an option's value, in nanoseconds.
pub(crate) fn moment(options: &ArgMatches<'_>, name: &str) -> Result<Option<u64>, MomentFault>
    ensures { result ≡ moment_given name.now (rows_of (found_of options.now)) }
{
    match text(options, name) {
        None => Ok(None),
        Some(text) => match text.parse::<Moment>() {
            Ok(moment) => Ok(Some(moment.0)),
            Err(why) => Err(why),
        },
    }
}

/// Returns the bound in an option's value.
pub(crate) fn bound(options: &ArgMatches<'_>, name: &str) -> Result<Option<When>, WhenFault>
    ensures { result ≡ bound_given name.now (rows_of (found_of options.now)) }
{
    match text(options, name) {
        None => Ok(None),
        Some(text) => match text.parse::<When>() {
            Ok(bound) => Ok(Some(bound)),
            Err(why) => Err(why),
        },
    }
}

/// Returns the value that was read from an option. If its text is not valid, writes a line to `errors` that begins with
/// `option`, and returns `None`.
pub(crate) fn parsed<T: Copy, F: Copy + Display>(
    read: Result<T, F>,
    option: &str,
    errors: Stderr,
) -> Option<T>
    ensures read { result ≡ result_ok read }
    ensures ok { IfSome result (λ value. read ≡ Ok value) }
    ensures none { result ≡ None → (value : T) → read ≡ Ok value → ⊥ }
{
    match read {
        Ok(given) => Some(given),
        Err(why) => {
            say_text(errors, &[Text(option), Text(" ")], why);
            None
        }
    }
}

/// Returns true unless both bounds are given, are of one kind (moments or wall-clock times), and `from` is after
/// `to`.
fn in_order(from: Option<When>, to: Option<When>) -> bool
    ensures { result ≡ in_order from to }
{
    match (from, to) {
        (Some(When::Moment(from)), Some(When::Moment(to))) => from <= to,
        (Some(When::Unix(from)), Some(When::Unix(to))) => from <= to,
        _ => true,
    }
}

/// Returns the bounds `--from` and `--to`. If one is not valid, or if they exclude every moment, writes a line to `errors`, and
/// returns `None`.
pub(crate) fn bounds_of(
    options: &ArgMatches<'_>,
    errors: Stderr,
) -> Option<(Option<When>, Option<When>)>
    ensures { result ≡ bounds_of (rows_of (found_of options.now)) }
{
    let from = parsed(bound(options, "from"), "--from:", errors)?;
    let to = parsed(bound(options, "to"), "--to:", errors)?;
    if !in_order(from, to) {
        say(errors, &[Text("--from must not be after --to")]);
        return None;
    }
    Some((from, to))
}
