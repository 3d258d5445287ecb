//! `pie what-if`: decides a history again with other parameters, and writes the other history or a comparison.
ghost use Rattle.std.specs.Prelude.{◌≡◌};
ghost use Rattle.clap.specs.Words.{found_of, rows_of};
ghost use Rattle.pie_commands.specs.Alterations.{alteration_of, checked_alteration, gain_given, other_with, time_given};

use crate::call::Call;
use crate::comparison::{Column, NO_REACTION, Table, comparison, fault_in_memory};
use crate::end::{End, end_of_page, end_with_fault};
use crate::files::{Output, Source};
use crate::json::JsonWriter;
use crate::line::Part::{Number, Text};
use crate::line::{say, say_parts, say_text};
use crate::options::{bound, flag, number, output as output_file, parsed, text};
use crate::params::warn_rounded;
use crate::progress::ProgressReader;
use clap::ArgMatches;
use pie_explain::ExplainFault;
use pie_params::Params;
use pie_trace::{
    Alteration, Omitted, OtherParams, TraceFault, WhatIfEnd, WhatIfFault, what_if as decide_again,
};
use pie_units::{OptionFault, When, gain_of, time_of};
use std::alloc::Global;
use std::io::{ErrorKind, Read, Stderr};

/// The message for options without a moment.
const NO_MOMENT: &str = "what-if needs --from MOMENT; see pie what-if --help";

/// The message for two forms of one output.
const ONE_FORM: &str =
    "--csv, --json and -o FILE cannot be combined: -o writes the other history, and no comparison";

/// The parameters of the control: the unchanged ones.
const UNCHANGED: OtherParams = OtherParams {
    target: None,
    t_update: None,
    max_burst: None,
    alpha: None,
    beta: None,
    mean_pkt: None,
    limit_bytes: None,
    mark_ecnth: None,
    dq_threshold: None,
};

/// Returns the gain of an option, in thousandths per second, if it is given.
fn gain(options: &ArgMatches<'_>, name: &str) -> Option<u64>
    ensures { result ≡ gain_given name.now (rows_of (found_of options.now)) }
{
    match number(options, name) {
        Some(gain) => Some(gain_of(gain.min(32))),
        None => None,
    }
}

/// Returns the time of an option, in nanoseconds, if it is given.
fn time(options: &ArgMatches<'_>, name: &str) -> Result<Option<u64>, OptionFault>
    ensures { result ≡ time_given name.now (rows_of (found_of options.now)) }
{
    match text(options, name) {
        Some(text) => match time_of(text) {
            Ok(time) => Ok(Some(time)),
            Err(why) => Err(why),
        },
        None => Ok(None),
    }
}

/// Returns the parameters in these options, with these times.
fn other_with(
    options: &ArgMatches<'_>,
    target: Option<u64>,
    t_update: Option<u64>,
    max_burst: Option<u64>,
) -> OtherParams
    ensures { result ≡ other_with target t_update max_burst (rows_of (found_of options.now)) }
{
    OtherParams {
        target,
        t_update,
        max_burst,
        alpha: gain(options, "alpha"),
        beta: gain(options, "beta"),
        mean_pkt: number(options, "mean_pkt"),
        limit_bytes: number(options, "limit"),
        mark_ecnth: number(options, "mark_ecnth"),
        dq_threshold: number(options, "dq_threshold"),
    }
}

/// Returns the alteration with these parameters if each is in its range. Otherwise writes a line to `errors`, and returns
/// `None`.
fn checked_alteration(from: When, params: OtherParams, errors: Stderr) -> Option<Alteration>
    ensures { result ≡ checked_alteration from params }
{
    match Params::check(params.over(Params::default_profile().raw())) {
        Ok(_) => Some(Alteration { from, params }),
        Err(why) => {
            say_text(errors, &[], why);
            None
        }
    }
}

/// Returns the alteration of these options. If they are not valid together, writes a line to `errors` and returns `None`.
#[tactic(auto, unfolding(crate::specs::Alterations::alteration_of))]
fn alteration_of(options: &ArgMatches<'_>, errors: Stderr) -> Option<Alteration>
    ensures { result ≡ alteration_of (rows_of (found_of options.now)) }
{
    let from = parsed(bound(options, "from"), "--from:", errors)?;
    let Some(from) = from else {
        say(errors, &[Text(NO_MOMENT)]);
        return None;
    };
    let target = parsed(time(options, "target"), "--target", errors)?;
    let t_update = parsed(time(options, "tupdate"), "--tupdate", errors)?;
    let max_burst = parsed(time(options, "max_burst"), "--max_burst", errors)?;
    checked_alteration(
        from,
        other_with(options, target, t_update, max_burst),
        errors,
    )
}

/// The output that the options request.
#[derive(Clone, Copy)]
enum Wanted {
    /// The other history: to a file, or if it is wanted `whole`, to standard output.
    Other { whole: bool },
    /// A comparison.
    Comparison(Table),
}

/// Returns the output that the options request, if it is one.
fn output_wanted(options: &ArgMatches<'_>) -> Option<Wanted> {
    let (csv, json) = (flag(options, "csv"), flag(options, "json"));
    match (text(options, "output"), csv, json) {
        (Some(_), false, false) => Some(Wanted::Other {
            whole: output_file(options).is_none(),
        }),
        (None, false, false) => Some(Wanted::Comparison(Table::Words)),
        (None, true, false) => Some(Wanted::Comparison(Table::Csv)),
        (None, false, true) => Some(Wanted::Comparison(Table::Json)),
        _ => None,
    }
}

/// Writes a line for the commands of each kind that the other history omits.
fn report_omitted(errors: Stderr, omitted: Omitted) {
    let kinds = [
        ("arrivals", omitted.arrivals),
        ("departures", omitted.departures),
        ("updates", omitted.updates),
        ("resets", omitted.resets),
        ("records params", omitted.changes),
    ];
    for (name, number) in kinds {
        if 0 < number {
            say_parts! { errors;
                Text("omitted "), Text(name), Text(", which the other history refuses at their place: "),
                Number(number)
            };
        }
    }
}

/// Returns the end of a history that was not decided again, by this reason. If the output was collected in memory, a failed
/// write is a lack of memory.
fn end_of(call: &Call<'_, '_>, is_in_memory: bool, why: WhatIfFault) -> End {
    match why {
        WhatIfFault::Trace(why) if is_in_memory => call.end_at_fault(fault_in_memory(why)),
        WhatIfFault::Trace(why) => call.end_at_fault(why),
        WhatIfFault::Differs { event } => {
            let _ = call.end_at_event(why, event);
            End::Failed
        }
        WhatIfFault::NoEvents => call.failed_by(why),
    }
}

/// Writes the other history of a text to `output`: while it is decided, or if it is wanted `whole`, once it is complete.
fn write_other(
    call: &Call<'_, '_>,
    alteration: &Alteration,
    whole: bool,
    text: ProgressReader<'_, Source<'_>>,
    output: &mut Output,
) -> End {
    let most = if whole { usize::MAX } else { 0 };
    let mut other = JsonWriter::new(call.alloc, output, false, most);
    let outcome = decide_other(call.alloc, text, &mut other, alteration);
    let page = other.into_withheld();
    match outcome {
        Ok(end) => {
            say(call.errors, &[Text(NO_REACTION)]);
            report_omitted(call.errors, end.omitted);
            end_of_page(&page, output)
        }
        Err(why) => end_of(call, whole, why),
    }
}

/// Decides a history again. (A function of its own is compiled once.)
#[inline(never)]
fn decide_other(
    alloc: Global,
    reader: ProgressReader<'_, Source<'_>>,
    other: &mut JsonWriter<'_>,
    alteration: &Alteration,
) -> Result<WhatIfEnd, WhatIfFault> {
    decide_again(alloc, reader, other, alteration)
}

/// Decides the history in `text` again, in memory. Stores the other history in `other`. Nothing is written to `output`.
fn decide_in_memory(
    call: &Call<'_, '_>,
    text: &[u8],
    alteration: &Alteration,
    output: &mut Output,
    other: &mut Vec<u8>,
) -> Result<WhatIfEnd, WhatIfFault> {
    let mut writer = JsonWriter::new(call.alloc, output, false, usize::MAX);
    let outcome = decide_other(call.alloc, call.reader_of(text), &mut writer, alteration);
    *other = writer.into_withheld();
    outcome
}

/// The texts of a comparison.
#[derive(Drop)]
struct Compared {
    text: Vec<u8>,
    control: Vec<u8>,
    other: Vec<u8>,
    page: Vec<u8>,
}

/// Writes the comparison of a history with its control and the other history to a page.
fn compare_text(
    call: &Call<'_, '_>,
    alteration: &Alteration,
    table: Table,
    output: &mut Output,
    compared: &mut Compared,
) -> Result<Result<(), ExplainFault>, WhatIfFault> {
    let control = Alteration {
        from: alteration.from,
        params: UNCHANGED,
    };
    let text = &compared.text;
    let control = decide_in_memory(call, text, &control, output, &mut compared.control)?;
    let end = decide_in_memory(call, text, alteration, output, &mut compared.other)?;
    let after = end.before.saturating_add(1);
    let columns = [
        Column {
            text,
            after: end.before,
            omitted: Omitted::default(),
        },
        Column {
            text: &compared.control,
            after,
            omitted: control.omitted,
        },
        Column {
            text: &compared.other,
            after,
            omitted: end.omitted,
        },
    ];
    Ok(comparison(call, columns, table, output, &mut compared.page))
}

/// Returns the end of a comparison, whose text is in `page` if it is complete.
fn end_of_comparison(
    call: &Call<'_, '_>,
    table: Table,
    outcome: Result<Result<(), ExplainFault>, WhatIfFault>,
    page: &[u8],
    output: &mut Output,
) -> End {
    let written = match outcome {
        Ok(written) => written,
        Err(why) => return end_of(call, true, why),
    };
    if !matches!(table, Table::Words) {
        say(call.errors, &[Text(NO_REACTION)]);
    }
    match written {
        Ok(()) => end_of_page(page, output),
        Err(ExplainFault::Trace(why)) => end_with_fault(call.errors, why),
        Err(why) => call.failed_by(why),
    }
}

/// Compares a history, which is read into memory, with its control and the other history.
fn compare(
    call: &Call<'_, '_>,
    alteration: &Alteration,
    table: Table,
    reader: ProgressReader<'_, Source<'_>>,
    output: &mut Output,
) -> End {
    let (alloc, mut reader) = (call.alloc, reader);
    let mut text = Vec::new(alloc);
    let read = reader.read_to_end(&mut text);
    drop(reader);
    if let Err(why) = read {
        return call.end_at_fault(match why.kind() {
            ErrorKind::OutOfMemory => TraceFault::Memory,
            _ => TraceFault::Read,
        });
    }
    let mut compared = Compared {
        text,
        control: Vec::new(alloc),
        other: Vec::new(alloc),
        page: Vec::new(alloc),
    };
    let outcome = compare_text(call, alteration, table, output, &mut compared);
    end_of_comparison(call, table, outcome, &compared.page, output)
}

/// `pie what-if`: decides the history or excerpt in the file that the options name, or in standard input, again with other
/// parameters from a moment on. With `-o` writes the other history, otherwise a comparison. An event that differs from
/// the rules, or options that are not valid, are a failure. Each error has a line on the error stream.
pub(crate) fn what_if(call: &Call<'_, '_>, output: &mut Output) -> End {
    let Some(alteration) = alteration_of(call.options, call.errors) else {
        return End::Failed;
    };
    let Some(wanted) = output_wanted(call.options) else {
        return call.failed(&[Text(ONE_FORM)]);
    };
    warn_rounded(call.options, call.errors);
    let Some(text) = call.open() else {
        return End::Unopened;
    };
    match wanted {
        Wanted::Other { whole } => write_other(call, &alteration, whole, text, output),
        Wanted::Comparison(table) => compare(call, &alteration, table, text, output),
    }
}
