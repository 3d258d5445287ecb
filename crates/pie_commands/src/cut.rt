//! `pie cut`: the selection by its options, and its end, of a history and of recorded steps of Linux.
ghost use Rattle.std.specs.Prelude.{◌≡◌, IfOk, IfSome};
ghost use Rattle.clap.specs.Words.{found_of, rows_of};
ghost use Rattle.pie_commands.specs.Cuts.{HasSome, chosen, pieces_of, moment_bound, step_pieces_of, within};

use crate::call::Call;
use crate::end::End;
use crate::files::{Output, Source};
use crate::line::Part::{Number, Text};
use crate::line::{parts, say};
use crate::options::{bounds_of, file, number, report_two};
use crate::progress::ProgressReader;
use crate::steps::cut_steps;
use clap::ArgMatches;
use pie_cut::{CutFault, Span, cut_every, last_number};
use pie_linux_history::{RowSpan, StepPieces, StepsFault, StepsFinding, count_rows};
use pie_units::When;
use std::io::Stderr;

/// The pieces to cut out of a text.
#[derive(Clone, Copy)]
pub(crate) enum Pieces {
    /// One part, of these events.
    Excerpt(Span),
    /// All events, in segments of this number of events.
    Every(u64),
    /// One part, of this number of the last events. The text is read twice.
    Last(u64),
}

/// The message for options that don't choose events in exactly one way.
const NO_PART: &str =
    "cut needs --from, --to or both; or --event N, with or without --around M; or --last N; or --every N; see pie cut --help";

/// The message for `--last` with an input that can't be read twice.
const NO_NAME: &str = "cut --last reads its input twice, so it needs a file";

/// The message for a bound that is a wall-clock time.
const NO_WALL_CLOCK: &str =
    "a text of pie-watch has moments since boot and no wall-clock times; see pie cut --help";

/// Returns the selection by these bounds, if there is one.
fn within(from: Option<When>, to: Option<When>) -> Option<Span>
    ensures { result ≡ within from to }
{
    match (from, to) {
        (None, None) => None,
        _ => Some(Span::between(from, to)),
    }
}

/// Returns the pieces if the options choose events in exactly one way.
fn chosen(
    event: Option<u64>,
    around: Option<u64>,
    last: Option<u64>,
    every: Option<u64>,
    span: Option<Span>,
) -> Option<Pieces>
    ensures chosen { result ≡ chosen event around last every span }
    ensures some { IfSome result HasSome }
{
    match (event, around, last, every, span) {
        (Some(event), more, None, None, None) => {
            Some(Pieces::Excerpt(Span::around(event, more.unwrap_or(0))))
        }
        (None, None, Some(many), None, None) => Some(Pieces::Last(many)),
        (None, None, None, Some(every), None) if every != 0 => Some(Pieces::Every(every)),
        (None, None, None, None, Some(span)) => Some(Pieces::Excerpt(span)),
        _ => None,
    }
}

/// Returns the pieces of these options. If they are not valid together, writes lines to `errors` and returns `None`.
#[tactic(auto, unfolding(crate::specs::Cuts::pieces_of))]
fn pieces_of(options: &ArgMatches<'_>, errors: Stderr) -> Option<Pieces>
    ensures chosen { result ≡ pieces_of (rows_of (found_of options.now)) }
    ensures some { IfSome result HasSome }
{
    let (from, to) = bounds_of(options, errors)?;
    let (event, around) = (number(options, "event"), number(options, "around"));
    let (last, every) = (number(options, "last"), number(options, "every"));
    let wanted = chosen(event, around, last, every, within(from, to));
    if wanted.is_none() {
        say(errors, &[Text(NO_PART)]);
        let given = [
            ("event", event.is_some()),
            ("last", last.is_some()),
            ("every", every.is_some()),
            ("from or --to", from.is_some() || to.is_some()),
        ];
        report_two(&given, errors);
        if around.is_some() && event.is_none() {
            say(errors, &[Text("--around needs --event")]);
        }
    }
    wanted
}

// ---- the pieces of recorded steps

/// Returns the moment of a bound, `unbounded` without one, and `None` for a wall-clock time.
fn moment_bound(bound: Option<When>, unbounded: u64) -> Option<u64>
    ensures { result ≡ moment_bound bound unbounded }
{
    match bound {
        None => Some(unbounded),
        Some(When::Moment(moment)) => Some(moment),
        Some(When::Unix(_)) => None,
    }
}

/// Returns the pieces of a text of recorded steps. Returns `None` if a bound is a wall-clock time, or for the last events.
fn step_pieces_of(pieces: Pieces) -> Option<StepPieces>
    ensures { result ≡ step_pieces_of pieces }
{
    let span = match pieces {
        Pieces::Every(every) => return Some(StepPieces::Every(every)),
        Pieces::Excerpt(span) => span,
        Pieces::Last(_) => return None,
    };
    match (moment_bound(span.from, 0), moment_bound(span.to, u64::MAX)) {
        (Some(from), Some(to)) => Some(StepPieces::Span(RowSpan {
            first: span.first,
            last: span.last,
            from,
            to,
        })),
        _ => None,
    }
}

// ---- the ends

/// Returns the end of a cut of a history with this result.
fn end_of(call: &Call<'_, '_>, outcome: Result<u64, CutFault>) -> End {
    match outcome {
        Ok(_) => End::Done,
        Err(CutFault::Trace(why)) => call.end_at_fault(why),
        Err(CutFault::Differs { event }) => call.end_at_event(CutFault::Differs { event }, event),
        Err(CutFault::NoEvents) => call.failed_by(CutFault::NoEvents),
    }
}

/// Returns the end of a cut of recorded steps with this result.
fn end_of_steps(call: &Call<'_, '_>, outcome: Result<(u64, StepsFinding), StepsFault>) -> End {
    match outcome {
        Ok((0, StepsFinding::Clean(_))) => call.failed_by(CutFault::NoEvents),
        Ok((_, StepsFinding::Clean(_))) => End::Done,
        Ok((_, StepsFinding::Differs { first, .. })) => {
            call.end_at_step(
                parts! {
                Text("event "), Number(first.event),
                Text(" is not what the rules give there, so what comes after it is not cut")
            },
                first,
            )
        }
        Err(why) => call.end_of_steps(None, file(call.options), why),
    }
}

/// Cuts these pieces out of a history.
fn cut_out(
    call: &Call<'_, '_>,
    reader: ProgressReader<'_, Source<'_>>,
    output: &mut Output,
    pieces: Pieces,
) -> Result<u64, CutFault>
    requires { HasSome pieces }
{
    let span = match pieces {
        Pieces::Every(every) => return cut_every(call.alloc, reader, output, every),
        Pieces::Excerpt(span) => span,
        Pieces::Last(many) => Span::last(u64::MAX, many),
    };
    pie_cut::cut(call.alloc, reader, output, span)
}

/// Returns the pieces as numbers of events: the last `many` events of the file that the options name, which is read for it.
/// If there is no file, or if it can't be read, writes a line to the error stream, and returns the end.
fn numbered(call: &Call<'_, '_>, pieces: Pieces) -> Result<Pieces, End>
    requires { HasSome pieces }
    ensures { IfOk result HasSome }
{
    let Pieces::Last(many) = pieces else {
        return Ok(pieces);
    };
    let name = file(call.options);
    if matches!(name, None | Some("-")) {
        return Err(call.failed(&[Text(NO_NAME)]));
    }
    let (watched, is_steps) = match call.open_either(None, name, true) {
        Ok(opened) => opened,
        Err(end) => return Err(end),
    };
    let last = if is_steps {
        count_rows(call.alloc, watched)
    } else {
        last_number(call.alloc, watched)
    };
    match last {
        Ok(number) => Ok(Pieces::Excerpt(Span::last(number, many))),
        Err(why) => Err(call.end_at_fault(why)),
    }
}

/// `pie cut`: cuts the pieces that the options choose out of the text in the file that they name, or in standard input.
pub(crate) fn cut(call: &Call<'_, '_>, output: &mut Output) -> End {
    let Some(pieces) = pieces_of(call.options, call.errors) else {
        return End::Failed;
    };
    let pieces = match numbered(call, pieces) {
        Ok(pieces) => pieces,
        Err(end) => return end,
    };
    let (watched, is_steps) = match call.open_either(None, file(call.options), true) {
        Ok(opened) => opened,
        Err(end) => return end,
    };
    match (is_steps, step_pieces_of(pieces)) {
        (false, _) => end_of(call, cut_out(call, watched, output, pieces)),
        (true, Some(chosen)) => {
            end_of_steps(call, cut_steps(call.alloc, watched, output, chosen))
        }
        (true, None) => {
            drop(watched);
            call.failed(&[Text(NO_WALL_CLOCK)])
        }
    }
}
