//! The decision of the rules on one event of a text, whatever the text records there.
ghost use Rattle.std.specs.Prelude.{◌≡◌, ◌+◌, List, Option, IfOk, IfSome, true, false};
ghost use Rattle.pie_book.specs.Core.{Represents, core_after};
ghost use Rattle.pie_event.specs.declared.{command.Event.Event, opening.Opening.Opening};
ghost use Rattle.pie_record.specs.declared.{fault.TraceFault.TraceFault, history_record.Line.Line, history_reader.ReaderState.TheVariants.Going};
ghost use Rattle.pie_record.specs.{HistoryLines.is_event, Text.records_of};
ghost use Rattle.pie_audit.specs.Replay.{AuditsFrom, difference_from, Origin, RepresentsAfter, count_after, Replays, next_number, Start};
ghost use Rattle.pie_explain.specs.DecidedEvent.{DecidesAfter, DecidesEvent, ReadsTo, decision_at, decision_by, result_after, wait_if_decided};

use crate::explanation::Explained;
use pie_audit::{HistoryLines, Replay, replay_text};
use pie_book::{Command, Core, Event, Refusal};
use pie_event::Setter;
use pie_record::{Clock, Line, TraceFault};
use std::alloc::Global;
use std::io::Read;

/// The decision of the rules at the place of an event (this project's own).
#[derive(Clone, Copy)]
pub enum EventDecision {
    /// The event with the answer of the rules, and the numbers before and after it.
    Answered(Explained),
    /// The rules refuse the command at this place, so no event is possible there.
    Refused(Refusal),
    /// The new parameters are out of their ranges, so the event cannot be made.
    OutOfRange,
}

/// One event of a text, and the decision of the rules at its place (this project's own).
#[derive(Clone, Copy)]
pub struct DecidedEvent {
    /// The event as the text records it: `Valid` or `Invalid`.
    pub recorded: Line,
    /// The decision of the rules.
    pub decision: EventDecision,
}

/// Returns true if the line is an event.
fn is_event(line: &Line) -> bool
    ensures { result ≡ is_event line.now }
{
    matches!(line, Line::Valid(_) | Line::Invalid(_))
}

/// Returns true if no event so far differs and the next event has this number.
fn is_next(replay: &Replay, number: u64) -> bool
    ensures agree { result ≡ true → replay.now.auditor.differs ≡ None }
    ensures next { (origin : Origin) (lines : List Line) → AuditsFrom origin replay.now.auditor lines → result ≡ true
        → number ≡ count_after origin lines + 1 }
    ensures other { (origin : Origin) (lines : List Line) → AuditsFrom origin replay.now.auditor lines → result ≡ false
        → next_number (difference_from origin lines) (count_after origin lines) ≡ Some number → ⊥ }
{
    match replay.next_number() {
        Some(next) => next == number,
        None => false,
    }
}

/// Reads lines into `line` and decides their events again, up to the event with this number. Returns true if `line` is
/// this event: it is then not yet decided. Returns false if there is none, or an event before it differs.
#[tactic(auto, using(crate::proofs::DecidedFacts::passed_none))]
fn read_to<R: Read + Drop>(
    lines: &mut HistoryLines<R>,
    replay: &mut Replay,
    number: u64,
    line: &mut Line,
) -> Result<bool, TraceFault>
    requires { lines.old.course ≡ Going }
    ensures reads { (start : Start) (origin : Origin) (first : List Line) → Replays start origin first replay.old.auditor replay.old.set_by
        → IfSome lines.old.remaining_lines (λ all. ReadsTo start origin first all number replay.new.auditor replay.new.set_by line.new result) }
    ensures agree { IfOk result (λ reached. reached ≡ true → replay.new.auditor.differs ≡ None) }
{
    'lines: while lines.read(line)? {
        if is_event(line) && is_next(replay, number) {
            return Ok(true);
        }
        replay.feed(line);
    }
    Ok(false)
}

/// Returns the time in the queue of the packet that departs if the rules decide the command at the effective moment
/// `now`, or 0 if none departs.
fn wait_if_decided(core: &Core, command: &Command, now: u64) -> u64
    ensures { result ≡ wait_if_decided core.now command.now now }
{
    match (command, core.waiting(0)) {
        (Command::Depart { .. }, Some(oldest)) => now.saturating_sub(oldest.since.units()),
        _ => 0,
    }
}

/// Decides an event with this number again. `set_by` is the event that last set the probability, and `clock` the last
/// clock record. The recorded answer is ignored.
fn decide(
    core: &mut Core,
    number: u64,
    event: &Event,
    set_by: Setter,
    clock: Option<Clock>,
) -> EventDecision
    ensures { (origin : Origin) (events : List Event) → RepresentsAfter origin core.old events
        → result ≡ decision_by origin events number event.now set_by clock (result_after origin events event.now.command) }
{
    let mut explained = Explained::begin(core, number, event, set_by, clock);
    let waited = wait_if_decided(core, &event.command, explained.explanation.moment);
    match core.step(event.caller, event.command) {
        Ok(answer) => {
            explained.explanation.event.answer = answer;
            explained.explanation.waited = waited;
            explained.after = core.registers();
            explained.delay = core.delay();
            EventDecision::Answered(explained)
        }
        Err(why) => EventDecision::Refused(why),
    }
}

/// Decides the event of a line again after the lines that a replay has read.
fn decide_line(replay: Replay, number: u64, line: &Line) -> EventDecision
    requires { replay.auditor.differs ≡ None }
    ensures { (start : Start) (origin : Origin) (lines : List Line) → Replays start origin lines replay.auditor replay.set_by
        → number ≡ count_after origin lines + 1 → result ≡ decision_at start origin lines line.now }
{
    match line {
        Line::Valid(event) => {
            let (set_by, clock) = (replay.set_by, replay.auditor.clock());
            let mut core = replay.auditor.into_core();
            let decision = decide(&mut core, number, event, set_by, clock);
            drop(core);
            decision
        }
        Line::Invalid(_) | Line::Note | Line::Clock(_) => {
            drop(replay);
            EventDecision::OutOfRange
        }
    }
}

/// Reads the remaining lines up to the event with this number, and decides it again. `replay` has read the lines before.
fn decide_after<R: Read + Drop>(
    mut lines: HistoryLines<R>,
    mut replay: Replay,
    number: u64,
) -> Result<Option<DecidedEvent>, TraceFault>
    requires { lines.course ≡ Going }
    ensures { (start : Start) (origin : Origin) (first : List Line) → Replays start origin first replay.auditor replay.set_by
        → IfSome lines.remaining_lines (λ all. DecidesAfter start origin first all number result) }
{
    let mut line = Line::Note;
    let reached = read_to(&mut lines, &mut replay, number, &mut line);
    drop(lines);
    match reached {
        Ok(true) => Ok(Some(DecidedEvent {
            recorded: line,
            decision: decide_line(replay, number, &line),
        })),
        Ok(false) => {
            drop(replay);
            Ok(None)
        }
        Err(why) => {
            drop(replay);
            Err(why)
        }
    }
}

/// Reads a text up to the event with this number, and returns the event with the decision of the rules at its place,
/// whatever the text records there. So if `audit` finds that this event differs, the decision is the right answer.
/// Returns `None` if the text has no event with this number, or if an event before it differs.
///
/// The decision is computed from the core of the text's beginning, as by `explain`. If a history leads to the numbers of
/// an excerpt's preamble, the decision is that of the whole history.
///
/// # Errors
///
/// Returns the first fault of the text up to the event, or `Read` or `Memory`.
pub fn decide_event<R: Read + Drop>(
    alloc: Global,
    reader: R,
    number: u64,
) -> Result<Option<DecidedEvent>, TraceFault>
    ensures decides { IfSome (R.remaining reader) (λ text. DecidesEvent (records_of text) number result) }
{
    match replay_text(alloc, reader) {
        Ok(begun) => decide_after(begun.lines, begun.replay, number),
        Err(why) => Err(why),
    }
}
