//! Calls that write, for valid texts and others: if a writer's flush fails, each call reports it. No clause states that a writer is flushed, and the
//! program's writer needs no flush.

use pie_book::{Answer, Command, Event, Opening};
use pie_explain::{EventChoice, EventRecords, ExplainFault, Explained, Report, Selection, explain};
use pie_params::{Elements, Params};
use pie_record::Page;
use pie_trace::{TraceFault, migrate, run_trace, run_trace_within, write_history};
use pie_units::{opening_for, write_opening};
use std::alloc::{AllocError, Global};
use std::io;
use std::io::{ErrorKind, Write};

/// A writer that accepts everything, and whose flush fails if `flush_fails`.
#[derive(Drop)]
pub(crate) struct Sink {
    flush_fails: bool,
}

impl Sink {
    pub(crate) fn new(flush_fails: bool) -> Sink {
        Sink { flush_fails }
    }
}

impl Write for Sink {
    fn write(&mut self, buf: &[u8]) -> io::Result<usize> {
        Ok(buf.len())
    }

    fn flush(&mut self) -> io::Result<()> {
        if self.flush_fails {
            Err(io::Error::from(ErrorKind::BrokenPipe))
        } else {
            Ok(())
        }
    }
}

/// A trace, a history, and a text that is neither.
const TRACE: &[u8] = b"open,0,4,16,100\narrive,1,10,7,1500,ect0,0\ndepart,2,25\n";

pub(crate) const HISTORY: &[u8] =
    b"open,0,4,16,100\narrive,1,10,7,1500,ect0,0,enqueue\ndepart,2,25,left,7,1500,ect0\n";

const FAULT: &[u8] = b"open,0,4,16,100\ndep\n";

/// Returns the opening of a rolling book with the default parameters and the usual elements, whose ring and event log hold
/// four.
fn opening() -> Opening {
    opening_for(4, Elements::usual(), Params::default_profile())
}

/// A call that writes.
#[derive(Clone, Copy)]
pub(crate) enum Writes {
    Run,
    RunWithin,
    Migrate,
    Explain,
    Opening,
    History,
}

/// All of them, with their names in the output.
pub(crate) const WRITES: [(Writes, &str); 6] = [
    (Writes::Run, "run_trace_flushes"),
    (Writes::RunWithin, "run_trace_within_flushes"),
    (Writes::Migrate, "migrate_flushes"),
    (Writes::Explain, "explain_flushes"),
    (Writes::Opening, "write_opening_flushes"),
    (Writes::History, "write_history_flushes"),
];

/// Returns true if a call reports that the writer failed.
fn is_write(fault: Option<TraceFault>) -> bool {
    matches!(fault, Some(TraceFault::Write))
}

fn explained(alloc: Global, text: &[u8], writer: &mut Sink) -> bool {
    let report = EventRecords { by_wall: false };
    let answer = explain(alloc, text, writer, Selection::of(EventChoice::All), report);
    matches!(answer, Err(ExplainFault::Trace(TraceFault::Write)))
}

fn written(alloc: Global, writer: &mut Sink) -> bool {
    let event = Event {
        caller: 2,
        command: Command::Depart { moment: 1 },
        answer: Answer::Empty,
    };
    event.fits() && is_write(write_history(alloc, writer, &opening(), &[event]).err())
}

impl Writes {
    /// Returns true if the run reports that the writer failed. (A run of at most one record meets a text that is
    /// too long.)
    fn fails(self, alloc: Global, text: &[u8], writer: &mut Sink) -> bool {
        match self {
            Writes::Run => is_write(run_trace(alloc, text, writer).err()),
            Writes::RunWithin => is_write(run_trace_within(alloc, text, writer, 1).err()),
            Writes::Migrate => is_write(migrate(alloc, text, writer).err()),
            Writes::Explain => explained(alloc, text, writer),
            Writes::Opening => write_opening(&opening(), writer).is_err(),
            Writes::History => written(alloc, writer),
        }
    }

    /// Returns true if the call reports a failed write exactly if the flush fails.
    fn reports(self, alloc: Global, text: &[u8]) -> bool {
        let fails = self.fails(alloc, text, &mut Sink::new(true));
        fails && !self.fails(alloc, text, &mut Sink::new(false))
    }

    /// Tests this for a trace or a history, and for a text that is neither.
    pub(crate) fn reports_its_flush(self, alloc: Global) -> bool {
        let whole = match self {
            Writes::Run | Writes::RunWithin => TRACE,
            _ => HISTORY,
        };
        self.reports(alloc, whole) && self.reports(alloc, FAULT)
    }
}

/// A writer that accepts nothing, and counts its flushes.
#[derive(Drop)]
struct Refusing {
    flushes: u64,
}

impl Write for Refusing {
    fn write(&mut self, _buf: &[u8]) -> io::Result<usize> {
        Err(io::Error::from(ErrorKind::BrokenPipe))
    }

    fn flush(&mut self) -> io::Result<()> {
        self.flushes = self.flushes.saturating_add(1);
        Ok(())
    }
}

/// Tests that a run flushes its writer once, although the write before it failed, and reports the failure.
pub(crate) fn failed_writes_are_flushed(alloc: Global) -> bool {
    let mut writer = Refusing { flushes: 0 };
    let fault = run_trace(alloc, TRACE, &mut writer).err();
    is_write(fault) && writer.flushes == 1
}

/// A report that runs out of memory, at an event and at its end.
#[derive(Drop)]
struct NoMemory;

impl Report for NoMemory {
    type State = ();

    ghost use Rattle.std.specs.Prelude.{⊤};

    ghost shows = { λ it state all. ⊤ };

    ghost so_far = { λ it all text. ⊤ };

    ghost whole = { λ it all text. ⊤ };

    fn is_by_kind(&self) -> bool {
        false
    }

    #[tactic(auto, using(pie_explain::proofs::ReportFacts::ended))]
    fn begin(&self, _page: &mut Page) -> Result<(), AllocError> {
        Ok(())
    }

    fn report_event(
        &self,
        _state: &mut (),
        _explained: &Explained,
        _page: &mut Page,
    ) -> Result<(), AllocError> {
        Err(AllocError)
    }

    fn end(&self, _state: &(), _page: &mut Page) -> Result<(), AllocError> {
        Err(AllocError)
    }
}

/// Returns true if the explanation of a text by this report is out of memory, and flushes its writer once.
fn is_flushed(alloc: Global, text: &[u8]) -> bool {
    let mut writer = Refusing { flushes: 0 };
    let answer = explain(
        alloc,
        text,
        &mut writer,
        Selection::of(EventChoice::All),
        NoMemory,
    );
    matches!(answer, Err(ExplainFault::Trace(TraceFault::Memory))) && writer.flushes == 1
}

/// Tests that an explanation without memory at an event, or at its end, flushes its writer once.
pub(crate) fn explanations_are_flushed(alloc: Global) -> bool {
    is_flushed(alloc, HISTORY) && is_flushed(alloc, b"open,0,4,16,100\n")
}
