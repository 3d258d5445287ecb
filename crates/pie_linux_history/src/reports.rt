//! Explanations and reports of a text of recorded steps.
ghost use Rattle.std.specs.Prelude.{◌≡◌, [], ◌++◌, ◌&&◌, ℕ, Err, Some, IfErr, IfOk, IfSome, IsOk, List, None, Ok, OnOk, Option, false, option_map};
ghost use Rattle.std.specs.Io.KnownBytes.{Appends};
ghost use Rattle.std.specs.List.{cons_option, filter_map};
ghost use Rattle.pie_explain.specs.{Report.Extends, Report.Grows, Selection.is_from, Selection.is_to};
ghost use Rattle.pie_record.specs.Text.{records_of};
ghost use Rattle.pie_linux_history.specs.declared.explained.ExplainedPacket.{ExplainedPacket};
ghost use Rattle.pie_linux_history.specs.{Audit.Ends, Audit.has_failed, Audit.is_failure, Audit.outcome_of, Reports.IsReport, Reports.IsWoven, Reports.ReportsEvents, Reports.ReportsPackets, Reports.ReportsThese, Reports.Writes, Reports.explained_packet, Reports.is_lost_or_marked, Reports.packet_if, Reports.selected, Reports.selects, Reports.texts_before, Reports.texts_beside};

use crate::columns::out_of_memory;
use crate::decided::DecidedStep;
use crate::event::{explained_of, tag_of};
use crate::explained::{
    DecidedPacket, ExplainedPacket, Fate, PacketReport, PacketWords, is_marked,
};
use crate::fault::StepsFault;
use crate::queues::Queues;
use crate::row::field_text;
use crate::text::{RowReport, StepsFinding, Text};
use crate::updates::QueuesUpdates;
use pie_explain::{EventChoice, Explained, Report, Selection, is_from, is_to};
use pie_record::{Page, TraceFault};
use std::alloc::{AllocError, Global};
use std::io::{Read, Write};

/// The result of explanations.
#[derive(Clone, Copy)]
pub struct StepsExplained {
    /// The number of explained packets or events.
    pub count: u64,
    /// The finding of the audit. A step that differs is not explained, nor are the later steps of its queue up to the queue's next
    /// row `init` or `resume`.
    pub finding: StepsFinding,
}

/// Returns true if the bounds contain the moment of a step. A step has no wall-clock time.
fn is_within(selection: &Selection, moment: u64) -> bool
    ensures { result ≡ (is_from selection.now.from moment None && is_to selection.now.to moment None) }
{
    is_from(selection.from, moment, None) && is_to(selection.to, moment, None)
}

/// Writes the page out. Returns the outcome of the rows, or the first failure: of the text after the last row, or of the writer.
fn finish<W: Write>(
    outcome: Result<StepsFinding, StepsFault>,
    ended: Result<(), AllocError>,
    page: &mut Page,
    writer: &mut W,
) -> Result<StepsFinding, StepsFault>
    ensures same { has_failed result ≡ false → result ≡ outcome }
    ensures written { IfOk result (λ _. IsOk ended × Appends (W.contents writer.old) (W.contents writer.new) page.old) }
{
    match (outcome, ended, page.finish(writer)) {
        (Ok(_), Err(_), _) => Err(out_of_memory()),
        (Ok(_), Ok(()), Err(_)) => Err(StepsFault::Trace(TraceFault::Write)),
        _ => outcome,
    }
}

// ---- events

/// Returns the explanation of a step, if reports have its kind, and it is selected.
fn selected(selection: &Selection, one: &DecidedStep) -> Option<Explained>
    ensures { result ≡ selected selection.now one.now }
{
    let explained = explained_of(one)?;
    let explanation = &explained.explanation;
    let is_chosen = selection
        .which
        .chooses(explanation.number, &explanation.event);
    if is_chosen && is_within(selection, explanation.moment) {
        Some(explained)
    } else {
        None
    }
}

/// Returns true if a packet was dropped on arrival, or marked.
fn is_lost_or_marked(fate: Fate) -> bool
    ensures { result ≡ is_lost_or_marked fate }
{
    match fate {
        Fate::Arrival(cause) => is_marked(cause) || !cause.is_queued(),
        _ => false,
    }
}

/// The texts that a report has beside those of its events.
#[derive(Clone, Copy, Debug, PartialEq, Eq)]
pub enum Beside {
    /// None.
    Nothing,
    /// An explanation in words of each packet that was dropped on arrival or marked, after its event.
    Packets,
    /// The name of the queue, as an additional last field of each record of CSV.
    Queue,
}

/// Adds a field of CSV to a page.
#[tactic(auto, using(crate::proofs::ReportFacts::extends_by))]
fn push_field(field: &[u8], page: &mut Page) -> Result<(), AllocError>
    ensures { OnOk result (Extends page.old page.new) }
{
    let text = field_text(page.allocator(), field)?;
    page.push(&text[..text.len().saturating_sub(1)])
}

/// Adds a record of CSV to a page, with one more field before its line feed.
fn push_with_field(record: &[u8], field: &[u8], page: &mut Page) -> Result<(), AllocError>
    ensures { OnOk result (Grows (IsWoven 1 record.now) [] page.old page.new) }
{
    let end = record.len().saturating_sub(1);
    page.push(&record[..end])?;
    page.push(b",")?;
    push_field(field, page)?;
    page.push(&record[end..])
}

/// Adds a record to a page.
fn push_record(record: &[u8], page: &mut Page) -> Result<(), AllocError>
    ensures { OnOk result (Grows (IsWoven 0 record.now) [] page.old page.new) }
{
    page.push(record)
}

/// Adds a record to a page, and after it the explanation of a packet of its step in words.
fn push_with_packet(
    record: &[u8],
    one: &DecidedStep,
    packet: DecidedPacket,
    page: &mut Page,
) -> Result<(), AllocError>
    ensures { OnOk result (Grows (IsWoven 1 record.now) [] page.old page.new) }
{
    page.push(record)?;
    PacketWords.explain_packet(&explained_packet(one, packet), page)
}

/// The report of the selected events.
#[derive(Drop)]
struct EventRows<P: Report> {
    report: P,
    beside: Beside,
    selection: Selection,
}

/// The state of a report of events between two rows.
#[derive(Drop)]
struct EventState<S: Drop> {
    state: S,
    updates: QueuesUpdates,
    count: u64,
    /// The memory of the text of an event.
    record: Page,
}

impl<P: Report> EventRows<P> {
    /// Writes the text before the first event.
    fn begin(&self, alloc: Global, page: &mut Page) -> Result<EventState<P::State>, AllocError>
        ensures { IfOk result (λ state. Grows (ReportsEvents (P.shows self.now.report state.state) (P.so_far self.now.report) self.now.beside self.now.selection state.count [])
            [] page.old page.new) }
    {
        let mut record = Page::new(alloc);
        let state = self.report.begin(&mut record)?;
        self.put_header(record.as_bytes(), page)?;
        Ok(EventState {
            state,
            updates: QueuesUpdates::new(alloc),
            count: 0,
            record,
        })
    }

    /// Adds the text before the first event, with the text beside it.
    fn put_header(&self, record: &[u8], page: &mut Page) -> Result<(), AllocError>
        ensures { OnOk result (Grows (IsWoven (texts_before self.now.beside) record.now) [] page.old page.new) }
    {
        match self.beside {
            Beside::Queue => push_with_field(record, b"queue", page),
            Beside::Nothing | Beside::Packets => push_record(record, page),
        }
    }

    /// Adds the text of the event of a selected step, with the text beside it.
    fn put(&self, one: &DecidedStep, record: &[u8], page: &mut Page) -> Result<(), AllocError>
        ensures { OnOk result (Grows (IsWoven (texts_beside self.now.beside one.now.arrival) record.now) [] page.old page.new) }
    {
        match (self.beside, one.arrival) {
            (Beside::Queue, _) => push_with_field(record, one.queue.bytes(), page),
            (Beside::Packets, Some(packet)) if is_lost_or_marked(packet.fate) => {
                push_with_packet(record, one, packet, page)
            }
            _ => push_record(record, page),
        }
    }
}

impl<P: Report> RowReport for EventRows<P> {
    type State = EventState<P::State>;

    ghost shows = { λ it state. ReportsEvents (P.shows it.report state.state) (P.so_far it.report) it.beside it.selection state.count };

    fn report_row(
        &self,
        state: &mut EventState<P::State>,
        queues: &Queues,
        page: &mut Page,
    ) -> Result<(), AllocError> {
        let Some(one) = state.updates.add(queues, queues.decided())? else {
            return Ok(());
        };
        let Some(explained) = selected(&self.selection, &one) else {
            return Ok(());
        };
        state.count = state.count.saturating_add(1);
        state.record.clear();
        self.report
            .report_event(&mut state.state, &explained, &mut state.record)?;
        self.put(&one, state.record.as_bytes(), page)
    }
}

/// Writes a report about the selected events of a text of recorded steps, up to the first fault. With a `queue` only the steps
/// of this queue are decided and reported. Returns the number of events and the finding.
///
/// The text is `whole` of the report for the explanations (`explained_of`) of the selected steps, in order, with the texts
/// `beside` these within it.
///
/// # Errors
///
/// As [`audit`](crate::audit), and `Write` if the writer fails.
pub fn report<R: Read + Drop, W: Write, P: Report>(
    alloc: Global,
    input: R,
    output: &mut W,
    selection: Selection,
    queue: Option<&str>,
    report: P,
    beside: Beside,
) -> Result<StepsExplained, StepsFault>
    ensures reports { IfOk result (λ explained. Ends
        (λ rows. Writes (IsReport (P.whole report) beside selection explained.count rows) (W.contents output.old) (W.contents output.new))
        (outcome_of (option_map (λ name. name.now) queue.entry)) (option_map records_of (R.remaining input)) (Ok explained.finding)) }
    ensures refuses { IfErr result (λ why. is_failure why ≡ false → IfSome (R.remaining input)
        (λ text. (outcome_of (option_map (λ name. name.now) queue.entry) (records_of text)).1 ≡ Err why)) }
{
    let mut page = Page::new(alloc);
    let rows = EventRows {
        report,
        beside,
        selection,
    };
    let mut state = match rows.begin(alloc, &mut page) {
        Ok(state) => state,
        Err(_) => return Err(out_of_memory()),
    };
    let mut text = match Text::begin(alloc, input, queue) {
        Ok(text) => text,
        Err(why) => return Err(why),
    };
    let outcome = text.decide(&rows, &mut state, &mut page, output);
    let ended = rows.report.end(&state.state, &mut page);
    match finish(outcome, ended, &mut page, output) {
        Ok(finding) => Ok(StepsExplained {
            count: state.count,
            finding,
        }),
        Err(why) => Err(why),
    }
}

// ---- packets

/// Returns true if a packet of a step is selected.
fn selects(selection: &Selection, one: &DecidedStep, packet: &DecidedPacket) -> bool
    ensures { result ≡ selects selection.now one.now packet.now }
{
    let is_chosen = match (selection.which, packet.fate) {
        (EventChoice::All, _) => true,
        (EventChoice::After(first), _) => first < one.event,
        (EventChoice::Number(event), _) => event == one.event,
        (EventChoice::Tag(tag), Fate::Arrival(_)) => tag == tag_of(one),
        (EventChoice::Marked, Fate::Arrival(cause)) => is_marked(cause),
        (EventChoice::Lost, Fate::Arrival(cause)) => !cause.is_queued(),
        (EventChoice::Lost, _) => true,
        (EventChoice::Tag(_), _) | (EventChoice::Marked, _) => false,
    };
    is_chosen && is_within(selection, one.moment)
}

/// Returns the explanation of a packet of a step.
fn explained_packet(one: &DecidedStep, packet: DecidedPacket) -> ExplainedPacket
    ensures { result ≡ explained_packet one.now packet }
{
    ExplainedPacket {
        event: one.event,
        queue: one.queue,
        step: one.step.number,
        moment: one.step.moment,
        flow: one.step.flow,
        packet,
    }
}

/// The report of the selected packets.
#[derive(Drop)]
struct PacketRows<P: PacketReport> {
    report: P,
    selection: Selection,
}

impl<P: PacketReport> PacketRows<P> {
    /// Explains a packet of a step if it is selected.
    fn report_packet(
        &self,
        count: &mut u64,
        one: &DecidedStep,
        packet: DecidedPacket,
        page: &mut Page,
    ) -> Result<(), AllocError>
        ensures { (all : List ExplainedPacket) (text : List ℕ) → ReportsThese (P.explains self.now.report) all count.old text
            → OnOk result (Grows (ReportsThese (P.explains self.now.report) (all ++ cons_option (packet_if self.now.selection one.now packet) []) count.new) text page.old page.new) }
    {
        if !selects(&self.selection, one, &packet) {
            return Ok(());
        }
        *count = count.saturating_add(1);
        self.report
            .explain_packet(&explained_packet(one, packet), page)
    }

    /// Explains the selected ones of the packets that waited and that a step dropped.
    fn report_lost(
        &self,
        count: &mut u64,
        one: &DecidedStep,
        lost: &[DecidedPacket],
        page: &mut Page,
    ) -> Result<(), AllocError>
        ensures { (all : List ExplainedPacket) (text : List ℕ) → ReportsThese (P.explains self.now.report) all count.old text
            → OnOk result (Grows (ReportsThese (P.explains self.now.report) (all ++ filter_map (packet_if self.now.selection one.now) lost.now) count.new) text page.old page.new) }
    {
        'lost: for place in 0..lost.len() {
            self.report_packet(count, one, lost[place], page)?;
        }
        Ok(())
    }
}

impl<P: PacketReport> RowReport for PacketRows<P> {
    type State = u64;

    ghost shows = { λ it. ReportsPackets (P.explains it.report) it.selection };

    fn report_row(
        &self,
        state: &mut u64,
        queues: &Queues,
        page: &mut Page,
    ) -> Result<(), AllocError> {
        let Some(one) = queues.decided() else {
            return Ok(());
        };
        self.report_lost(state, &one, &queues.lost, page)?;
        match one.arrival {
            Some(packet) => self.report_packet(state, &one, packet, page),
            None => Ok(()),
        }
    }
}

/// Explains the selected packets of a text of recorded steps, up to the first fault: those that arrived, and those that waited
/// and that a change or a reset dropped. With a `queue` only the steps of this queue are decided. Returns the number of packets
/// and the finding.
///
/// # Errors
///
/// As [`audit`](crate::audit), and `Write` if the writer fails.
pub fn explain<R: Read + Drop, W: Write, P: PacketReport>(
    alloc: Global,
    input: R,
    output: &mut W,
    selection: Selection,
    queue: Option<&str>,
    report: P,
) -> Result<StepsExplained, StepsFault>
    ensures explains { IfOk result (λ explained. Ends
        (λ rows. Writes (ReportsPackets (P.explains report) selection explained.count rows) (W.contents output.old) (W.contents output.new))
        (outcome_of (option_map (λ name. name.now) queue.entry)) (option_map records_of (R.remaining input)) (Ok explained.finding)) }
    ensures refuses { IfErr result (λ why. is_failure why ≡ false → IfSome (R.remaining input)
        (λ text. (outcome_of (option_map (λ name. name.now) queue.entry) (records_of text)).1 ≡ Err why)) }
{
    let mut page = Page::new(alloc);
    let mut text = match Text::begin(alloc, input, queue) {
        Ok(text) => text,
        Err(why) => return Err(why),
    };
    let rows = PacketRows { report, selection };
    let mut count: u64 = 0;
    let outcome = text.decide(&rows, &mut count, &mut page, output);
    match finish(outcome, Ok(()), &mut page, output) {
        Ok(finding) => Ok(StepsExplained { count, finding }),
        Err(why) => Err(why),
    }
}
