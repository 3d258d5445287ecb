//! Sums by flow in words, and as CSV records.
ghost use Rattle.std.specs.Prelude.{◌≡◌, ◌++◌, OnOk, string_bytes, true};
ghost use Rattle.pie_explain.specs.{FlowRecords.each_record, FlowRecords.flow_record, FlowRecords.flows_text, FlowRecords.mean_wait, FlowRecords.name_field, FlowRecords.others_record, SummaryRecord.last_fields};

use crate::Form;
use crate::aggregates::{Bounds, Span};
use crate::flow::{Flow, first_of, sums_beside};
use crate::flow_sums::FlowSums;
use crate::summary_words::{push_head, push_times};
use crate::text::Written;
use crate::units::{Millis, Share};
use pie_units::Utc;
use std::alloc::{AllocError, Global};
use std::fmt;
use std::fmt::Display;

/// The subject of a row.
#[derive(Clone, Copy)]
pub enum Name {
    /// The flow of this number.
    Of(u32),
    /// The other flows together, of this number.
    Others(u64),
}

/// The common parts of the rows of some flows.
#[derive(Clone, Copy)]
pub struct Heading {
    /// The form of the rows.
    pub form: Form,
    /// The span of the events of all flows.
    pub span: Span,
    /// The sums of all flows.
    pub total: FlowSums,
}

/// The names of the fields, as the header row has them.
pub(crate) const NAMES: &str =
    "first_moment,last_moment,flow,arrivals,arrived_bytes,enqueue,mark,early,bytes,packets,left,carried_bytes,\
    greatest_wait,mean_wait,byte_microseconds";

impl Display for Name {
    fn fmt<W: fmt::Write>(&self, f: &mut fmt::Formatter<W>) -> fmt::Result {
        match *self {
            Name::Of(flow) => write!(f, "flow 0x{flow:08x}"),
            Name::Others(count) => write!(f, "the other {count} flows"),
        }
    }
}

/// Writes the subject of a row as a field: a flow's number in eight hexadecimal digits, or `others`.
#[tactic(auto, using(crate::proofs::FlowFacts::eight_digits), unfolding(crate::specs::FlowRecords::flow_text))]
fn push_field(page: &mut String, name: Name) -> Written
    ensures { OnOk result (string_bytes page.new ≡ string_bytes page.old ++ name_field name) }
{
    match name {
        Name::Of(flow) => write!(page, "0x{flow:08x}"),
        Name::Others(_) => write!(page, "others"),
    }
}

/// Returns the mean waiting time of the packets that left, rounded down; 0 if none did.
fn mean_wait(sums: &FlowSums) -> u64
    ensures { result ≡ mean_wait sums.now }
{
    (sums.waited / u128::from(sums.left.max(1))).min(u128::from(u64::MAX)) as u64
}

/// Writes a flow in words: its arrivals, its share of all bytes and of the queue, their verdicts, and the waits of its departed packets.
fn push_words(page: &mut String, name: Name, total: &FlowSums, sums: &FlowSums) -> Written {
    let (arrivals, bytes) = (sums.arrivals, sums.bytes);
    let (count, all) = (bytes, total.bytes);
    let of_bytes = Share { count, all };
    let (count, all) = (sums.held, total.held);
    let of_queue = Share { count, all };
    let (queued, marked, early) = (sums.queued, sums.marked, sums.early);
    let (no_bytes, no_packets) = (sums.no_bytes, sums.no_packets);
    let (left, carried) = (sums.left, sums.carried);
    let (greatest, mean) = (Millis(sums.greatest_wait), Millis(mean_wait(sums)));
    write!(
        page,
        "  {name}: {arrivals} arrivals, {bytes} bytes, {of_bytes} of all; {of_queue} of the queue\n"
    )?;
    write!(
        page,
        "    queued {queued}, marked {marked}, dropped early {early}, without room in bytes {no_bytes}, in packets {no_packets}\n"
    )?;
    write!(
        page,
        "    left {left}, with {carried} bytes; they waited at most {greatest}, on average {mean}\n"
    )
}

/// Writes the span of the flows' events, with wall-clock times or not, the number of flows, and the arrivals.
fn push_total(
    page: &mut String,
    by_wall: bool,
    span: &Span,
    count: u64,
    total: &FlowSums,
) -> Written {
    let (arrivals, bytes) = (total.arrivals, total.bytes);
    push_head(page, &span.moments)?;
    push_times(page, by_wall, "  ", &span.times)?;
    write!(
        page,
        "  {count} flows: {arrivals} arrivals, {bytes} bytes\n"
    )
}

/// Writes the number `late`, and if `by_wall` the first wall-clock time.
#[tactic(auto, unfolding(crate::specs::SummaryRecord::last_fields))]
fn push_last(page: &mut String, by_wall: bool, late: u64, times: &Bounds) -> Written
    ensures { OnOk result (string_bytes page.new ≡ string_bytes page.old ++ last_fields by_wall late times.now.count times.now.first) }
{
    if !by_wall {
        return write!(page, "{late}\n");
    }
    if times.count == 0 {
        return write!(page, "{late},\n");
    }
    let first = Utc(times.first);
    write!(page, "{late},{first}\n")
}

/// Writes a flow as a record, with a wall-clock time or not.
#[tactic(auto, using(std::proofs::Common::append_assoc), unfolding(crate::specs::FlowRecords::flow_record))]
fn push_record(
    page: &mut String,
    by_wall: bool,
    span: &Span,
    name: Name,
    sums: &FlowSums,
) -> Written
    ensures { OnOk result (string_bytes page.new ≡ string_bytes page.old ++ flow_record by_wall span.now name sums.now) }
{
    let (first, last) = (span.moments.first, span.moments.last);
    let (arrivals, bytes) = (sums.arrivals, sums.bytes);
    let (queued, marked, early) = (sums.queued, sums.marked, sums.early);
    let (no_bytes, no_packets) = (sums.no_bytes, sums.no_packets);
    let (left, carried) = (sums.left, sums.carried);
    let (greatest, mean) = (sums.greatest_wait, mean_wait(sums));
    write!(page, "{first},{last},")?;
    push_field(page, name)?;
    write!(page, ",{arrivals},{bytes},{queued},{marked},{early},")?;
    write!(
        page,
        "{no_bytes},{no_packets},{left},{carried},{greatest},{mean},"
    )?;
    push_last(page, by_wall, sums.held, &span.times)
}

impl Heading {
    /// Writes the text before the flows. `count` is their number.
    fn push_top(&self, page: &mut String, count: u64) -> Written
        ensures { self.now.form.csv ≡ true → OnOk result (string_bytes page.new ≡ string_bytes page.old) }
    {
        if self.form.csv {
            return Ok(());
        }
        push_total(page, self.form.by_wall, &self.span, count, &self.total)
    }

    /// Writes a flow.
    fn push_flow(&self, page: &mut String, name: Name, sums: &FlowSums) -> Written
        ensures { self.now.form.csv ≡ true → OnOk result (string_bytes page.new ≡ string_bytes page.old
            ++ flow_record self.now.form.by_wall self.now.span name sums.now) }
    {
        if self.form.csv {
            return push_record(page, self.form.by_wall, &self.span, name, sums);
        }
        push_words(page, name, &self.total, sums)
    }

    /// Writes flows, one after another.
    fn push_each(&self, page: &mut String, flows: &[Flow]) -> Written
        ensures { self.now.form.csv ≡ true → OnOk result (string_bytes page.new ≡ string_bytes page.old
            ++ each_record self.now.form.by_wall self.now.span flows.now) }
    {
        match flows {
            [] => Ok(()),
            [first, rest @ ..] => {
                self.push_flow(page, Name::Of(first.number), &first.sums)?;
                self.push_each(page, rest)
            }
        }
    }

    /// Writes the sums of the flows after the first `most`, if there are any.
    fn push_others(&self, page: &mut String, most: usize, first: &[Flow], flows: &[Flow]) -> Written
        ensures { self.now.form.csv ≡ true → OnOk result (string_bytes page.new ≡ string_bytes page.old
            ++ others_record self.now.form.by_wall self.now.span most first.now flows.now) }
    {
        if flows.len() <= most {
            return Ok(());
        }
        let name = Name::Others((flows.len() - most) as u64);
        self.push_flow(page, name, &sums_beside(first, flows))
    }

    /// Writes the text before the flows, the first `most` flows, and the sums of the others.
    fn push_parts(&self, page: &mut String, most: usize, first: &[Flow], flows: &[Flow]) -> Written
        ensures { self.now.form.csv ≡ true → OnOk result (string_bytes page.new ≡ string_bytes page.old
            ++ (each_record self.now.form.by_wall self.now.span first.now ++ others_record self.now.form.by_wall self.now.span most first.now flows.now)) }
    {
        self.push_top(page, flows.len() as u64)?;
        self.push_each(page, first)?;
        self.push_others(page, most, first, flows)
    }
}

/// Appends the first `most` of these flows and the sums of the others to a text.
///
/// # Errors
///
/// Returns `AllocError` if memory is short.
pub(crate) fn push_flows(
    alloc: Global,
    page: &mut String,
    form: Form,
    span: &Span,
    most: usize,
    flows: &[Flow],
) -> Written
    ensures { form.csv ≡ true → OnOk result (string_bytes page.new ≡ string_bytes page.old ++ flows_text form.by_wall span.now most flows.now) }
{
    let (span, total) = (*span, sums_beside(&[], flows));
    let heading = Heading { form, span, total };
    match first_of(alloc, flows, most) {
        Ok(first) => {
            let pushed = heading.push_parts(page, most, first.as_slice(), flows);
            drop(first);
            pushed
        }
        Err(AllocError) => Err(AllocError),
    }
}
