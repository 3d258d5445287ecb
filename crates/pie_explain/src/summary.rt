//! Summaries of the explained events, and if requested between them the words for each packet that was lost or marked.
ghost use Rattle.std.specs.Prelude.{◌≡◌, ◌&&◌, ◌++◌, [], ℕ, List, OnOk, Option, Some, true, if◌then◌else◌};
ghost use Rattle.pie_explain.specs.declared.explanation.Explained.{Explained};
ghost use Rattle.pie_explain.specs.{Report.Extends, Report.Grows, Interval.Keeps, Interval.ends_interval, Interval.since, SummaryRecord.record_of, Summary.HoldsSums, Summary.IsAbout, Summary.is_lost_or_marked, Summary.summary_text};

use crate::interval::{Interval, Sums, ends_interval, has_summary, interval_of, starts_interval};
use crate::interval_lines::{IntervalLines, LineStyle};
use crate::meter::Meter;
use crate::report::push_header;
use crate::summary_record::{NAMES, push_record};
use crate::summary_words::push_words;
use crate::text::Written;
use crate::{EventChoice, Explained, Form, Report};
use pie_record::{LongRow, Page};
use std::alloc::AllocError;

/// Summaries of the explained events: the number of arrivals by verdict and by cause, the waiting times, the numbers of the updates, and the changes
/// of the controller's activity. There is one of all events, also if there is none, or one of each interval that has some. A summary is written once
/// its last event is known. If `PACKETS`, each event that lost or marked a packet is explained in words between the summaries, in any form: after
/// the summary of the interval before. Otherwise the compiler omits the numbers of an event that no summary reads.
#[derive(Clone, Copy)]
pub struct Summaries<const PACKETS: bool> {
    /// In words, or as CSV: a header row, and one record for each summary. With wall-clock times a line of words
    /// has those of the first and the last event that has one, and a record has that of the first as its last
    /// field.
    pub form: Form,
    /// The length of an interval in nanoseconds, at least 1; the first begins at moment 0. Without a length all
    /// events are summed together.
    pub every: Option<u64>,
    /// In words a line for each interval, of this style; `None` for summaries of several lines.
    pub style: Option<LineStyle>,
}

/// Summaries without packets.
pub type SummariesOnly = Summaries<false>;

/// Summaries, and between them the lost and the marked packets.
pub type Digest = Summaries<true>;

/// Writes these numbers in words onto the page.
#[inline(never)]
#[tactic(auto, using(crate::proofs::ReportFacts::extended_by))]
fn push_in_words(page: &mut Page, by_wall: bool, sums: &Sums, most: u64) -> Written
    ensures { OnOk result (Extends page.old page.new) }
{
    let mut text = page.words();
    push_words(&mut text, by_wall, sums, most)?;
    page.put(text)
}

/// Writes these numbers as a record onto the page.
#[inline(never)]
fn push_as_record(page: &mut Page, by_wall: bool, meter: &Meter, most: u64) -> Written
    ensures { OnOk result (page.new ≡ page.old ++ record_of by_wall meter.now most) }
{
    let mut line = LongRow::new();
    push_record(&mut line, by_wall, meter, most);
    page.push(line.as_bytes())
}

/// Writes the summary of an interval of length `every` onto `page` if the interval `ends`.
#[tactic(auto, using(crate::proofs::ReportFacts::extended_by, crate::proofs::ReportFacts::unextended))]
fn push_ended(
    page: &mut Page,
    form: Form,
    every: Option<u64>,
    style: Option<LineStyle>,
    interval: &Interval,
    ends: bool,
) -> Written
    ensures grown { OnOk result (Extends page.old page.new) }
    ensures record { form.csv ≡ true → OnOk result (page.new ≡ page.old
        ++ (if ends then summary_text form.by_wall interval.now.sums interval.now.waits.value else [])) }
{
    if !ends {
        return Ok(());
    }
    let sums = &interval.sums;
    let most = sums.meter.wait_99(&interval.waits);
    let (every, by_wall) = (every.unwrap_or(1), form.by_wall);
    match (form.csv, style) {
        (true, _) => push_as_record(page, by_wall, &sums.meter, most),
        (false, None) => push_in_words(page, by_wall, sums, most),
        (false, Some(style)) => {
            let lines = IntervalLines {
                every,
                by_wall,
                style,
            };
            lines.push_line(page, interval.ended, &sums.meter, most)
        }
    }
}

/// Begins the interval with this number, unless it is under way. Writes the summary of the interval before onto
/// `page`, if there is one.
#[inline(always)]
#[tactic(auto, using(crate::proofs::ReportFacts::unextended, crate::proofs::IntervalFacts::not_begun, crate::proofs::IntervalFacts::since_same, crate::proofs::IntervalFacts::under_way))]
fn enter(
    page: &mut Page,
    form: Form,
    every: Option<u64>,
    style: Option<LineStyle>,
    interval: &mut Interval,
    number: u64,
) -> Written
    ensures grown { OnOk result (Extends page.old page.new) }
    ensures record { form.csv ≡ true → OnOk result (page.new ≡ page.old
        ++ (if ends_interval interval.old.number number then summary_text form.by_wall interval.old.sums interval.old.waits.value else [])) }
    ensures number { OnOk result (interval.new.number ≡ Some number) }
    ensures holds { OnOk result ((shown : List Explained) (every : Option ℕ) → Keeps (HoldsSums interval.old) every interval.old.number shown
        → HoldsSums interval.new (since every (Some number) shown)) }
{
    if !starts_interval(interval.number, number) {
        return Ok(());
    }
    begin_interval(page, form, every, style, interval, number)
}

/// Begins the interval with this number, as `enter` does, if it is under way or not.
#[cold]
#[inline(never)]
fn begin_interval(
    page: &mut Page,
    form: Form,
    every: Option<u64>,
    style: Option<LineStyle>,
    interval: &mut Interval,
    number: u64,
) -> Written
    ensures grown { OnOk result (Extends page.old page.new) }
    ensures record { form.csv ≡ true → OnOk result (page.new ≡ page.old
        ++ (if ends_interval interval.old.number number then summary_text form.by_wall interval.old.sums interval.old.waits.value else [])) }
    ensures number { OnOk result (interval.new.number ≡ Some number) }
    ensures holds { OnOk result ((shown : List Explained) (every : Option ℕ) → Keeps (HoldsSums interval.old) every interval.old.number shown
        → HoldsSums interval.new (since every (Some number) shown)) }
{
    let ends = ends_interval(interval.number, number);
    push_ended(page, form, every, style, interval, ends)?;
    interval.begin(number);
    Ok(())
}

/// Returns true if `packets` are explained, and the event lost or marked one.
#[inline(always)]
fn is_about(packets: bool, explained: &Explained) -> bool
    ensures { result ≡ (packets && is_lost_or_marked explained.now) }
{
    let (number, event) = (explained.explanation.number, &explained.explanation.event);
    packets
        && (EventChoice::Lost.chooses(number, event) || EventChoice::Marked.chooses(number, event))
}

/// Writes the words for an event that lost or marked a packet, if `packets` are explained.
#[inline(always)]
#[tactic(auto, using(crate::proofs::IntervalFacts::none_about, crate::proofs::IntervalFacts::some_about))]
fn push_event_words(page: &mut Page, packets: bool, form: Form, explained: &Explained) -> Written
    ensures { OnOk result (Grows (IsAbout packets explained.now) [] page.old page.new) }
{
    if is_about(packets, explained) {
        crate::report::push_words(page, form.clock(explained.explanation.clock), explained)
    } else {
        Ok(())
    }
}

impl<const PACKETS: bool> Report for Summaries<PACKETS> {
    type State = Interval;

    ghost use Rattle.pie_explain.specs.{Report.Says, Summary.IsDigest, Summary.IsWholeDigest, Summary.keeps};

    ghost shows = { λ it. keeps it.every };

    ghost so_far = { λ it all. Says it.form.csv (IsDigest PACKETS it.every it.form.by_wall all) };

    ghost whole = { λ it all. Says it.form.csv (IsWholeDigest PACKETS it.every it.form.by_wall all) };

    #[inline(always)]
    fn is_by_kind(&self) -> bool {
        !PACKETS
    }

    #[tactic(auto, unfolding(pie_aqm::specs::History::last_or))]
    fn begin(&self, page: &mut Page) -> Result<Interval, AllocError> {
        push_header(page, NAMES, self.form)?;
        let interval = Interval::empty(page.allocator())?;
        Ok(interval)
    }

    #[inline(always)]
    fn report_event(&self, sums: &mut Interval, explained: &Explained, page: &mut Page) -> Written {
        let number = interval_of(self.every, explained.explanation.moment);
        enter(page, self.form, self.every, self.style, sums, number)?;
        push_event_words(page, PACKETS, self.form, explained)?;
        sums.add(explained);
        Ok(())
    }

    fn end(&self, state: &Interval, page: &mut Page) -> Written {
        let ends = has_summary(self.every, state.number);
        push_ended(page, self.form, self.every, self.style, state, ends)?;
        Ok(())
    }
}
