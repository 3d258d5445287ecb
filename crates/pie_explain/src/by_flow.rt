//! Sums of the explained events by flow.
ghost use Rattle.std.specs.Prelude.{◌≡◌, ◌++◌, ◌∷◌, [], ℕ, List, None, OnOk, Option, Some, true, if◌then◌else◌};
ghost use Rattle.pie_explain.specs.declared.explanation.Explained.{Explained};
ghost use Rattle.pie_explain.specs.{Report.Extends, FlowRecords.HoldsFlows, Flows.HasFlows, FlowRecords.flows_text, Interval.Keeps, Interval.since, Aggregates.span_of};

use crate::aggregates::Span;
use crate::flow::{Flow, flows_of, take};
use crate::flow_words::{NAMES, push_flows};
use crate::interval::{ends_interval, has_summary, interval_of, starts_interval};
use crate::report::push_header;
use crate::text::Written;
use crate::{Explained, Form, Report, time_of};
use indexmap::IndexMap;
use pie_record::Page;
use std::alloc::{AllocError, Global};

/// Sums of the explained events by flow: the arrivals, their verdicts and the waiting times, for each of the flows with the most bytes, and for all
/// others together. The sums are those of all events, or of each interval that has some; each is written when its last event is known.
///
/// A flow is the upper 32 bits of its packets' tags (this project's own). Memory is taken for each flow of an interval.
#[derive(Clone, Copy)]
pub struct ByFlow {
    /// In words, or as CSV: a header row, and one record for each flow and interval. With wall-clock times the
    /// words have those of the first and the last event that has one, and a record has that of the first as its
    /// last field.
    pub form: Form,
    /// The length of an interval in nanoseconds, at least 1; the first begins at moment 0. Without a length all
    /// events are summed together.
    pub every: Option<u64>,
    /// The number of flows with a row of their own: those with the most arrived bytes, and among equal ones those
    /// with the lowest number.
    pub most: u64,
}

/// The flows of the last events, as far back as they are in the same interval.
#[derive(Drop)]
pub struct FlowInterval {
    /// The number of that interval; `None` before the first event.
    pub number: Option<u64>,
    /// The span of these events.
    pub span: Span,
    /// Their flows by number, in the order of their first events.
    pub rows: IndexMap<u32, Flow>,
}

impl FlowInterval {
    /// Returns the state before the first event.
    #[tactic(auto, using(crate::proofs::FlowFacts::none_shown), unfolding(pie_aqm::specs::History::last_or))]
    pub(crate) fn empty(alloc: Global) -> FlowInterval
        ensures number { result.number ≡ None }
        ensures span { result.span ≡ span_of [] }
        ensures flows { HasFlows result.rows.entries [] }
    {
        FlowInterval {
            number: None,
            span: Span::default(),
            rows: IndexMap::new(alloc),
        }
    }

    /// Drops the earlier events if they are in another interval than this one.
    #[tactic(auto, using(crate::proofs::FlowFacts::none_shown, crate::proofs::IntervalFacts::since_begun, crate::proofs::IntervalFacts::since_same), unfolding(pie_aqm::specs::History::last_or))]
    fn begin(&mut self, interval: u64)
        ensures { (shown : List Explained) (every : Option ℕ) → Keeps (HoldsFlows self.old) every self.old.number shown
            → HoldsFlows self.new (since every (Some interval) shown) }
    {
        if starts_interval(self.number, interval) {
            self.span = Span::default();
            self.rows.clear();
        }
    }

    /// Counts one more event.
    ///
    /// # Errors
    ///
    /// `AllocError` if there is no memory for its flow.
    #[inline(always)]
    pub(crate) fn take(
        &mut self,
        every: Option<u64>,
        explained: &Explained,
    ) -> Result<(), AllocError>
        ensures { (shown : List Explained) → Keeps (HoldsFlows self.old) every self.old.number shown
            → OnOk result (Keeps (HoldsFlows self.new) every self.new.number (shown ++ explained.now ∷ [])) }
    {
        let number = interval_of(every, explained.explanation.moment);
        self.begin(number);
        self.number = Some(number);
        let (clock, moment) = (explained.explanation.clock, explained.explanation.moment);
        self.span.take(moment, time_of(clock, moment));
        take(&mut self.rows, explained)
    }
}

/// Writes the flows of an interval onto `page` if the interval `ends`.
#[tactic(auto, using(crate::proofs::ReportFacts::extended_by, crate::proofs::ReportFacts::unextended))]
fn push_ended(page: &mut Page, by_flow: &ByFlow, ends: bool, span: &Span, flows: &[Flow]) -> Written
    ensures grown { OnOk result (Extends page.old page.new) }
    ensures records { by_flow.now.form.csv ≡ true → OnOk result (page.new ≡ page.old
        ++ (if ends then flows_text by_flow.now.form.by_wall span.now by_flow.now.most flows.now else [])) }
{
    if !ends {
        return Ok(());
    }
    let mut text = page.words();
    let (alloc, most) = (page.allocator(), by_flow.most as usize);
    push_flows(alloc, &mut text, by_flow.form, span, most, flows)?;
    page.put(text)
}

impl Report for ByFlow {
    type State = FlowInterval;

    ghost use Rattle.pie_explain.specs.{Report.Says, FlowRecords.HasAllFlows, FlowRecords.HasFlowsSoFar, FlowRecords.keeps_flows};

    ghost shows = { keeps_flows };

    ghost so_far = { λ it all. Says it.form.csv (HasFlowsSoFar it all) };

    ghost whole = { λ it all. Says it.form.csv (HasAllFlows it all) };

    #[inline(always)]
    fn is_by_kind(&self) -> bool {
        false
    }

    #[tactic(auto, unfolding(pie_aqm::specs::History::last_or))]
    fn begin(&self, page: &mut Page) -> Result<FlowInterval, AllocError> {
        push_header(page, NAMES, self.form)?;
        Ok(FlowInterval::empty(page.allocator()))
    }

    #[inline(always)]
    fn report_event(
        &self,
        state: &mut FlowInterval,
        explained: &Explained,
        page: &mut Page,
    ) -> Written {
        let ends = ends_interval(
            state.number,
            interval_of(self.every, explained.explanation.moment),
        );
        push_ended(page, self, ends, &state.span, flows_of(&state.rows))?;
        state.take(self.every, explained)?;
        Ok(())
    }

    fn end(&self, state: &FlowInterval, page: &mut Page) -> Written {
        let ends = has_summary(self.every, state.number);
        push_ended(page, self, ends, &state.span, flows_of(&state.rows))?;
        Ok(())
    }
}
