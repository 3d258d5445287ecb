//! Making a storm from its numbers, and auditing and writing its history.
ghost use Rattle.std.specs.Prelude.{◌≡◌, IfErr, IfOk, OnOk, map};
ghost use Rattle.pie_book.specs.Decision.{IsLegal, registers_after, stats_after};
ghost use Rattle.pie_record.specs.declared.history_record.Line.TheVariants.{Valid};
ghost use Rattle.pie_audit.specs.Replay.{Audits};
ghost use Rattle.pie_storm.specs.Plans.{opening_of, HasStormRange, IsStormPlan};
ghost use Rattle.pie_record.specs.Field.{IsWriteOrMemory};
ghost use Rattle.pie_storm.specs.Storms.{CanStop, HasFault, IsEndOf, IsStorm, WritesHistory};

use crate::pace::Pace;
use crate::plan::{Plan, StormNumbers};
use crate::planning::plan_of;
use crate::run::{StormEnd, StormFault, storm};
use pie_audit::{Auditor, Finding};
use pie_book::{Event, OpenRefusal, Opening};
use pie_record::{Line, TraceFault, write_history};
use std::alloc::Global;
use std::io::Write;
use std::marker::Sync;
use std::sync::Wait;
use std::thread::Threads;
use std::time::Clock;

/// A finished storm (this project's own).
#[derive(Drop)]
pub struct MadeStorm {
    /// The calls of its callers.
    pub plan: Plan,
    /// The recorded events.
    pub end: StormEnd,
    /// A caller waited too long for another, and from then on none waited: a thread got no processor for long.
    pub lost_pace: bool,
}

/// Makes the storm of these numbers, under threads of the runtime.
///
/// # Errors
///
/// `Memory` if there is no memory for the plan, and the errors of `storm`.
pub fn make_storm<H: Threads + Wait + Clock + Sync>(
    rt: &H,
    alloc: Global,
    numbers: StormNumbers,
) -> Result<MadeStorm, StormFault>
    requires { HasStormRange numbers }
    ensures planned { IfOk result (λ made. IsStormPlan numbers made.plan) }
    ensures legal { IfOk result (λ made. IsLegal (opening_of made.plan) made.end.events.items) }
    ensures made { IfOk result (λ made. IsStorm made.plan made.end.events.items made.end.too_soon made.end.too_many) }
    ensures registers { IfOk result (λ made. made.end.registers ≡ registers_after (opening_of made.plan) made.end.events.items) }
    ensures stats { IfOk result (λ made. made.end.stats ≡ stats_after (opening_of made.plan) made.end.events.items) }
    ensures ended { IfOk result (λ made. IsEndOf made.plan made.end) }
    ensures fault { IfErr result CanStop }
{
    let plan = match plan_of(alloc, numbers) {
        Ok(plan) => plan,
        Err(_) => return Err(StormFault::Memory),
    };
    match run_plan(rt, alloc, &plan) {
        Ok((end, lost_pace)) => Ok(MadeStorm {
            plan,
            end,
            lost_pace,
        }),
        Err(why) => Err(why),
    }
}

/// Runs a plan at the storm's pace. Returns its end, and true if the pace was lost.
fn run_plan<H: Threads + Wait + Clock + Sync>(
    rt: &H,
    alloc: Global,
    plan: &Plan,
) -> Result<(StormEnd, bool), StormFault>
    ensures ended { IfOk result (λ made. IsEndOf plan.now made.0) }
    ensures fault { IfErr result (HasFault plan.now) }
{
    let pace = Pace::new(rt, plan);
    match storm(rt, alloc, plan, &pace) {
        Ok(end) => Ok((end, pace.is_over())),
        Err(fault) => Err(fault),
    }
}

/// Audits the events of a storm with this plan, and writes their history.
///
/// # Errors
///
/// `Memory` or `Write` if memory or the writer fails.
pub fn write_storm<W: Write>(
    alloc: Global,
    plan: &Plan,
    events: &[Event],
    output: &mut W,
) -> Result<(), TraceFault>
    requires legal { IsLegal (opening_of plan.now) events.now }
    requires limits { plan.now.limits.events ≡ plan.now.limits.tail }
    ensures written { OnOk result (WritesHistory plan.now events.now (W.contents output.old) (W.contents output.new)) }
    ensures io { IfErr result IsWriteOrMemory }
{
    pie_book::law::all_numbers_fit();
    pie_audit::law::events_are_lines();
    pie_audit::law::clean_is_legal();
    pie_audit::law::clean_texts_are_legal();
    let opening = plan.opening();
    let auditor = match auditor_of(alloc, &opening, events) {
        Ok(auditor) => auditor,
        Err(_) => return Err(TraceFault::Memory),
    };
    match auditor.finish() {
        Finding::Clean { .. } => {}
        Finding::Differs { .. } => unreachable!(),
    }
    write_history(alloc, output, &opening, events)
}

/// Returns an auditor that has decided each of these events again. The limits of a storm's plan are in their ranges, so
/// only memory can be short.
fn auditor_of(alloc: Global, opening: &Opening, events: &[Event]) -> Result<Auditor, OpenRefusal>
    ensures { IfOk result (λ auditor. Audits opening.now auditor (map Valid events.now)) }
{
    let mut auditor = Auditor::open(alloc, opening)?;
    for event in events {
        auditor.feed(&Line::Valid(*event));
    }
    Ok(auditor)
}
