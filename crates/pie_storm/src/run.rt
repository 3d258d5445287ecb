//! The storm: a link under many threads at once.
//! The end of a storm.
ghost use Rattle.std.specs.Prelude.{◌≡◌, ◌+◌, ◌↔◌, ◌++◌, ◌⊎◌, ℕ, List, Some, Err, IfSome, IfOk, IfErr, length};
ghost use denote.Param.Send.{IsSync};
ghost use Rattle.pie_event.specs.declared.command.Event.{Event};
ghost use Rattle.pie_book.specs.Book.{BookRepresents};
ghost use Rattle.pie_book.specs.Decision.{registers_after, stats_after};
ghost use Rattle.pie_storm.specs.declared.plan.Plan.{Plan};
ghost use Rattle.pie_link.specs.Entries.{number_of};
ghost use Rattle.pie_link.specs.declared.entry.LinkRefusal.{LinkRefusal};
ghost use Rattle.pie_storm.specs.Plans.{IsSound, senders, updater};
ghost use Rattle.pie_storm.specs.Storms.{Begins, HasFault, IsEndOf, IsFor, IsWell, IsWorkBelow, IsWorkOf, refusal_of};
ghost use Rattle.pie_lock.specs.Rule.{IsBothOf, first_pass};

use crate::pace::Gate;
use crate::plan::Plan;
use crate::worker::{Folding, Work, make_calls};
use pie_book::{Book, Event, Recorded, Registers, Stats};
use pie_link::{Caller, Link, LinkRefusal};
use std::alloc::Global;
use std::sync::Wait;
use std::thread;
use std::thread::{Promise, PromisedHandle, Scope, Threads};
use thiserror::Error;

// A worker, and its promise: it makes all calls of the caller with this number.
#[derive(Clone, Copy)]
struct MakesAll<'a> {
    link: &'a Link,
    plan: &'a Plan,
    caller: u16,
}

impl<'a> Promise<Work> for MakesAll<'a> {
    ghost kept_by = { λ p work. IsWorkOf p.link.now p.plan.now p.caller work };
}

// Starts the worker of a caller in a thread of its own, unless that is refused. It is apart from `work_in`, which would
// drop one more caller on each way out.
fn start<'s, E: 's, R: Threads + Wait + Sync, G: Gate + Sync>(
    scope: &Scope<'s, E>,
    rt: &'s R,
    alloc: Global,
    link: &'s Link,
    plan: &'s Plan,
    gate: &'s G,
    caller: Caller,
) -> Option<PromisedHandle<Work, MakesAll<'s>>>
    requires begins { Begins link.now plan.now caller }
    requires one { caller.limit ≡ caller.first + 1 }
    ensures { IfSome result (λ worker. (worker.promise.link.now ≡ link.now) × (worker.promise.plan.now ≡ plan.now)
        × (worker.promise.caller ≡ caller.first)) }
{
    let number = caller.first();
    let promise = MakesAll {
        link,
        plan,
        caller: number,
    };
    match scope.spawn_with(
        promise,
        move || -> Work
            requires { Begins link.now plan.now caller × (caller.limit ≡ caller.first + 1) }
            ensures { IsWorkOf link.entry.now plan.entry.now caller.first result }
        { make_calls(rt, alloc, link, plan, gate, caller) },
    ) {
        Ok(worker) => Some(worker),
        Err(refused) => {
            drop(refused);
            None
        }
    }
}

// Runs the callers with these numbers at once, each except the first in a thread of its own, and gathers them in order.
// The first is the starter, which makes no calls. If a worker is not started, those that were have ended.
fn work_in<'s, E: 's, R: Threads + Wait + Sync, G: Gate + Sync>(
    scope: &Scope<'s, E>,
    rt: &'s R,
    alloc: Global,
    link: &'s Link,
    plan: &'s Plan,
    gate: &'s G,
    caller: Caller,
) -> Option<Work>
    requires begins { Begins link.now plan.now caller }
    requires first { caller.first ≡ 0 }
    ensures { IfSome result (IsWorkBelow link.now plan.now caller.limit) }
{
    let mut rest = caller;
    let last = match link.share(&mut rest) {
        Ok(last) => last,
        Err(_) => {
            return Some(Work {
                caller: rest,
                passed: 0,
                too_soon: 0,
                folding: Folding::none(alloc, 0),
            });
        }
    };
    let Some(worker) = start(scope, rt, alloc, link, plan, gate, last) else {
        drop(rest);
        return None;
    };
    let others = work_in(scope, rt, alloc, link, plan, gate, rest);
    let theirs = worker.join(rt);
    match others {
        Some(others) => Some(both(link, plan, others, theirs)),
        None => {
            drop(theirs);
            None
        }
    }
}

// Runs the callers in a scope, which ends when all workers have ended.
fn work_at_once<R: Threads + Wait + Sync, G: Gate + Sync>(
    rt: &R,
    alloc: Global,
    link: &Link,
    plan: &Plan,
    gate: &G,
    caller: Caller,
) -> Option<Work>
    requires begins { Begins link.now plan.now caller }
    requires first { caller.first ≡ 0 }
    ensures { IfSome result (IsWorkBelow link.now plan.now caller.limit) }
{
    thread::scope(
        thread::scope_env(),
        rt,
        |scope| -> Option<Work>
            requires { IsSync R.row × IsSync G.row × Begins link.now plan.now caller × (caller.first ≡ 0) }
            ensures { IfSome result (IsWorkBelow link.entry.now plan.entry.now caller.limit) }
        { work_in(scope, rt, alloc, link, plan, gate, caller) },
    )
}

// Gathers a caller to those before it. It is apart from `both`: the proof of the drops on each early return would be long there.
fn gathered(link: &Link, caller: Caller, last: Caller) -> Caller
    requires own { (caller.lock ≡ link.now) × (last.lock ≡ link.now) }
    requires beside { last.first ≡ caller.limit }
    ensures { IsBothOf number_of caller last result }
{
    let mut both = caller;
    let Ok(()) = link.gather(&mut both, last) else {
        unreachable!()
    };
    both
}

// Returns the number of updates that were too soon, after the caller with this number has made its calls.
fn too_soon(plan: &Plan, number: u16, passed: u64, before: u64) -> u64
    ensures its { number ≡ updater plan.now → result ≡ passed }
    ensures another { (number ≡ updater plan.now → ⊥) → result ≡ before }
{
    if usize::from(number) == plan.arrivals.len() + 2 {
        passed
    } else {
        before
    }
}

// Gathers a worker's caller to those before it, with the results of both.
fn both(link: &Link, plan: &Plan, work: Work, last: Work) -> Work
    requires own { (work.caller.lock ≡ link.now) × (last.caller.lock ≡ link.now) }
    requires beside { last.caller.first ≡ work.caller.limit }
    ensures { (n : ℕ) → IsWorkBelow link.now plan.now n work → IsWorkOf link.now plan.now n last → IsWorkBelow link.now plan.now (n + 1) result }
{
    pie_link::law::entries_look_back();
    let number = last.caller.first();
    let too_soon = too_soon(plan, number, last.passed, work.too_soon);
    let mut folding = last.folding;
    folding.is_short_of_memory |= work.folding.is_short_of_memory;
    Work {
        caller: gathered(link, work.caller, last.caller),
        passed: last.passed,
        too_soon,
        folding,
    }
}

/// Makes all calls of the plan at once, each list in a thread of its own, and returns the recorded events (this
/// project's own).
///
/// With N lists of arrivals, callers 1 to N send them, caller N + 1 makes the departures, N + 2 the updates, N + 3 the
/// changes and N + 4 the folds. Each caller follows the order of its list, with `gate.before` and `gate.after` around
/// each call. A sender makes a burst of its arrivals in one call. An update that is too soon, and a fold of more events
/// than the log has, are counted and skipped.
///
/// # Errors
///
/// In this order: `BadPlan` if the plan is not sound; `Opening` if the link is not opened; `Thread` if a worker's
/// thread was not started; `Memory` if there was no memory for a fold, the results of a burst or the list of all
/// events. All started workers have ended then. `Gap` never occurs: no event is lost between folds and log.
#[tactic(auto, unfolding(crate::specs::Storms::HasFault), using(crate::proofs::Gathering::run_fault))]
pub fn storm<R: Threads + Wait + Sync, G: Gate + Sync>(
    rt: &R,
    alloc: Global,
    plan: &Plan,
    gate: &G,
) -> Result<StormEnd, StormFault>
    ensures bad_plan { (result ≡ Err StormFault.BadPlan) ↔ (IsSound plan.now → ⊥) }
    ensures refused { IsSound plan.now → (why : LinkRefusal) → refusal_of plan.now ≡ Some why → result ≡ Err (StormFault.Opening why) }
    ensures fault { IfErr result (HasFault plan.now) }
    ensures ended { IfOk result (IsEndOf plan.now) }
{
    if !plan.is_sound() {
        return Err(StormFault::BadPlan);
    }
    let callers = plan.arrivals.len() as u16 + 5;
    match Link::open_with(alloc, plan.opening(), callers) {
        Ok((link, starter)) => run(rt, alloc, plan, gate, link, starter),
        Err(why) => Err(StormFault::Opening(why)),
    }
}

// Makes all calls of the plan at this link, and closes it. It is apart from `storm`: there an early return after the opening would drop the link, and
// its proof would be long.
fn run<R: Threads + Wait + Sync, G: Gate + Sync>(
    rt: &R,
    alloc: Global,
    plan: &Plan,
    gate: &G,
    link: Link,
    starter: Caller,
) -> Result<StormEnd, StormFault>
    requires link_for { IsFor plan.now link }
    requires callers { link.numbers ≡ senders plan.now + 5 }
    requires starter { starter ≡ first_pass link (senders plan.now + 5) }
    ensures ended { IfOk result (IsEndOf plan.now) }
    ensures fault { IfErr result (λ why. (why ≡ StormFault.Memory) ⊎ (why ≡ StormFault.Thread)) }
{
    let Some(work) = work_at_once(rt, alloc, &link, plan, gate, starter) else {
        return Err(StormFault::Thread);
    };
    let Work {
        caller,
        passed,
        too_soon,
        mut folding,
    } = work;
    let Ok(mut book) = link.close(caller) else {
        unreachable!()
    };
    let end = end_of(alloc, &mut book, too_soon, passed, &mut folding);
    drop(book);
    drop(folding);
    end
}

// Returns the result of the storm: the folded events, followed by the log of the closed book. It takes both by
// reference, because each way out would drop them.
fn end_of(
    alloc: Global,
    book: &mut Book,
    too_soon: u64,
    too_many: u64,
    folding: &mut Folding,
) -> Result<StormEnd, StormFault>
    ensures fault { IfErr result (λ why. why ≡ StormFault.Memory) }
    ensures events { IfOk result (λ end. end.events.items ≡ folding.old.events.items ++ book.old.tail) }
    ensures registers { (events : List Event) → BookRepresents book.old events
        → IfOk result (λ end. end.registers ≡ registers_after book.old.opening events) }
    ensures stats { (events : List Event) → BookRepresents book.old events → IfOk result (λ end. end.stats ≡ stats_after book.old.opening events) }
    ensures counts { IfOk result (λ end. IsWell folding.old × (end.too_soon ≡ too_soon) × (end.too_many ≡ too_many)
        × (end.folded ≡ length folding.old.events.items)) }
{
    let registers = book.registers();
    let stats = book.stats();
    let folded = folding.events.len() as u64;
    match all_events(alloc, book, folding) {
        Some(events) => Ok(StormEnd {
            events,
            folded,
            too_soon,
            too_many,
            registers,
            stats,
        }),
        None => Err(StormFault::Memory),
    }
}

// Returns the folded events, followed by the log of the closed book, if none is missing and there is memory for all.
#[tactic(auto, using(crate::proofs::StormFacts::taken_whole))]
fn all_events(alloc: Global, book: &mut Book, folding: &mut Folding) -> Option<Vec<Event>>
    ensures events { IfSome result (λ events. events.items ≡ folding.old.events.items ++ book.old.tail) }
    ensures well { IfSome result (λ _. IsWell folding.old) }
{
    if folding.is_short_of_memory {
        return None;
    }
    // A fold of the log's length returns the whole log.
    let held = book.tail_len() as u64;
    let Ok(mut tail) = book.fold(alloc, held) else {
        return None;
    };
    let Ok(()) = folding.events.append(&mut tail) else {
        return None;
    };
    match Recorded::events(alloc, &folding.events) {
        Ok(events) => Some(events),
        Err(_) => None,
    }
}

/// The result of a storm (this project's own).
#[derive(Drop)]
pub struct StormEnd {
    /// All events, in the order in which the link recorded them.
    pub events: Vec<Event>,
    /// The number of folded events: the first ones. The others were in the event log at the end.
    pub folded: u64,
    /// The number of planned updates that were refused as too soon and skipped.
    pub too_soon: u64,
    /// The number of planned folds that were refused, because the log had fewer events, and skipped.
    pub too_many: u64,
    /// The registers at the end.
    pub registers: Registers,
    /// The statistics of all events.
    pub stats: Stats,
}

/// The reason why a storm has no result (this project's own). The first of these is returned: `BadPlan`, `Opening`,
/// `Thread`, `Memory`. `Gap` never occurs. Nothing of the run is kept.
#[derive(Clone, Copy, Debug, PartialEq, Eq, Error)]
pub enum StormFault {
    /// The plan has fewer than 2 or more than 8 senders, bursts outside 1 to 1024 arrivals, a moment above `2^60 - 1`,
    /// or an arrival whose size is outside 1 to 65535 bytes; or its limits have no room for all arrivals, departures,
    /// updates and changes.
    #[error("the plan is not sound")]
    BadPlan,
    /// The link was not opened.
    #[error("{0}")]
    Opening(LinkRefusal),
    /// Out of memory for the events, or for the results of a burst.
    #[error("out of memory")]
    Memory,
    /// A worker's thread was not started.
    #[error("a thread could not be started")]
    Thread,
    /// Events are missing between the folded events and the log. No storm returns it: that no event is missing is
    /// proved.
    #[error("the folds leave a gap")]
    Gap,
}
