//! Properties of a storm that no clause states: its workers run concurrently, a gate surrounds each call and
//! receives the call's number, and a fold is made at the time that its gate allows. (Storms of the program:
//! tests/program/storms.sh.)

ghost use Rattle.pie_storm.specs.Plans.{HasStormRange};

use crate::books::arrival;
use crossbeam_utils::Backoff;
use pie_book::{Event, Limits, OpenRefusal, Profile};
use pie_link::LinkRefusal;
use pie_params::{Elements, Params};
use pie_storm::{
    Arrival, Change, Gate, NoGate, Plan, StormEnd, StormFault, StormNumbers, make_storm, storm,
    storm_plan,
};
use std::alloc::Global;
use std::array::from_fn;
use std::sync::Wait;
use std::sync::atomic::{AtomicU64, Ordering};
use std::thread::Threads;
use std::time::Clock;

/// The caller that folds, behind two senders, one that departs, one that updates and one that changes the parameters.
const FOLDER: u16 = 6;

/// The greatest number of turns for which a worker is held.
const TURNS: u64 = 1_000_000;

/// Waits until a number is at least `enough`, for `TURNS` turns at most. Returns true if it is.
fn wait_for(number: &AtomicU64, enough: u64) -> bool {
    let backoff = Backoff::new();
    for _ in 0..TURNS {
        if number.load(Ordering::SeqCst) >= enough {
            return true;
        }
        backoff.snooze();
    }
    false
}

/// The calls that passed a gate.
#[derive(Drop)]
struct Passed {
    /// The last call that each caller began, by the caller's number.
    begun: [AtomicU64; 13],
    /// The last call that each caller ended.
    ended: [AtomicU64; 13],
    /// The number of calls that came with another number than their caller's next.
    wrong: AtomicU64,
}

impl Passed {
    fn none() -> Passed {
        Passed {
            begun: from_fn(|_| AtomicU64::new(0)),
            ended: from_fn(|_| AtomicU64::new(0)),
            wrong: AtomicU64::new(0),
        }
    }

    /// Takes in the number of a call, which is to be one more than the last one of its caller.
    fn step(&self, of: &[AtomicU64; 13], caller: u16, call: u64) {
        let last = match of.get(usize::from(caller)) {
            Some(last) => last.fetch_add(1, Ordering::SeqCst),
            None => u64::MAX,
        };
        if last.checked_add(1) != Some(call) {
            self.wrong.fetch_add(1, Ordering::SeqCst);
        }
    }

    /// Returns true if callers 1, 2, .. made these numbers of calls, each with its number before it and after.
    fn are(&self, calls: &[u64]) -> bool {
        let mut are_so = self.wrong.load(Ordering::SeqCst) == 0;
        for place in 0..calls.len().min(12) {
            are_so &= self.begun[place + 1].load(Ordering::SeqCst) == calls[place];
            are_so &= self.ended[place + 1].load(Ordering::SeqCst) == calls[place];
        }
        are_so
    }
}

/// A gate that delays caller `held` before its first call until `until` calls of caller `awaited` have answers; an
/// `awaited` of 0 means all others. Caller `awaited` starts when `held` is at its first call, and after its last call
/// waits until the second call of `held` has an answer. So an event that is recorded before `before` or after `after`
/// is at a wrong place.
#[derive(Drop)]
struct Hold {
    held: u16,
    awaited: u16,
    until: u64,
    arrived: AtomicU64,
    answered: AtomicU64,
    gone: AtomicU64,
    passed: Passed,
}

impl Gate for Hold {
    fn before(&self, caller: u16, call: u64) {
        self.passed.step(&self.passed.begun, caller, call);
        if caller == self.held && call == 1 {
            self.arrived.store(1, Ordering::SeqCst);
            let _ = wait_for(&self.answered, self.until);
        }
        if caller == self.awaited && call == 1 {
            let _ = wait_for(&self.arrived, 1);
        }
    }

    fn after(&self, caller: u16, call: u64) {
        self.passed.step(&self.passed.ended, caller, call);
        if caller == self.held && call == 2 {
            self.gone.store(1, Ordering::SeqCst);
        }
        if caller == self.awaited || (self.awaited == 0 && caller != self.held) {
            self.answered.fetch_add(1, Ordering::SeqCst);
        }
        if caller == self.awaited && call == self.until {
            let _ = wait_for(&self.gone, 1);
        }
    }
}

/// Returns a gate that delays one caller until this many calls of another have answers.
fn holding(held: u16, awaited: u16, until: u64) -> Hold {
    Hold {
        held,
        awaited,
        until,
        arrived: AtomicU64::new(0),
        answered: AtomicU64::new(0),
        gone: AtomicU64::new(0),
        passed: Passed::none(),
    }
}

/// A gate at which each of `senders` raises its flag after its first call, and checks the flags of the others.
#[derive(Drop)]
struct Flags {
    senders: u16,
    raised: AtomicU64,
    seen: AtomicU64,
    passed: Passed,
}

impl Gate for Flags {
    fn before(&self, caller: u16, call: u64) {
        self.passed.step(&self.passed.begun, caller, call);
    }

    fn after(&self, caller: u16, call: u64) {
        self.passed.step(&self.passed.ended, caller, call);
        if caller <= self.senders && call == 1 {
            self.raised.fetch_add(1, Ordering::SeqCst);
            if wait_for(&self.raised, u64::from(self.senders)) {
                self.seen.fetch_add(1, Ordering::SeqCst);
            }
        }
    }
}

/// Packets of one sender, at these moments. (Without memory the list is too short, and its test fails.)
fn arrivals(alloc: Global, moments: &[u64]) -> Vec<Arrival> {
    let mut list = Vec::new(alloc);
    for moment in moments {
        let _ = list.push(arrival(*moment, *moment));
    }
    list
}

/// Returns a plan of senders, each of which sends at these moments, whose events all fit.
fn plan(alloc: Global, senders: u16, moments: &[u64]) -> Plan {
    let mut all = Vec::new(alloc);
    for _ in 0..senders {
        let _ = all.push(arrivals(alloc, moments));
    }
    Plan {
        limits: Limits {
            packets: 4,
            tail: 24,
            events: 24,
        },
        params: Params::default_profile(),
        moment: 0,
        profile: Profile::One,
        elements: Elements::usual(),
        arrivals: all,
        burst: 1,
        departs: Vec::new(alloc),
        updates: Vec::new(alloc),
        changes: Vec::new(alloc),
        folds: Vec::new(alloc),
    }
}

/// Returns true if each event of caller `one` comes before each of caller `other`.
fn comes_before(events: &[Event], one: u16, other: u16) -> bool {
    let mut seen = false;
    for event in events {
        seen |= event.caller == other;
        if event.caller == one && seen {
            return false;
        }
    }
    true
}

/// Returns true if a sender that is held until another was answered two calls comes after it.
fn comes_last<R: Threads + Wait + Sync>(
    rt: &R,
    alloc: Global,
    plan: &Plan,
    held: u16,
    awaited: u16,
) -> bool {
    let gate = holding(held, awaited, 2);
    let is_last = match storm(rt, alloc, plan, &gate) {
        Ok(end) => comes_before(end.events.as_slice(), awaited, held),
        Err(_) => false,
    };
    is_last && gate.passed.are(&[2, 2, 0, 0, 0, 0])
}

/// Returns true if either of two senders comes last when its gate delays it.
pub(crate) fn held_comes_last<R: Threads + Wait + Sync>(rt: &R, alloc: Global) -> bool {
    let plan = plan(alloc, 2, &[1, 2]);
    comes_last(rt, alloc, &plan, 1, 2) && comes_last(rt, alloc, &plan, 2, 1)
}

/// Returns true if each of this many senders, which send three packets in bursts of two, sees the flags of all
/// others.
fn see_all_flags<R: Threads + Wait + Sync>(
    rt: &R,
    alloc: Global,
    senders: u16,
    calls: &[u64],
) -> bool {
    let mut plan = plan(alloc, senders, &[1, 2, 3]);
    plan.burst = 2;
    let gate = Flags {
        senders,
        raised: AtomicU64::new(0),
        seen: AtomicU64::new(0),
        passed: Passed::none(),
    };
    let ends = storm(rt, alloc, &plan, &gate).is_ok();
    ends && gate.seen.load(Ordering::SeqCst) == u64::from(senders) && gate.passed.are(calls)
}

/// Returns true if all of two senders see each other's flags, and all of eight.
pub(crate) fn flags_are_seen<R: Threads + Wait + Sync>(rt: &R, alloc: Global) -> bool {
    let two = [2, 2, 0, 0, 0, 0];
    let eight = [2, 2, 2, 2, 2, 2, 2, 2, 0, 0, 0, 0];
    see_all_flags(rt, alloc, 2, &two) && see_all_flags(rt, alloc, 8, &eight)
}

/// Returns a plan of one sender with packets at 9 and 3, one with a packet at 5, a change and three folds.
fn folding_plan(alloc: Global) -> Plan {
    let params = Params::default_profile();
    let mut plan = plan(alloc, 1, &[9, 3]);
    let _ = plan.arrivals.push(arrivals(alloc, &[5]));
    let _ = plan.changes.push(Change { moment: 4, params });
    let _ = plan.folds.extend_from_slice(&[2, 1, 2]);
    plan
}

/// Returns true if these are the four events, the registers and the statistics at the end of such a plan, with one fold of too many events.
fn is_as_folded(end: &StormEnd) -> bool {
    end.events.len() == 4
        && end.too_soon == 0
        && end.too_many == 1
        && end.folded == 3
        && end.stats.arrivals == 3
        && end.stats.changes == 1
        && end.registers.moment == 9
        && end.registers.bytes == 300
}

/// Returns true if the folds, delayed until all other calls were answered, and a change take part.
pub(crate) fn folds_take_part<R: Threads + Wait + Sync>(rt: &R, alloc: Global) -> bool {
    let gate = holding(FOLDER, 0, 4);
    let is_so = match storm(rt, alloc, &folding_plan(alloc), &gate) {
        Ok(end) => is_as_folded(&end),
        Err(_) => false,
    };
    is_so && gate.passed.are(&[2, 1, 0, 0, 1, 3])
}

/// Returns true if a hundred folds of two events before the first one are counted as folds of too many. The only packets
/// are delayed until the folds were answered.
pub(crate) fn early_folds_are_passed_over<R: Threads + Wait + Sync>(rt: &R, alloc: Global) -> bool {
    let mut plan = plan(alloc, 1, &[1, 2]);
    let _ = plan.arrivals.push(Vec::new(alloc));
    for _ in 0..100 {
        let _ = plan.folds.push(2);
    }
    match storm(rt, alloc, &plan, &holding(1, FOLDER, 100)) {
        Ok(end) => end.events.len() == 2 && end.too_many == 100 && end.folded == 0,
        Err(_) => false,
    }
}

/// Returns true if a storm of this plan has five events, and this many updates too soon.
fn has_five_events<R: Threads + Wait + Sync>(
    rt: &R,
    alloc: Global,
    plan: &Plan,
    too_soon: u64,
) -> bool {
    match storm(rt, alloc, plan, &NoGate) {
        Ok(end) => end.events.len() == 5 && end.too_soon == too_soon && end.too_many == 0,
        Err(_) => false,
    }
}

/// Returns true if the usual plan of two packets has five events, and six commands if an update is too soon. A plan whose ring has no room is not
/// opened, and one whose event log has too little room is not sound, also with other faults.
fn is_checked<R: Threads + Wait + Sync>(rt: &R, alloc: Global, mut plan: Plan) -> bool {
    let is_made = has_five_events(rt, alloc, &plan, 0);
    plan.limits.packets = 0;
    let refused = storm(rt, alloc, &plan, &NoGate).err();
    plan.limits.tail = 4;
    let bad = storm(rt, alloc, &plan, &NoGate).err();
    plan.limits = Limits {
        packets: 1024,
        tail: 6,
        events: 6,
    };
    plan.updates.clear();
    let _ = plan.updates.extend_from_slice(&[1, 15_000_000]);
    let is_soon = has_five_events(rt, alloc, &plan, 1);
    let refusal = LinkRefusal::Book(OpenRefusal::BadLimits);
    is_made
        && is_soon
        && matches!(bad, Some(StormFault::BadPlan))
        && refused == Some(StormFault::Opening(refusal))
}

pub(crate) fn plans_are_checked<R: Threads + Wait + Sync>(rt: &R, alloc: Global) -> bool {
    match storm_plan(alloc, 2, 1, 1) {
        Ok(plan) => is_checked(rt, alloc, plan),
        Err(_) => false,
    }
}

/// Returns the numbers of a storm of two senders with a hundred packets.
fn usual_numbers() -> StormNumbers
    ensures { HasStormRange result }
{
    StormNumbers {
        senders: 2,
        packets: 100,
        burst: 1,
        seed: 1,
        load: 100,
        changes: 0,
        folds: 0,
        profile: Profile::One,
        elements: Elements::usual(),
    }
}

/// Returns true if in one of ten storms at their own pace, of two senders with a hundred packets, no wait for
/// another caller times out. (With a gate that waits for a caller without calls, or for one that has made all its
/// calls, a wait times out in each storm.)
pub(crate) fn pace_is_kept<R: Threads + Wait + Clock + Sync>(rt: &R, alloc: Global) -> bool {
    for _ in 0..10 {
        match make_storm(rt, alloc, usual_numbers()) {
            Ok(made) => {
                if !made.lost_pace {
                    return true;
                }
            }
            Err(_) => return false,
        }
    }
    false
}

/// Returns true if a wait of one storm for another caller timed out. `tests/libraries/refused_memory.py` holds the thread
/// of a caller until all others have ended.
pub(crate) fn pace_is_lost<R: Threads + Wait + Clock + Sync>(rt: &R, alloc: Global) -> bool {
    match make_storm(rt, alloc, usual_numbers()) {
        Ok(made) => made.lost_pace,
        Err(_) => false,
    }
}
