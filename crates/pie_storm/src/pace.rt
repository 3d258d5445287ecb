//! The pace of a storm: its callers start together, and none runs far ahead of another.
//! The gate that a storm's workers pass before and after each call.
ghost use Rattle.std.specs.Prelude.{◌≡◌, ◌≤◌, ◌<◌, ◌+◌, ◌-◌, ◌*◌, ◌/◌, ◌^◌, ◌↔◌, ◌⊎◌, [], IsTrue, max};
ghost use Rattle.pie_storm.specs.Plans.{calls_of};

use crate::plan::{Call, Plan};
use std::array::from_fn;
use std::io;
use std::sync::atomic::{AtomicBool, AtomicU64, Ordering};
use std::thread::{sleep, yield_now};
use std::time::{Clock, Duration, Instant};

/// The greatest lead of a caller over another, in nanoseconds of the plan.
const AHEAD: u64 = 4_000_000;
/// The greatest number of looks at the other callers before a caller continues without them.
const LOOKS: u64 = 1_000_000;
/// The time in milliseconds in which a caller looks without sleeping. Other running callers are level by then. A caller
/// that waits for a processor, such as behind work of higher priority, may get one while this caller sleeps between its
/// looks.
const EAGER: u64 = 20;
/// The sleep between two looks after that, in nanoseconds.
const NAP: u64 = 100_000;
/// The number of these sleeps before a caller continues without the others.
const NAPS: u64 = 2000;
/// The moment of a caller that has not started.
const AWAY: u64 = 0;
/// The moment of a caller that has made all its calls.
const GONE: u64 = u64::MAX;

/// The gate of `make_storm` (this project's own). Each caller publishes the moment of its next call, and waits until
/// every other caller has started and is at most `AHEAD` behind. Once a caller has waited too long, no caller waits any
/// more. So a caller whose thread was not started, or is never scheduled, blocks no other.
#[derive(Drop)]
pub(crate) struct Pace<'a, C> {
    /// The clock for sleeping.
    clock: &'a C,
    /// The plan of the storm.
    plan: &'a Plan,
    /// The moment of the next call of each caller: the senders, and those of departures, updates, changes and folds.
    next: [AtomicU64; 12],
    /// A caller has waited too long.
    is_over: AtomicBool,
}

/// Returns true if a caller of a plan with the moment `published` is not behind `least`. A caller without calls is never
/// behind.
fn is_level(plan: &Plan, caller: u16, published: u64, least: u64) -> bool
    ensures { IsTrue result ↔ ((calls_of plan.now caller ≡ []) ⊎ (least ≤ published)) }
{
    least <= published || plan.calls(caller) == 0
}

/// Returns the moment at which a caller must be before another makes a call at `moment`: at most `AHEAD` before it, and
/// later than `AWAY`, so that every caller has started.
fn least_before(moment: u64) -> u64
    ensures { result ≡ max (moment - 4_000_000) 1 }
{
    moment.saturating_sub(AHEAD).max(AWAY + 1)
}

/// Returns the moment of fold number `place`, counted from 0, of `folds` folds that are spread evenly over the time until
/// `last`, at least 1.
fn fold_moment(last: u64, folds: u64, place: u64) -> u64
    requires some { 0 < folds }
    requires fits { place < 2 ^ 64 - 1 }
    ensures { last / folds * (place + 1) < 2 ^ 64 → result ≡ max (last / folds * (place + 1)) 1 }
{
    (last / folds).saturating_mul(place + 1).max(1)
}

impl<'a, C: Clock> Pace<'a, C> {
    /// Returns the pace of a storm with this plan.
    pub(crate) fn new(clock: &'a C, plan: &'a Plan) -> Pace<'a, C> {
        Pace {
            clock,
            plan,
            next: from_fn(|_| AtomicU64::new(AWAY)),
            is_over: AtomicBool::new(false),
        }
    }

    /// Returns true if a caller has waited too long, so that the storm continued without pace.
    pub(crate) fn is_over(&self) -> bool {
        self.is_over.load(Ordering::SeqCst)
    }

    /// Returns the moment of a caller's call in the plan, both counted from 1; `GONE` after its last call. A sender's
    /// call is a burst. The folds are spread evenly over the time until the last update.
    fn moment(&self, caller: u16, call: u64) -> u64 {
        let place = call.wrapping_sub(1);
        let first = place.saturating_mul(self.plan.turn(caller) as u64) as usize;
        match self.plan.call(caller, first) {
            Some(Call::Apply(command)) => command.moment().max(1),
            Some(Call::Fold(_)) => {
                let last = self.plan.updates.last().copied().unwrap_or(0);
                let folds = (self.plan.folds.len() as u64).max(1);
                fold_moment(last, folds, place.min(u64::MAX - 1))
            }
            None => GONE,
        }
    }

    /// Returns the published moment of a caller.
    fn published(&self, caller: u16) -> u64 {
        match self.next.get(usize::from(caller).wrapping_sub(1)) {
            Some(next) => next.load(Ordering::SeqCst),
            None => GONE,
        }
    }

    /// Publishes the moment of a caller's next call.
    fn publish(&self, caller: u16, moment: u64) {
        if let Some(next) = self.next.get(usize::from(caller).wrapping_sub(1)) {
            next.store(moment, Ordering::SeqCst);
        }
    }

    /// Returns true if every caller has started and none is to make a call before this moment, or if no caller waits
    /// any more.
    fn are_level(&self, moment: u64) -> bool {
        if self.is_over() {
            return true;
        }
        (1..13).all(|caller| is_level(self.plan, caller, self.published(caller), moment))
    }
}

/// Returns true if the time for looking without sleeping is over, or if the clock fails.
fn has_waited_long<C: Clock>(clock: &C, begun: &io::Result<Instant>) -> bool {
    let Ok(begun) = begun else {
        return true;
    };
    match begun.elapsed(clock) {
        Ok(waited) => waited >= Duration::from_millis(EAGER),
        Err(_) => true,
    }
}

impl<C: Clock> Gate for Pace<'_, C> {
    fn before(&self, caller: u16, call: u64) {
        let moment = self.moment(caller, call);
        self.publish(caller, moment);
        let least = least_before(moment);
        let begun = Instant::now(self.clock);
        let mut naps = 0;
        for _ in 0..LOOKS {
            if self.are_level(least) {
                return;
            }
            if !has_waited_long(self.clock, &begun) {
                yield_now();
            } else if naps < NAPS {
                naps += 1;
                sleep(self.clock, Duration::from_nanos(NAP));
            } else {
                break;
            }
        }
        self.is_over.store(true, Ordering::SeqCst);
    }

    fn after(&self, caller: u16, call: u64) {
        let moment = self.moment(caller, call.saturating_add(1));
        self.publish(caller, moment);
    }
}

/// A gate that watches or delays a storm's workers (this project's own). Tests delay a worker with it.
pub trait Gate {
    /// Runs before caller `caller` makes its call number `call`, counted from 1.
    fn before(&self, caller: u16, call: u64);

    /// Runs after caller `caller` made its call number `call`, counted from 1.
    fn after(&self, caller: u16, call: u64);
}

/// A gate that does nothing.
#[derive(Clone, Copy, Debug)]
pub struct NoGate;

impl Gate for NoGate {
    fn before(&self, _caller: u16, _call: u64) {}

    fn after(&self, _caller: u16, _call: u64) {}
}
