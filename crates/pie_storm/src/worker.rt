//! The workers of a storm: each makes the calls of one caller, one after another.
ghost use Rattle.std.specs.Prelude.{◌≡◌, ◌+◌, ◌<◌, ◌≤◌, ◌-◌, [], false, Some, IfSome, length};
ghost use Rattle.pie_link.specs.Callers.{Answers, HasSameNumbers};
ghost use Rattle.pie_storm.specs.Plans.{calls_of, senders, turn_of};
ghost use Rattle.pie_storm.specs.Storms.{AddedByAll, Begins, IsAt, IsFor, IsWell, IsWorkOf, TakenIn, TakesTurn, added_by};

use crate::pace::Gate;
use crate::plan::{Call, Plan};
use pie_book::{Answer, Command, FoldRefusal, Recorded, Refusal};
use pie_link::{Caller, Link, Told};
use std::alloc::Global;
use std::sync::Wait;

/// The results of some callers of a storm, and the caller that has all their numbers.
#[derive(Drop)]
pub(crate) struct Work {
    pub(crate) caller: Caller,
    /// The number of skipped calls of the last of them.
    pub(crate) passed: u64,
    /// The number of updates that were too soon, if the worker of the updates is among them.
    pub(crate) too_soon: u64,
    pub(crate) folding: Folding,
}

/// A worker's memory.
#[derive(Drop)]
pub(crate) struct Folding {
    /// The events of its folds, one fold after another, while none is missing.
    pub(crate) events: Vec<Recorded>,
    // The results of its last burst.
    replies: Vec<Result<Told<Answer>, Refusal>>,
    /// True if there was no memory for the events of a fold, or for the results of a burst.
    pub(crate) is_short_of_memory: bool,
}

impl Folding {
    /// Returns a value without events, with room for `answers` results, if there is memory for them.
    pub(crate) fn none(alloc: Global, answers: usize) -> Folding
        ensures events { result.events.items ≡ [] }
        ensures well { IsWell result }
    {
        let replies = match Vec::with_capacity(alloc, answers) {
            Ok(replies) => replies,
            Err(_) => Vec::new(alloc),
        };
        Folding {
            events: Vec::new(alloc),
            replies,
            is_short_of_memory: false,
        }
    }

    // Stores the result of one more fold. Returns 1 if it was of too many events, 0 if not, and `None` if there was no
    // memory.
    #[tactic(auto, unfolding(crate::specs::Storms::TakenIn))]
    fn take_in(&mut self, answer: Result<Told<Vec<Recorded>>, FoldRefusal>) -> Option<u64>
        ensures well { IsWell self.new → IsWell self.old }
        ensures few { IfSome result (λ many. many ≤ 1) }
        ensures taken { IsWell self.new → TakenIn answer self.old.events.items self.new.events.items result }
    {
        match answer {
            Ok(reply) => {
                let mut events = reply.answer;
                match self.events.append(&mut events) {
                    Ok(()) => Some(0),
                    Err(_) => {
                        self.is_short_of_memory = true;
                        None
                    }
                }
            }
            Err(FoldRefusal::TooMany { .. }) => Some(1),
            Err(FoldRefusal::Memory) => {
                self.is_short_of_memory = true;
                None
            }
        }
    }
}

// Makes one command at the link, and waits for its result.
fn apply<R: Wait>(
    rt: &R,
    link: &Link,
    caller: &mut Caller,
    command: &Command,
) -> Result<Told<Answer>, Refusal>
    requires own { caller.old.lock ≡ link.now }
    ensures answered { Answers link.now caller.old command.now result caller.new }
    ensures stays { HasSameNumbers caller.old caller.new }
{
    match *command {
        Command::Arrive {
            moment,
            packet,
            word,
        } => link.arrive(rt, caller, moment, packet, word),
        Command::Depart { moment } => link.depart(rt, caller, moment),
        Command::Update { moment } => link.update(rt, caller, moment),
        Command::Reset { moment } => link.reset(rt, caller, moment),
        Command::SetParams { moment, params } => link.set_params(rt, caller, moment, params),
    }
}

// Returns the number that a result adds to the updates that were too soon; `None` if the book was full.
#[tactic(auto, unfolding(crate::specs::Storms::added_by))]
fn added_by(answer: &Result<Told<Answer>, Refusal>) -> Option<u64>
    ensures value { result ≡ added_by answer.now }
    ensures few { IfSome result (λ soon. soon ≤ 1) }
{
    match answer {
        Ok(_) => Some(0),
        Err(Refusal::TooSoon { .. }) => Some(1),
        Err(_) => None,
    }
}

// Returns the number that the results of a burst add to them: 0, since no arrival is too soon; `None` if one was
// refused, because the book was full.
fn added_by_all(answers: &[Result<Told<Answer>, Refusal>]) -> Option<u64>
    ensures { AddedByAll answers.now result }
{
    if answers.iter().all(|answer| answer.is_ok()) {
        Some(0)
    } else {
        None
    }
}

// Makes the `count` arrivals of a sender after its first `k`, in one call. Returns `None` if the book was full, or if
// there was no memory.
fn send_next<R: Wait>(
    rt: &R,
    link: &Link,
    plan: &Plan,
    number: u16,
    caller: &mut Caller,
    folding: &mut Folding,
    k: usize,
    count: usize,
) -> Option<u64>
    requires link_for { IsFor plan.now link.now }
    requires at { IsAt link.now number caller.old }
    requires sender { (1 ≤ number) × (number ≤ senders plan.now) }
    requires some { 1 ≤ count }
    requires there { k + count ≤ length (calls_of plan.now number) }
    ensures { TakesTurn link.now plan.now number k count caller.old caller.new folding.old folding.new result }
{
    pie_link::law::entries_look_back();
    let burst = plan.burst(number, k, count);
    folding.replies.clear();
    let Ok(()) = link.arrive_all(rt, caller, burst, &mut folding.replies) else {
        folding.is_short_of_memory = true;
        return None;
    };
    added_by_all(folding.replies.as_slice())
}

// Makes the `count` calls of a caller after its first `k`, in one turn at the link, and returns the number of skipped
// ones. Returns `None` if the book was full, or if there was no memory.
fn make_turn<R: Wait>(
    rt: &R,
    link: &Link,
    plan: &Plan,
    number: u16,
    caller: &mut Caller,
    folding: &mut Folding,
    k: usize,
    count: usize,
) -> Option<u64>
    requires link_for { IsFor plan.now link.now }
    requires at { IsAt link.now number caller.old }
    requires some { 1 ≤ count }
    requires turn { count ≤ turn_of plan.now number }
    requires there { k + count ≤ length (calls_of plan.now number) }
    ensures { TakesTurn link.now plan.now number k count caller.old caller.new folding.old folding.new result }
{
    if plan.turn(number) > 1 {
        return send_next(rt, link, plan, number, caller, folding, k, count);
    }
    pie_link::law::entries_look_back();
    match plan.call(number, k) {
        Some(Call::Apply(command)) => added_by(&apply(rt, link, caller, &command)),
        Some(Call::Fold(n)) => folding.take_in(link.fold(rt, caller, n)),
        None => unreachable!(),
    }
}

// Makes all calls of a caller with one number, and returns the number of skipped ones.
fn make_all<R: Wait, G: Gate>(
    rt: &R,
    link: &Link,
    plan: &Plan,
    gate: &G,
    number: u16,
    caller: &mut Caller,
    folding: &mut Folding,
) -> u64
    requires begins { Begins link.now plan.now caller.old }
    requires at { IsAt link.now number caller.old }
    requires none { folding.old.events.items ≡ [] }
    ensures { IsWorkOf link.now plan.now number (record { caller = caller.new; passed = result; too_soon = 0; folding = folding.new }) }
{
    let calls = plan.calls(number);
    let turn = plan.turn(number);
    let mut passed = 0u64;
    let mut k = 0;
    let mut call = 0u64;
    while k < calls {
        let count = turn.min(calls - k);
        call += 1;
        gate.before(number, call);
        let made = make_turn(rt, link, plan, number, caller, folding, k, count);
        gate.after(number, call);
        match made {
            Some(more) => {
                passed += more;
                k += count;
            }
            None => return passed,
        }
    }
    passed
}

/// Makes all calls of a caller with one number.
pub(crate) fn make_calls<R: Wait, G: Gate>(
    rt: &R,
    alloc: Global,
    link: &Link,
    plan: &Plan,
    gate: &G,
    caller: Caller,
) -> Work
    requires begins { Begins link.now plan.now caller }
    requires one { caller.limit ≡ caller.first + 1 }
    ensures { IsWorkOf link.now plan.now caller.first result }
{
    let mut caller = caller;
    let number = caller.first();
    let turn = plan.turn(number);
    let mut folding = Folding::none(alloc, if turn == 1 { 0 } else { turn });
    let passed = make_all(rt, link, plan, gate, number, &mut caller, &mut folding);
    Work {
        caller,
        passed,
        too_soon: 0,
        folding,
    }
}
