//! An open port: a caller of a link, and a share of the link.
ghost use Rattle.std.specs.Prelude.{◌≡◌, ◌≢◌, ◌==◌, ◌+◌, ◌↔◌, ◌≤◌, IfOk, IfErr, IfSome, IsOk, IsTrue, OnOk, OnErr, Some, false, if◌then◌else◌, vec_capacity};
ghost use Rattle.pie_link_c.specs.{arc_value, has_bad_ecn};

use crate::code::{NO_MEMORY, ONE_NUMBER};
use crate::event_results::{EventCall, fill, fill_code, fill_set};
use crate::excerpt::{ExcerptText, MOST, room, write_folded};
use atomic_table::TableRule;
use pie_abi::code::{BAD_ECN, BAD_PARAMS};
use pie_abi::event::{PARAMS, PieEvent};
use pie_abi::packet::ecn;
use pie_book::Recorded;
use pie_event::{Answer, Opening, Refusal};
use pie_link::{Caller, Entry, KeptBook, Link, Told, Tried};
use pie_lock::{LockOpening, LockRule, SeatKnowledge};
use pie_params::{Params, RawParams};
use pie_queue::Packet;
use std::alloc::{AllocFailed, Global};
use std::marker::Model;
use std::sync::Arc;

/// A caller of a link, and a share of the link.
#[derive(Drop)]
pub struct Port {
    pub(crate) link: Arc<Link, Global>,
    pub(crate) caller: Caller,
    /// The memory for the events of a fold.
    folded: Vec<Recorded>,
}

impl Model for Port {
    ghost use Rattle.std.specs.Prelude.{◌≡◌, ◌≤◌, vec_capacity};
    ghost use Rattle.pie_link_c.specs.{arc_value, CallerView};

    ghost Value = { CallerView };

    ghost view = { λ p. p.caller };

    ghost invariant = { λ p. (p.caller.lock ≡ arc_value p.link) × (64 ≤ vec_capacity p.folded) };
}

impl Port {
    ghost use Rattle.pie_link_c.specs.{first_pass, without_highest, highest_alone, IsBeside, IsBothOf, number_of, are_in_range, TriesToAnswer, KeepsOneHistory, HasSameNumbers, IsSetIfInRange, IsTriedUnless, IsFolded, command_in, has_bad_ecn};

    /// Returns the boxed port with all numbers of a new link, or `None` if there is no memory or `callers` is 0.
    pub(crate) fn of_opening(alloc: Global, opening: Opening, callers: u16) -> Option<Box<Port>>
        ensures origin { IfSome result (λ port. port.value.lock.origin ≡ Some opening) }
        ensures numbers { IfSome result (λ port. port.value.lock.numbers ≡ callers) }
        ensures first { IfSome result (λ port. port.value ≡ first_pass port.value.lock callers) }
        ensures headline { IfSome result (λ port. KeepsOneHistory
            ⟦<LockRule as TableRule<Option<KeptBook>, SeatKnowledge<Entry, Opening>, LockOpening<KeptBook>>>⟧.holds port.value.lock) }
    {
        let Ok((link, caller)) = Link::open_with(alloc, opening, callers) else {
            return None;
        };
        Port::of_link(alloc, link, caller)
    }

    // Returns the boxed port of a caller, or `None` if there is no memory.
    fn of_link(alloc: Global, link: Link, caller: Caller) -> Option<Box<Port>>
        requires own { caller.lock ≡ link }
        ensures { IfSome result (λ port. port.value ≡ caller) }
    {
        let Ok(link) = Arc::new(alloc, link) else {
            return None;
        };
        boxed(alloc, &link, caller).ok()
    }

    /// Makes this call for an event.
    #[inline(always)]
    fn apply(&mut self, call: EventCall, event: &PieEvent) -> Result<Told<Answer>, Tried<Refusal>>
        requires ecn { has_bad_ecn call event.now ≡ false }
        ensures tried { TriesToAnswer self.old.lock self.old (command_in call event.now) result self.new }
        ensures stays { HasSameNumbers self.old self.new }
    {
        match call {
            EventCall::Arrive => {
                let Some(ecn) = ecn(u32::from(event.ecn)) else {
                    unreachable!()
                };
                let packet = Packet {
                    tag: event.tag,
                    size: event.size,
                    ecn,
                };
                self.link
                    .try_arrive(&mut self.caller, event.moment, packet, event.word)
            }
            EventCall::Depart => self.link.try_depart(&mut self.caller, event.moment),
            EventCall::Update => self.link.try_update(&mut self.caller, event.moment),
            EventCall::Reset => self.link.try_reset(&mut self.caller, event.moment),
        }
    }

    /// Makes this call for an event, and writes the result to it.
    #[inline(always)]
    pub(crate) fn try_event(&mut self, call: EventCall, event: &mut PieEvent) -> u32
        ensures { IsTriedUnless (has_bad_ecn call event.old) call self.old event.old result event.new self.new }
    {
        let caller = self.caller.first();
        if has_bad_ecn(call, event) {
            fill_code(event, call, BAD_ECN);
            event.caller = caller;
            return BAD_ECN;
        }
        let reply = self.apply(call, event);
        fill(event, call, caller, &reply)
    }

    /// Sets the parameters, and writes the result to `event`.
    #[tactic(auto, unfolding(pie_abi::specs::Structs::are_in_range))]
    pub(crate) fn try_set_params(&mut self, params: &RawParams, event: &mut PieEvent) -> u32
        ensures { IsSetIfInRange (are_in_range params.now) params.now self.old event.old result event.new self.new }
    {
        let caller = self.caller.first();
        let Some(params) = Params::from_raw(*params) else {
            event.fill_other(PARAMS, BAD_PARAMS);
            event.caller = caller;
            return BAD_PARAMS;
        };
        let reply = self
            .link
            .try_set_params(&mut self.caller, event.moment, params);
        fill_set(event, caller, &reply)
    }

    /// Folds the oldest events of the log, and writes them.
    pub(crate) fn try_fold(
        &mut self,
        events: &mut [PieEvent],
        count: &mut usize,
        last: &mut u64,
        params: &mut RawParams,
    ) -> u32
        ensures { IsFolded self.old events.old last.old params.old result events.new count.new last.new params.new self.new }
    {
        self.folded.clear();
        let most = events.len().min(MOST);
        let reply = self
            .link
            .try_fold_into(&mut self.caller, most, &mut self.folded);
        write_folded(&reply, &self.folded, events, count, last, params)
    }

    /// Returns a new port with the highest number of this one. If that fails, this port keeps the number.
    pub(crate) fn share(&mut self, alloc: Global) -> Result<Box<Port>, u32>
        ensures shared { IfOk result (λ new. new.value ≡ highest_alone self.old) }
        ensures rest { OnOk result (self.new ≡ without_highest self.old) }
        ensures kept { OnErr result (self.new ≡ self.old) }
        ensures one { IfOk result (λ _. self.old.limit ≢ self.old.first + 1) }
        ensures codes { IfErr result (λ code. code ≡ (if self.old.limit == self.old.first + 1 then 125 else 123)) }
    {
        let _ = self.caller.first();
        let Ok(caller) = self.link.share(&mut self.caller) else {
            return Err(ONE_NUMBER);
        };
        match boxed(alloc, &self.link, caller) {
            Ok(port) => Ok(port),
            Err(caller) => {
                self.take_back(caller);
                Err(NO_MEMORY)
            }
        }
    }

    /// Joins a caller whose range is adjacent.
    fn take_back(&mut self, other: Caller)
        requires own { other.lock ≡ self.old.lock }
        requires beside { IsBeside self.old other }
        ensures { IsBothOf number_of self.old other self.new }
    {
        let _ = self.link.gather(&mut self.caller, other);
    }

    /// Joins another port of the link, or returns it if the ranges are not adjacent.
    pub(crate) fn gather(&mut self, other: Box<Port>) -> Result<(), Box<Port>>
        requires own { other.value.lock ≡ self.old.lock }
        ensures both { OnOk result (IsBothOf number_of self.old other.value self.new) }
        ensures beside { IsOk result ↔ IsBeside self.old other.value }
        ensures back { IfErr result (λ back. back.value ≡ other.value) }
        ensures unchanged { OnErr result (self.new ≡ self.old) }
    {
        if !self.is_beside(&other) {
            return Err(other);
        }
        self.take_back(Box::into_inner(other).into_caller());
        Ok(())
    }

    /// Returns true if the ranges are adjacent.
    fn is_beside(&self, other: &Port) -> bool
        ensures { IsTrue result ↔ IsBeside self.now other.now }
    {
        self.caller.limit() == other.caller.first() || other.caller.limit() == self.caller.first()
    }

    /// Returns the caller and drops the share of the link.
    fn into_caller(self) -> Caller
        ensures { result ≡ self }
    {
        let Port {
            link,
            caller,
            folded,
        } = self;
        drop(link);
        drop(folded);
        caller
    }
}

/// Returns true if the call is an arrival and the event's ECN field is invalid.
#[inline(always)]
pub(crate) fn has_bad_ecn(call: EventCall, event: &PieEvent) -> bool
    ensures { result ≡ has_bad_ecn call event.now }
{
    matches!(call, EventCall::Arrive) && event.ecn > 3
}

/// Returns a boxed port, or the caller if there is no memory.
fn boxed(alloc: Global, link: &Arc<Link, Global>, caller: Caller) -> Result<Box<Port>, Caller>
    requires own { caller.lock ≡ arc_value link.now }
    ensures port { IfOk result (λ port. port.value ≡ caller) }
    ensures back { IfErr result (λ back. back ≡ caller) }
{
    let Some(folded) = room(alloc) else {
        return Err(caller);
    };
    let Ok(link) = Arc::try_clone(link) else {
        return Err(caller);
    };
    let port = Port {
        link,
        caller,
        folded,
    };
    match Box::new(alloc, port) {
        Ok(port) => Ok(port),
        Err(AllocFailed { value }) => Err(value.into_caller()),
    }
}

/// Does nothing. It accepts a value that may go to another thread.
fn requires_send<T: Send>(value: &T) {
    let _ = value;
}

/// Does nothing. Its check shows that a port and an excerpt may go to another thread.
pub(crate) fn ports_cross_threads(port: &Port, text: &ExcerptText) {
    requires_send(port);
    requires_send(text);
}
