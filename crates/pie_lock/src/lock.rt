//! The lock and its calls.
ghost use Rattle.std.specs.Prelude.{◌≡◌, ◌≢◌, ◌+◌, ◌<◌, ◌↔◌, [], ◌∷◌, ◌++◌, List, All, Some, None, IsOk, IsErr, IsTrue, IfOk, IfErr, OnOk, OnErr};

use crate::entries::{Entries, Kept, LockOpening, SeatKnowledge};
use crate::pass::{Announced, Held, MaySleep, Pass, WakeDue};
use crate::refusal::{LockRefusal, OneNumber, StillHeld};
use crate::rule::{
    Adding, FreeStep, JoinTwo, LockRule, LookStep, MergeStep, SplitHighest, TakeStep,
};
use atomic_table::{Refused, Seat, Table};
use crossbeam_utils::Backoff;
use std::alloc::Global;
use std::hint;
use std::marker::{Brand, Model};
use std::snapshot::Snapshot;
use std::sync::Wait;
use std::sync::atomic::{AtomicU64, Ordering};
use std::time::Duration;

// The lock's table has one word and one slot.
const WORD: usize = 0;

const SLOT: usize = 0;

// The word while no pass has the state.
const FREE: u64 = 0;

// The word while a pass has the state.
const HELD: u64 = 1;

// No thread sleeps; or a thread was woken, and sets AWAITED again if others still sleep.
const NOT_AWAITED: u64 = 0;

// A thread may sleep until a put.
const AWAITED: u64 = 1;

// The longest sleep, in milliseconds. It bounds the sleep of a thread after the put of a turn that does not wake.
const SLEEP: u64 = 1;

// The number of rounds in which a waiting thread spins or yields before it sleeps. A sleep with its wake costs about as
// much as some of these rounds.
const ROUNDS: u32 = 512;

// The number of calls from which a turn is long.
const LONG: usize = 16;

// The number of looks at the word in each round of a wait for a long turn: about two microseconds, the time of such a
// turn.
const LOOKS: usize = 32;

/// A lock around a state, which one pass at a time may take.
///
/// In contracts it is its identity, the origin of its first state, and its number of callers' numbers.
#[derive(Drop)]
pub struct RuledLock<S: Kept> {
    table: Table<Option<S>, SeatKnowledge<S::Entry, S::Origin>, LockOpening<S>, LockRule, Global>,
    // AWAITED while a thread may sleep until a put. No clause names it.
    awaited: AtomicU64,
}

impl<S: Kept> Model for RuledLock<S> {
    ghost use Rattle.std.specs.Prelude.{◌≡◌, Some};
    ghost use Rattle.pie_lock.specs.Rule.{LockView};

    ghost Value = { LockView S.Origin };

    ghost view = { λ l. record {
      id = l.table.shared.table_id;
      origin = Some (S.origin_of l.table.shared.key.state.value);
      numbers = l.table.shared.key.numbers;
    } };

    ghost invariant = { λ l. (l.table.shared.table_id.words ≡ 1) × (l.table.shared.table_id.slots ≡ 1) };
}

impl<S: Kept> RuledLock<S> {
    ghost use Rattle.pie_lock.specs.Rule.{HasAllNumbers, Extends, HasMerged, pass_at, with_front, AreAdjacent, IsIdle, IsLeaving, first_pass, HasTaken, pass_after, without_highest, highest_alone, IsBeside, IsBothOf};
    ghost use Rattle.pie_lock.specs.declared.entries.SeatKnowledge.TheVariants.{Idle};

    /// Returns a lock around `state`, and a pass with the numbers `0..numbers`.
    ///
    /// # Errors
    ///
    /// `NoNumbers` if `numbers` is 0, otherwise `Memory` if there is no memory for the lock. Both return the state.
    pub fn new(
        alloc: Global,
        state: S,
        numbers: u16,
    ) -> Result<(RuledLock<S>, Pass<S>), (S, LockRefusal)>
        requires { S.represents_list state [] }
        ensures origin { IfOk result (λ made. made.0.origin ≡ Some (S.origin_of state)) }
        ensures numbers { IfOk result (λ made. made.0.numbers ≡ numbers) }
        ensures pass { IfOk result (λ made. made.1 ≡ first_pass made.0 numbers) }
        ensures some { OnOk result (numbers ≢ 0) }
        ensures back { IfErr result (λ refused. refused.0 ≡ state) }
        ensures no_numbers { IfErr result (λ refused. (refused.1 ≡ LockRefusal.NoNumbers) ↔ (numbers ≡ 0)) }
    {
        if numbers == 0 {
            return Err((state, LockRefusal::NoNumbers));
        }
        let opening = LockOpening {
            state: Snapshot::of(&state),
            numbers,
        };
        let Ok(mut slots) = Vec::with_capacity(alloc, 1) else {
            return Err((state, LockRefusal::Memory));
        };
        slots.push_reserved(Some(state));
        match Table::new(alloc, &[FREE], slots, &opening) {
            Ok((table, seat)) => {
                let pass = Pass {
                    first: 0,
                    limit: numbers,
                    seat,
                };
                let awaited = AtomicU64::new(NOT_AWAITED);
                Ok((RuledLock { table, awaited }, pass))
            }
            Err(Refused { slots }) => Err((state_of(slots), LockRefusal::Memory)),
        }
    }

    // Takes the state out of the seat's slot.
    fn take_from_slot(&self, seat: &mut Seat<Option<S>, SeatKnowledge<S::Entry, S::Origin>>) -> S
        requires table { seat.old.table_id ≡ self.now.id }
        requires slot { (stored : S) × (seat.old.me.1 ≡ (0, Some stored) ∷ []) }
        ensures seat { (seat.new.table_id ≡ seat.old.table_id) × (seat.new.id ≡ seat.old.id) × (seat.new.me ≡ (seat.old.me.0, (0, None) ∷ [])) }
        ensures state { (stored : S) → seat.old.me.1 ≡ (0, Some stored) ∷ [] → result ≡ stored }
    {
        let Some(state) = self.table.shared.exchange(seat, SLOT, None) else {
            unreachable!()
        };
        state
    }

    // Puts `state` into the seat's slot.
    fn put_into_slot(
        &self,
        seat: &mut Seat<Option<S>, SeatKnowledge<S::Entry, S::Origin>>,
        state: S,
    )
        requires table { seat.old.table_id ≡ self.now.id }
        requires slot { seat.old.me.1 ≡ (0, None) ∷ [] }
        ensures seat { (seat.new.table_id ≡ seat.old.table_id) × (seat.new.id ≡ seat.old.id) }
        ensures slot { seat.new.me ≡ (seat.old.me.0, (0, Some state) ∷ []) }
    {
        let None = self.table.shared.exchange(seat, SLOT, Some(state)) else {
            unreachable!()
        };
    }

    // Frees the lock, whose state is in the seat's slot, and appends the entries `added` to the seat's front. The
    // entries name the step; they are not stored.
    fn free<J: Adding<S::Entry>>(
        &self,
        seat: &mut Seat<Option<S>, SeatKnowledge<S::Entry, S::Origin>>,
        added: &Snapshot<Entries<S::Entry>>,
    )
        requires table { seat.old.table_id ≡ self.now.id }
        requires added { J.added ≡ added.now.value }
        requires slot { (state : S) × IsLeaving S.number_of S.origin_of S.represents_list added.now.value state seat.old.me }
        ensures seat { (seat.new.table_id ≡ seat.old.table_id) × (seat.new.id ≡ seat.old.id) }
        ensures front { seat.new.me ≡ (Idle (with_front (pass_at seat.old.me.0) ((pass_at seat.old.me.0).front ++ added.now.value)), []) }
    {
        let _ = added;
        self.table.shared.store::<FreeStep<J>>(seat, WORD, FREE);
    }

    // Returns true if another pass has the state. It is a load: the cache line of the word stays shared. A failed
    // compare-exchange would take the line from the processor that has the state.
    fn is_held(&self, pass: &mut Pass<S>) -> bool
        requires own { pass.old.lock ≡ self.now }
        ensures same { pass.new ≡ pass.old }
        ensures other { IsTrue result → HasAllNumbers pass.old → ⊥ }
    {
        self.table.shared.load::<LookStep>(&mut pass.seat, WORD) != FREE
    }

    // Takes the state, unless another pass has it.
    fn take_if_free(&self, pass: Pass<S>) -> Result<Held<S>, Pass<S>>
        requires own { pass.lock ≡ self.now }
        ensures taken { IfOk result (HasTaken S.number_of S.origin_of S.represents_list pass) }
        ensures alone { HasAllNumbers pass → IsOk result }
        ensures busy { IfErr result (λ back. back ≡ pass) }
    {
        let Pass {
            first,
            limit,
            mut seat,
        } = pass;
        let found = self
            .table
            .shared
            .compare_exchange::<TakeStep>(&mut seat, WORD, FREE, HELD);
        if found != FREE {
            return Err(Pass { first, limit, seat });
        }
        let state = self.take_from_slot(&mut seat);
        Ok(Held {
            state,
            first,
            limit,
            seat,
        })
    }

    /// Takes the state. It never blocks.
    ///
    /// # Errors
    ///
    /// If another pass has the state, returns `pass` unchanged. A pass with all numbers always takes the state.
    pub fn try_take(&self, pass: Pass<S>) -> Result<Held<S>, Pass<S>>
        requires own { pass.lock ≡ self.now }
        ensures taken { IfOk result (HasTaken S.number_of S.origin_of S.represents_list pass) }
        ensures alone { HasAllNumbers pass → IsOk result }
        ensures busy { IfErr result (λ back. back ≡ pass) }
    {
        let mut pass = pass;
        if self.is_held(&mut pass) {
            return Err(pass);
        }
        self.take_if_free(pass)
    }

    /// Takes the state. If another pass has the state, the call waits, for an unknown time. The caller owes
    /// [`RuledLock::wake`] after its put.
    pub fn take<R: Wait>(&self, rt: &R, pass: Pass<S>) -> (Held<S>, WakeDue)
        requires own { pass.lock ≡ self.now }
        ensures taken { HasTaken S.number_of S.origin_of S.represents_list pass result.0 }
        ensures calls { result.1.calls.value ≡ 0 }
    {
        self.take_for(rt, pass, 0)
    }

    /// Takes the state as [`RuledLock::take`] does, for a turn of `calls` calls. A thread that waits for a long turn
    /// takes the state sooner after a put. The state then changes hands more often, which pays if turns are long. The
    /// history does not depend on `calls`, which the due wake names for the prover.
    pub fn take_for<R: Wait>(&self, rt: &R, pass: Pass<S>, calls: usize) -> (Held<S>, WakeDue)
        requires own { pass.lock ≡ self.now }
        ensures taken { HasTaken S.number_of S.origin_of S.represents_list pass result.0 }
        ensures calls { result.1.calls.value ≡ calls }
    {
        let due = WakeDue {
            calls: Snapshot::of(&calls),
            of_lock: (),
        };
        match self.take_if_free(pass) {
            Ok(held) => (held, due),
            Err(pass) => (self.wait_and_take(rt, pass, looks_for(calls)), due),
        }
    }

    // Waits for the state, with `looks` looks in each round. It is a function of its own, so that a call that need not
    // wait does not pay for it.
    #[inline(never)]
    fn wait_and_take<R: Wait>(&self, rt: &R, pass: Pass<S>, looks: usize) -> Held<S>
        requires own { pass.lock ≡ self.now }
        ensures { HasTaken S.number_of S.origin_of S.represents_list pass result }
    {
        let mut waiting = pass;
        let mut rounds = ROUNDS;
        let backoff = Backoff::new();
        for _ in rt.forever() {
            if rounds == 0 {
                break;
            }
            waiting = match self.try_take(waiting) {
                Ok(held) => return held,
                Err(pass) => pass,
            };
            if !self.seen_free(looks) {
                backoff.snooze();
                rounds -= 1;
            }
        }
        self.sleep_and_take(rt, waiting)
    }

    // Waits for the state, and sleeps between two looks.
    fn sleep_and_take<R: Wait>(&self, rt: &R, pass: Pass<S>) -> Held<S>
        requires own { pass.lock ≡ self.now }
        ensures { HasTaken S.number_of S.origin_of S.represents_list pass result }
    {
        let mut waiting = pass;
        for _ in rt.forever() {
            waiting = match self.look_awaited(waiting, self.announce()) {
                Ok(held) => return held,
                Err((pass, leave)) => {
                    self.sleep(rt, leave);
                    pass
                }
            };
        }
        unreachable!()
    }

    // Announces that this thread may sleep. After a sleep it announces again, since other threads may still sleep: the
    // put of the next holder then wakes one of them.
    fn announce(&self) -> Announced {
        self.awaited.store(AWAITED, Ordering::SeqCst);
        Announced(())
    }

    // Looks at the word after an announcement, and takes the state if it is free. A put that did not see the
    // announcement came before this look.
    fn look_awaited(
        &self,
        pass: Pass<S>,
        announced: Announced,
    ) -> Result<Held<S>, (Pass<S>, MaySleep)>
        requires own { pass.lock ≡ self.now }
        ensures taken { IfOk result (HasTaken S.number_of S.origin_of S.represents_list pass) }
        ensures busy { IfErr result (λ back. back.0 ≡ pass) }
    {
        let Announced(()) = announced;
        match self.try_take(pass) {
            Ok(held) => Ok(held),
            Err(pass) => Err((pass, MaySleep(()))),
        }
    }

    // Sleeps until a put wakes this thread, at most `SLEEP` milliseconds.
    fn sleep<R: Wait>(&self, rt: &R, leave: MaySleep) {
        let MaySleep(()) = leave;
        self.awaited
            .park_timeout(rt, AWAITED as u32, Duration::from_millis(SLEEP));
    }

    // Returns true if one of `looks` looks finds that no pass has the state.
    fn seen_free(&self, looks: usize) -> bool {
        for _ in 0..looks {
            if self.table.shared.peek(WORD) == FREE {
                return true;
            }
            hint::spin_loop();
        }
        false
    }

    /// Puts the state back, and appends the entries `added` of this turn to the history, in order. It never blocks, and
    /// wakes no thread.
    pub fn put(&self, held: Held<S>, added: Snapshot<Entries<S::Entry>>) -> Pass<S>
        requires own { held.lock ≡ self.now }
        requires number { All (λ e. S.number_of e ≡ held.first) added.value }
        requires origin { held.lock.origin ≡ Some (S.origin_of held.state) }
        requires represents { S.represents_list held.state (held.front ++ added.value) }
        ensures { result ≡ pass_after held added.value }
    {
        let Held {
            state,
            first,
            limit,
            mut seat,
        } = held;
        self.put_into_slot(&mut seat, state);
        self.free::<Brand>(&mut seat, &added);
        Pass { first, limit, seat }
    }

    /// Wakes one thread that sleeps until the state is put back, if there is one. It is the last step of a turn that
    /// began with [`RuledLock::take`] or [`RuledLock::take_for`]; `pass` is the result of the put. It is
    /// separate from the put, because a static library cannot contain a function that wakes threads; programs that never
    /// wait do not call it. A sleeping thread that is not woken looks again after a millisecond.
    pub fn wake(&self, pass: &Pass<S>, due: WakeDue)
        requires own { pass.now.lock ≡ self.now }
    {
        let _ = pass;
        let WakeDue {
            calls: _,
            of_lock: (),
        } = due;
        if self.awaited.load(Ordering::SeqCst) == AWAITED {
            self.awaited.store(NOT_AWAITED, Ordering::SeqCst);
            self.awaited.wake_one();
        }
    }

    /// Returns a new pass with the highest number of `pass` and the same front.
    ///
    /// # Errors
    ///
    /// `OneNumber` if `pass` has one number. Nothing is changed then.
    pub fn share(&self, pass: &mut Pass<S>) -> Result<Pass<S>, OneNumber>
        requires own { pass.old.lock ≡ self.now }
        ensures rest { OnOk result (pass.new ≡ without_highest pass.old) }
        ensures shared { IfOk result (λ new. new ≡ highest_alone pass.old) }
        ensures one_number { IsErr result ↔ (pass.old.limit ≡ pass.old.first + 1) }
        ensures unchanged { OnErr result (pass.new ≡ pass.old) }
    {
        let last = pass.limit - 1;
        if pass.first == last {
            return Err(OneNumber);
        }
        let seat = self.table.shared.split_seat::<SplitHighest>(&mut pass.seat);
        let new = Pass {
            first: last,
            limit: pass.limit,
            seat,
        };
        pass.limit = last;
        Ok(new)
    }

    /// Joins `other` to `pass`, which then has both ranges and the longer front.
    ///
    /// # Errors
    ///
    /// Returns `other` if the ranges are not adjacent: neither's `limit()` is the other's `first()`. Both passes are
    /// unchanged then.
    pub fn gather(&self, pass: &mut Pass<S>, other: Pass<S>) -> Result<(), Pass<S>>
        requires own { (pass.old.lock ≡ self.now) × (other.lock ≡ self.now) }
        ensures both { OnOk result (IsBothOf S.number_of pass.old other pass.new) }
        ensures beside { IsOk result ↔ IsBeside pass.old other }
        ensures back { IfErr result (λ back. back ≡ other) }
        ensures unchanged { OnErr result (pass.new ≡ pass.old) }
    {
        if pass.limit != other.first && other.limit != pass.first {
            return Err(other);
        }
        let Pass { first, limit, seat } = other;
        self.join(&mut pass.seat, seat);
        pass.first = pass.first.min(first);
        pass.limit = pass.limit.max(limit);
        Ok(())
    }

    // Joins two seats whose passes have adjacent ranges.
    fn join(
        &self,
        seat: &mut Seat<Option<S>, SeatKnowledge<S::Entry, S::Origin>>,
        other: Seat<Option<S>, SeatKnowledge<S::Entry, S::Origin>>,
    )
        requires tables { (seat.old.table_id ≡ self.now.id) × (other.table_id ≡ self.now.id) }
        requires waiting { IsIdle seat.old.me × IsIdle other.me }
        requires beside { AreAdjacent (pass_at seat.old.me.0) (pass_at other.me.0) }
        ensures seat { (seat.new.table_id ≡ seat.old.table_id) × (seat.new.id ≡ seat.old.id) }
        ensures merged { HasMerged S.number_of (pass_at seat.old.me.0) (pass_at other.me.0) seat.new.me }
    {
        self.table.shared.join_seat::<JoinTwo>(seat, other);
        self.table.shared.load::<MergeStep>(seat, WORD);
    }

    /// Closes the lock and returns the state. It never blocks.
    ///
    /// # Errors
    ///
    /// `StillHeld`, with the lock and the pass unchanged, if another pass has the state. A pass with all numbers always
    /// closes the lock, since no other pass exists.
    pub fn close(self, pass: Pass<S>) -> Result<S, StillHeld<S>>
        requires own { pass.lock ≡ self }
        ensures origin { IfOk result (λ state. pass.lock.origin ≡ Some (S.origin_of state)) }
        ensures represents { IfOk result (λ state. (history : List S.Entry) × Extends S.number_of pass.first pass.limit pass.front history
            × S.represents_list state history) }
        ensures alone { HasAllNumbers pass → IsOk result }
        ensures same { HasAllNumbers pass → IfOk result (λ state. S.represents_list state pass.front) }
        ensures numbered { HasAllNumbers pass → IfOk result (λ _. All (λ e. S.number_of e < pass.lock.numbers) pass.front) }
        ensures still_held { IfErr result (λ back. (back.lock ≡ self) × (back.pass ≡ pass)) }
    {
        match self.try_take(pass) {
            Ok(held) => {
                let Held {
                    state,
                    first: _,
                    limit: _,
                    seat: _,
                } = held;
                Ok(state)
            }
            Err(pass) => Err(StillHeld { lock: self, pass }),
        }
    }
}

// Returns the number of looks for a turn of `calls` calls.
fn looks_for(calls: usize) -> usize {
    if calls < LONG { 0 } else { LOOKS }
}

// Returns the state in the only slot.
fn state_of<S: Drop>(mut slots: Vec<Option<S>>) -> S
    requires { (state : S) × (slots.items ≡ Some state ∷ []) }
    ensures { (state : S) → slots.items ≡ Some state ∷ [] → result ≡ state }
{
    let Some(Some(state)) = slots.pop() else {
        unreachable!()
    };
    state
}
