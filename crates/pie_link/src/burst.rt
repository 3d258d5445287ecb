//! Several commands of one caller that are decided one after another.
//! Bursts: several commands of one caller in one turn at the lock, with no call of another caller between.
//!
//! No burst allocates: the caller owns the memory of the results, such as a vector with enough room.
ghost use Rattle.std.specs.Prelude.{◌≡◌, ℕ, ◌+◌, ◌<◌, Bool, List, [], ◌∷◌, ◌++◌, length, ◌≢◌, ◌≤◌, ◌↔◌, IsTrue, Err, IfErr, IfOk, IsOk, None, OnOk, OnErr, map, vec_len, vec_capacity};
ghost use Rattle.pie_event.specs.declared.command.Command.{Command};
ghost use Rattle.pie_link.specs.Entries.{Reply, always, arrive, departures, has_left};
ghost use Rattle.pie_link.specs.Callers.{AnswersAll, AnswersWithin, TriesToAnswerAll, WasNotDone, WasRefused, HasSameNumbers, WasBusy};
ghost use Rattle.pie_link.specs.declared.entry.Tried.TheVariants.{Busy};

use crate::caller::Caller;
use crate::entry::{Arrival, NoRoom, Told, Tried};
use crate::link::Link;
use crate::turn;
use crate::vectors::{Arrivals, Departures};
use core::mem::{replace, replace_with};
use pie_book::{Answer, Command, Refusal};
use std::sync::Wait;

/// The result of a command: the answer with the number of its event, or a refusal.
pub type Reply = Result<Told<Answer>, Refusal>;

/// The results of a burst's commands.
pub type Replies = Vec<Reply>;

/// The commands of a burst and the place of their results (this project's own). The commands of one caller are decided
/// one after another, until a result ends the burst.
///
/// `commands` are the commands from a place on. `continues` is the test of a result after which the burst continues.
/// `received first burst replies` is a relation: `first` received these results, in order, and became `burst`. `has_room
/// burst place` means that the results from this place on fit. `room` is a number that never changes, such as the total
/// number of results that fit.
pub trait Burst {
    ghost commands: { Self → ℕ → List Command };

    ghost continues: { Self → Reply → Bool };

    ghost received: { Self → Self → List Reply → Type 0 };

    ghost room: { Self → ℕ };

    ghost has_room: { Self → ℕ → Type 0 };

    /// Returns the number of commands.
    fn count(&self) -> usize
        ensures { result ≡ length (commands self.now 0) };

    /// Returns the command at `place`, counted from 0.
    fn command(&self, place: usize) -> Command
        requires { 0 < length (commands self.now place) }
        ensures { commands self.now place ≡ result ∷ commands self.now (place + 1) };

    /// Stores the result of the command at `place`. Returns true if the burst continues.
    fn take(&mut self, place: usize, reply: Reply) -> bool
        requires place { 0 < length (commands self.old place) }
        requires room { has_room self.old place }
        ensures commands { commands self.new (place + 1) ≡ commands self.old (place + 1) }
        ensures ends { continues self.new ≡ continues self.old }
        ensures continues { result ≡ continues self.old reply }
        ensures received { (first : Self) (replies : List Reply) → received first self.old replies → received first self.new (replies ++ reply ∷ []) }
        ensures has_room { has_room self.new (place + 1) }
        ensures room { room self.new ≡ room self.old };
}

// Returns true if `answers` has room for `more` more elements.
fn has_room(answers: &Replies, more: usize) -> bool
    ensures { IsTrue result ↔ (vec_len answers.now + more ≤ vec_capacity answers.now) }
{
    more <= answers.capacity() - answers.len()
}

impl Link {
    // Decides the commands of a burst as single calls with no call of another caller between, until a result ends the
    // burst. A refused command changes nothing. A burst without commands takes no lock. If another caller has the book,
    // the call waits. It allocates nothing.
    fn answer_all<R: Wait, B: Burst>(&self, rt: &R, caller: &mut Caller, burst: B) -> B
        requires own { caller.old.lock ≡ self.now }
        requires room { B.has_room burst 0 }
        ensures answered { (first : B) (earlier : List Reply) → B.received first burst earlier → (replies : List Reply) × B.received first result replies
            × AnswersWithin None (B.continues burst) self.now caller.old (B.commands burst 0) earlier replies caller.new }
        ensures room { B.room result ≡ B.room burst }
        ensures stays { HasSameNumbers caller.old caller.new }
    {
        replace_with(
            &mut caller.pass,
            (self, rt, burst),
            turn::wait_and_answer_all,
        )
    }

    /// Decides the commands of any burst as single calls with no call of another caller between, until a result ends
    /// the burst. With a budget, in bytes, the burst also ends before a departure whose packet exceeds the remaining
    /// budget. A refused command changes nothing. A burst without commands takes no lock. The call never blocks and
    /// allocates nothing.
    ///
    /// # Errors
    ///
    /// If another caller has the book and the burst has commands, returns the burst unchanged.
    #[inline(always)]
    pub fn try_answer_all<B: Burst>(
        &self,
        caller: &mut Caller,
        budget: Option<u64>,
        burst: B,
    ) -> Result<B, B>
        requires own { caller.old.lock ≡ self.now }
        requires room { B.has_room burst 0 }
        ensures answered { IfOk result (λ after. (first : B) (earlier : List Reply) → B.received first burst earlier
            → (replies : List Reply) × B.received first after replies
            × AnswersWithin budget (B.continues burst) self.now caller.old (B.commands burst 0) earlier replies caller.new) }
        ensures busy { IfErr result (λ back. (back ≡ burst) × WasBusy caller.old caller.new) }
        ensures none { length (B.commands burst 0) ≡ 0 → IsOk result }
        ensures room { IfOk result (λ after. B.room after ≡ B.room burst) }
        ensures stays { HasSameNumbers caller.old caller.new }
    {
        replace_with(
            &mut caller.pass,
            (self, budget, burst),
            turn::try_answer_all,
        )
    }

    /// Decides the arrivals in order, as single calls of `arrive` with no call of another caller between, and pushes
    /// each result to `answers`. A refused packet changes nothing, and the next one is decided. A burst without packets
    /// takes no lock. If another caller has the book, the call waits. It allocates nothing.
    ///
    /// # Errors
    ///
    /// `NoRoom` if `answers` has room for fewer results than there are packets. Nothing is done then.
    pub fn arrive_all<R: Wait>(
        &self,
        rt: &R,
        caller: &mut Caller,
        arrivals: &[Arrival],
        answers: &mut Replies,
    ) -> Result<(), NoRoom>
        requires own { caller.old.lock ≡ self.now }
        ensures room { IsOk result ↔ (vec_len answers.old + length arrivals.now ≤ vec_capacity answers.old) }
        ensures answered { OnOk result
            (AnswersAll always self.now caller.old (map arrive arrivals.now) answers.old.items answers.new.items caller.new) }
        ensures refused { OnErr result (WasNotDone caller.old answers.old.items answers.new.items caller.new) }
        ensures capacity { vec_capacity answers.new ≡ vec_capacity answers.old }
        ensures stays { HasSameNumbers caller.old caller.new }
    {
        if !has_room(answers, arrivals.len()) {
            return Err(NoRoom);
        }
        let replies = replace(answers, Vec::new(self.alloc));
        let burst = Arrivals { arrivals, replies };
        *answers = self.answer_all(rt, caller, burst).replies;
        Ok(())
    }

    /// Decides the arrivals as `arrive_all` does. It never blocks.
    ///
    /// # Errors
    ///
    /// `Refused` with `NoRoom` if `answers` has room for fewer results than there are packets. `Busy` if another caller
    /// has the book and the burst has packets. Nothing is done then.
    #[tactic(auto, unfolding(crate::specs::Callers::TriesToAnswerAll))]
    pub fn try_arrive_all(
        &self,
        caller: &mut Caller,
        arrivals: &[Arrival],
        answers: &mut Replies,
    ) -> Result<(), Tried<NoRoom>>
        requires own { caller.old.lock ≡ self.now }
        ensures room { WasRefused result ↔ (vec_capacity answers.old < vec_len answers.old + length arrivals.now) }
        ensures answered { TriesToAnswerAll always self.now caller.old (map arrive arrivals.now) result answers.old.items answers.new.items
            caller.new }
        ensures none { length arrivals.now ≡ 0 → result ≢ Err Busy }
        ensures capacity { vec_capacity answers.new ≡ vec_capacity answers.old }
        ensures stays { HasSameNumbers caller.old caller.new }
    {
        if !has_room(answers, arrivals.len()) {
            return Err(Tried::Refused(NoRoom));
        }
        let replies = replace(answers, Vec::new(self.alloc));
        let burst = Arrivals { arrivals, replies };
        match self.try_answer_all(caller, None, burst) {
            Ok(after) => {
                *answers = after.replies;
                Ok(())
            }
            Err(back) => {
                *answers = back.replies;
                Err(Tried::Busy)
            }
        }
    }

    /// Decides up to `most` departures at one moment, as single calls of `depart` with no call of another caller
    /// between, and pushes each result to `answers`. The burst ends after `most` departures, or after the first without
    /// a packet: `Empty`, which is recorded, or a refusal, which is not. A burst of no departures takes no lock. If
    /// another caller has the book, the call waits. It allocates nothing.
    ///
    /// # Errors
    ///
    /// `NoRoom` if `answers` has room for fewer than `most` results. Nothing is done then.
    pub fn depart_all<R: Wait>(
        &self,
        rt: &R,
        caller: &mut Caller,
        moment: u64,
        most: usize,
        answers: &mut Replies,
    ) -> Result<(), NoRoom>
        requires own { caller.old.lock ≡ self.now }
        ensures room { IsOk result ↔ (vec_len answers.old + most ≤ vec_capacity answers.old) }
        ensures answered { OnOk result
            (AnswersAll has_left self.now caller.old (departures most moment) answers.old.items answers.new.items caller.new) }
        ensures refused { OnErr result (WasNotDone caller.old answers.old.items answers.new.items caller.new) }
        ensures capacity { vec_capacity answers.new ≡ vec_capacity answers.old }
        ensures stays { HasSameNumbers caller.old caller.new }
    {
        if !has_room(answers, most) {
            return Err(NoRoom);
        }
        let replies = replace(answers, Vec::new(self.alloc));
        let burst = Departures {
            moment,
            most,
            replies,
        };
        *answers = self.answer_all(rt, caller, burst).replies;
        Ok(())
    }
}
