//! The calls of a link. Each call takes the lock once and puts the book back.
//!
//! Moments are nanoseconds from a common start that the callers choose, at most `2^60 - 1`. The lock decides the order
//! of the calls of two callers.
ghost use Rattle.std.specs.Prelude.{◌≡◌, ◌+◌, ◌-◌, ◌≤◌, min, vec_capacity, vec_len};
ghost use Rattle.pie_event.specs.declared.command.Command.TheVariants.{Arrive, Depart, Update, Reset, SetParams};
ghost use Rattle.pie_book.specs.Decision.{registers_after, stats_after};
ghost use Rattle.pie_link.specs.Callers.{Answers, TriesToAnswer, Folds, TriesToFold, TriesToFoldInto, Reads, TriesToRead, HasSameNumbers, FillsExcerpt, TriesToFillExcerpt};

use crate::caller::Caller;
use crate::entry::{Told, Tried};
use crate::link::Link;
use crate::turn;
use core::mem::{replace, replace_with};
use pie_book::{
    Answer, Command, Excerpt, FoldRefusal, Recorded, Refusal, Registers, Stats, TooSmall,
};
use pie_params::Params;
use pie_queue::Packet;
use std::sync::Wait;

impl Link {
    /// Decides an arrival with the caller's random word `word` (see `Command::Arrive`). It never blocks.
    ///
    /// # Errors
    ///
    /// `Busy` if another caller has the book; `Refused` with the refusals of `Book::apply`, in its order. No event is
    /// recorded then.
    pub fn try_arrive(
        &self,
        caller: &mut Caller,
        moment: u64,
        packet: Packet,
        word: u64,
    ) -> Result<Told<Answer>, Tried<Refusal>>
        requires own { caller.old.lock ≡ self.now }
        ensures answered { TriesToAnswer self.now caller.old (Arrive moment packet word) result caller.new }
        ensures stays { HasSameNumbers caller.old caller.new }
    {
        let request = (self, moment, packet, word);
        replace_with(&mut caller.pass, request, turn::try_arrive)
    }

    /// Takes the next packet from the queue (see `Command::Depart`). It never blocks.
    ///
    /// # Errors
    ///
    /// `Busy` if another caller has the book; `Refused` with the refusals of `Book::apply`, in its order. No event is
    /// recorded then.
    pub fn try_depart(
        &self,
        caller: &mut Caller,
        moment: u64,
    ) -> Result<Told<Answer>, Tried<Refusal>>
        requires own { caller.old.lock ≡ self.now }
        ensures answered { TriesToAnswer self.now caller.old (Depart moment) result caller.new }
        ensures stays { HasSameNumbers caller.old caller.new }
    {
        replace_with(&mut caller.pass, (self, moment), turn::try_depart)
    }

    /// Updates the probability (see `Command::Update`). It never blocks.
    ///
    /// # Errors
    ///
    /// `Busy` if another caller has the book; `Refused` with the refusals of `Book::apply`, in its order. No event is
    /// recorded then.
    pub fn try_update(
        &self,
        caller: &mut Caller,
        moment: u64,
    ) -> Result<Told<Answer>, Tried<Refusal>>
        requires own { caller.old.lock ≡ self.now }
        ensures answered { TriesToAnswer self.now caller.old (Update moment) result caller.new }
        ensures stays { HasSameNumbers caller.old caller.new }
    {
        let request = (self, &Command::Update { moment });
        replace_with(&mut caller.pass, request, turn::try_apply)
    }

    /// Resets the probability, the delays and the rate estimate (see `Command::Reset`). It never blocks.
    ///
    /// # Errors
    ///
    /// `Busy` if another caller has the book; `Refused` with the refusals of `Book::apply`, in its order. No event is
    /// recorded then.
    pub fn try_reset(
        &self,
        caller: &mut Caller,
        moment: u64,
    ) -> Result<Told<Answer>, Tried<Refusal>>
        requires own { caller.old.lock ≡ self.now }
        ensures answered { TriesToAnswer self.now caller.old (Reset moment) result caller.new }
        ensures stays { HasSameNumbers caller.old caller.new }
    {
        let request = (self, &Command::Reset { moment });
        replace_with(&mut caller.pass, request, turn::try_apply)
    }

    /// Sets the parameters from the next event on (see `Command::SetParams`). It never blocks.
    ///
    /// # Errors
    ///
    /// `Busy` if another caller has the book; `Refused` with the refusals of `Book::apply`, in its order. No event is
    /// recorded then.
    pub fn try_set_params(
        &self,
        caller: &mut Caller,
        moment: u64,
        params: Params,
    ) -> Result<Told<Answer>, Tried<Refusal>>
        requires own { caller.old.lock ≡ self.now }
        ensures answered { TriesToAnswer self.now caller.old (SetParams moment params) result caller.new }
        ensures stays { HasSameNumbers caller.old caller.new }
    {
        let request = (self, &Command::SetParams { moment, params });
        replace_with(&mut caller.pass, request, turn::try_apply)
    }

    /// Decides an arrival with the caller's random word `word` (see `Command::Arrive`). If another caller has the book,
    /// the call waits.
    ///
    /// # Errors
    ///
    /// The refusals of `Book::apply`, in its order. No event is recorded then.
    pub fn arrive<R: Wait>(
        &self,
        rt: &R,
        caller: &mut Caller,
        moment: u64,
        packet: Packet,
        word: u64,
    ) -> Result<Told<Answer>, Refusal>
        requires own { caller.old.lock ≡ self.now }
        ensures answered { Answers self.now caller.old (Arrive moment packet word) result caller.new }
        ensures stays { HasSameNumbers caller.old caller.new }
    {
        let request = (self, rt, moment, packet, word);
        replace_with(&mut caller.pass, request, turn::wait_and_arrive)
    }

    /// Takes the next packet from the queue (see `Command::Depart`). If another caller has the book, the call waits.
    ///
    /// # Errors
    ///
    /// The refusals of `Book::apply`, in its order. No event is recorded then.
    pub fn depart<R: Wait>(
        &self,
        rt: &R,
        caller: &mut Caller,
        moment: u64,
    ) -> Result<Told<Answer>, Refusal>
        requires own { caller.old.lock ≡ self.now }
        ensures answered { Answers self.now caller.old (Depart moment) result caller.new }
        ensures stays { HasSameNumbers caller.old caller.new }
    {
        replace_with(&mut caller.pass, (self, rt, moment), turn::wait_and_depart)
    }

    /// Updates the probability (see `Command::Update`). If another caller has the book, the call waits.
    ///
    /// # Errors
    ///
    /// The refusals of `Book::apply`, in its order. No event is recorded then.
    pub fn update<R: Wait>(
        &self,
        rt: &R,
        caller: &mut Caller,
        moment: u64,
    ) -> Result<Told<Answer>, Refusal>
        requires own { caller.old.lock ≡ self.now }
        ensures answered { Answers self.now caller.old (Update moment) result caller.new }
        ensures stays { HasSameNumbers caller.old caller.new }
    {
        let request = (self, rt, &Command::Update { moment });
        replace_with(&mut caller.pass, request, turn::wait_and_apply)
    }

    /// Resets the probability, the delays and the rate estimate (see `Command::Reset`). If another caller has the book,
    /// the call waits.
    ///
    /// # Errors
    ///
    /// The refusals of `Book::apply`, in its order. No event is recorded then.
    pub fn reset<R: Wait>(
        &self,
        rt: &R,
        caller: &mut Caller,
        moment: u64,
    ) -> Result<Told<Answer>, Refusal>
        requires own { caller.old.lock ≡ self.now }
        ensures answered { Answers self.now caller.old (Reset moment) result caller.new }
        ensures stays { HasSameNumbers caller.old caller.new }
    {
        let request = (self, rt, &Command::Reset { moment });
        replace_with(&mut caller.pass, request, turn::wait_and_apply)
    }

    /// Sets the parameters from the next event on (see `Command::SetParams`). If another caller has the book, the call
    /// waits.
    ///
    /// # Errors
    ///
    /// The refusals of `Book::apply`, in its order. No event is recorded then.
    pub fn set_params<R: Wait>(
        &self,
        rt: &R,
        caller: &mut Caller,
        moment: u64,
        params: Params,
    ) -> Result<Told<Answer>, Refusal>
        requires own { caller.old.lock ≡ self.now }
        ensures answered { Answers self.now caller.old (SetParams moment params) result caller.new }
        ensures stays { HasSameNumbers caller.old caller.new }
    {
        let request = (self, rt, &Command::SetParams { moment, params });
        replace_with(&mut caller.pass, request, turn::wait_and_apply)
    }

    /// Folds the oldest `n` events of the event log and returns them, oldest first. The log then has room for `n` more
    /// events. The history is unchanged, and so is each later result except `HistoryFull`. The call never blocks.
    ///
    /// # Errors
    ///
    /// `Busy` if another caller has the book; `Refused` with `TooMany` if the log has fewer than `n` events, or with
    /// `Memory` if there is no memory for them, which needs `n` above 0. Nothing is folded then.
    pub fn try_fold(
        &self,
        caller: &mut Caller,
        n: u64,
    ) -> Result<Told<Vec<Recorded>>, Tried<FoldRefusal>>
        requires own { caller.old.lock ≡ self.now }
        ensures folded { TriesToFold self.now caller.old n result caller.new }
        ensures stays { HasSameNumbers caller.old caller.new }
    {
        replace_with(&mut caller.pass, (self, n), turn::try_fold)
    }

    /// Folds the oldest `n` events of the event log and returns them, oldest first. The log then has room for `n` more
    /// events. The history is unchanged, and so is each later result except `HistoryFull`. If another caller has the
    /// book, the call waits.
    ///
    /// # Errors
    ///
    /// `TooMany` if the log has fewer than `n` events; `Memory` if there is no memory for them, which needs `n` above
    /// 0. Nothing is folded then.
    pub fn fold<R: Wait>(
        &self,
        rt: &R,
        caller: &mut Caller,
        n: u64,
    ) -> Result<Told<Vec<Recorded>>, FoldRefusal>
        requires own { caller.old.lock ≡ self.now }
        ensures folded { Folds self.now caller.old n result caller.new }
        ensures stays { HasSameNumbers caller.old caller.new }
    {
        replace_with(&mut caller.pass, (self, rt, n), turn::wait_and_fold)
    }

    /// Folds the oldest events of the event log and appends them to `events`, oldest first: at most `most`, only those
    /// that fit, and none after one that sets parameters. The history is unchanged, and so is each later result except
    /// `HistoryFull`. The call never blocks and allocates nothing. If the log has no events, the call folds none and
    /// succeeds.
    ///
    /// Returns the number of folded events, with the number of the last event in the checkpoint after the fold. The
    /// folded events have the numbers `number - answer + 1` to `number`. So a caller sees which events of a rolling
    /// link no fold returned.
    ///
    /// # Errors
    ///
    /// `Busy` if another caller has the book. There is no other error.
    pub fn try_fold_into(
        &self,
        caller: &mut Caller,
        most: usize,
        events: &mut Vec<Recorded>,
    ) -> Result<Told<usize>, Tried<Refusal>>
        requires own { caller.old.lock ≡ self.now }
        ensures folded { TriesToFoldInto self.now caller.old (min most (vec_capacity events.old - vec_len events.old)) result events.old.items
            events.new.items caller.new }
        ensures within { vec_len events.new ≤ vec_len events.old + most }
        ensures capacity { vec_capacity events.new ≡ vec_capacity events.old }
        ensures stays { HasSameNumbers caller.old caller.new }
    {
        let buffer = replace(events, Vec::new(self.alloc));
        let (buffer, result) = replace_with(
            &mut caller.pass,
            (self, most, buffer),
            turn::try_fold_into,
        );
        *events = buffer;
        result
    }

    /// Returns the registers of the book. It never blocks.
    ///
    /// # Errors
    ///
    /// `Busy` if another caller has the book. There is no other error.
    pub fn try_registers(&self, caller: &mut Caller) -> Result<Told<Registers>, Tried<Refusal>>
        requires own { caller.old.lock ≡ self.now }
        ensures read { TriesToRead registers_after self.now caller.old result caller.new }
        ensures stays { HasSameNumbers caller.old caller.new }
    {
        replace_with(&mut caller.pass, self, turn::try_read)
    }

    /// Returns the registers of the book. If another caller has the book, the call waits.
    pub fn registers<R: Wait>(&self, rt: &R, caller: &mut Caller) -> Told<Registers>
        requires own { caller.old.lock ≡ self.now }
        ensures read { Reads registers_after self.now caller.old result caller.new }
        ensures stays { HasSameNumbers caller.old caller.new }
    {
        replace_with(&mut caller.pass, (self, rt), turn::wait_and_read)
    }

    /// Returns the statistics of all events. It never blocks.
    ///
    /// # Errors
    ///
    /// `Busy` if another caller has the book. There is no other error.
    pub fn try_stats(&self, caller: &mut Caller) -> Result<Told<Stats>, Tried<Refusal>>
        requires own { caller.old.lock ≡ self.now }
        ensures read { TriesToRead stats_after self.now caller.old result caller.new }
        ensures stays { HasSameNumbers caller.old caller.new }
    {
        replace_with(&mut caller.pass, self, turn::try_read)
    }

    /// Returns the statistics of all events. If another caller has the book, the call waits.
    pub fn stats<R: Wait>(&self, rt: &R, caller: &mut Caller) -> Told<Stats>
        requires own { caller.old.lock ≡ self.now }
        ensures read { Reads stats_after self.now caller.old result caller.new }
        ensures stays { HasSameNumbers caller.old caller.new }
    {
        replace_with(&mut caller.pass, (self, rt), turn::wait_and_read)
    }

    /// Copies the events that the book still stores into `excerpt`, at least those of the event log, with their
    /// preamble. Other callers wait only while they are copied. The call allocates nothing, and the history is
    /// unchanged. If another caller has the book, the call waits.
    ///
    /// # Errors
    ///
    /// `TooSmall` if the excerpt has less room than a book with the link's limits may need (`Excerpt::with_room`). The
    /// excerpt is unchanged then.
    pub fn excerpt<R: Wait>(
        &self,
        rt: &R,
        caller: &mut Caller,
        excerpt: &mut Excerpt,
    ) -> Result<(), TooSmall>
        requires own { caller.old.lock ≡ self.now }
        ensures filled { FillsExcerpt self.now caller.old result excerpt.old excerpt.new caller.new }
        ensures stays { HasSameNumbers caller.old caller.new }
    {
        let request = (self, rt, excerpt.take(self.alloc));
        let (filled, result) = replace_with(&mut caller.pass, request, turn::wait_and_fill);
        *excerpt = filled;
        result
    }

    /// Fills `excerpt` as [`Link::excerpt`] does. It never blocks.
    ///
    /// # Errors
    ///
    /// `Busy` if another caller has the book; `Refused` with `TooSmall` if the excerpt has less room than a book with
    /// the link's limits may need. The excerpt is unchanged then.
    pub fn try_excerpt(
        &self,
        caller: &mut Caller,
        excerpt: &mut Excerpt,
    ) -> Result<(), Tried<TooSmall>>
        requires own { caller.old.lock ≡ self.now }
        ensures filled { TriesToFillExcerpt self.now caller.old result excerpt.old excerpt.new caller.new }
        ensures stays { HasSameNumbers caller.old caller.new }
    {
        let request = (self, excerpt.take(self.alloc));
        let (filled, result) = replace_with(&mut caller.pass, request, turn::try_fill);
        *excerpt = filled;
        result
    }
}
