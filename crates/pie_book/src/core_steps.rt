//! Decisions of a core: its controller makes one call, its queue takes or releases a packet, and its tally counts the
//! event.
ghost use Rattle.std.specs.Prelude.{◌≡◌, ◌<◌, ◌++◌, ◌∷◌, [], List, None, Some, IfOk, IfErr, OnErr, OnOk, ◌==◌, ◌≤◌, ◌^◌, ◌+◌, length, true, false};
ghost use Rattle.pie_book.specs.{Event, Opening, decision, refusal_by_rule, event_of, refused_or, Arrive, Depart, Update, Reset, SetParams, caller_moment, arrival_effect, IsSize, bytes_of, HasThreshold, Represents, largest_queue_updated, refusal_of, after_command, answer_in, call_in, arrival_of, departure_call, waiting_next, answer_of, step_in, core_after, IsNext};
ghost use Rattle.pie_event.specs.Cause.{is_queued};

use crate::core_state::{Core, RawCore};
use crate::recorded::{Recorded, RecordedEvent};
use crate::{Answer, Command, Refusal};
use pie_aqm::{ArrivingPacket, Verdict};
use pie_fixed::Nanos;
use pie_params::Params;
use pie_queue::{Ecn, MAX_SIZE, Packet};

impl Core {
    /// Decides a command of `caller` and counts it as an event. It allocates nothing.
    ///
    /// # Errors
    ///
    /// Returns the first that applies, and the core is unchanged: `Moment` if the moment is above `2^60 - 1`; `Size` if
    /// an arriving packet's size is outside 1 to 65535; `TooSoon` if an update is before the due moment; `Exhausted` if
    /// the limit of events is reached.
    #[inline(always)]
    #[tactic(auto, using(crate::proofs::CoreFacts::refusal_is))]
    pub fn step(&mut self, caller: u16, command: Command) -> Result<Answer, Refusal>
        ensures decides { (opening : Opening) (history : List Event) → Represents opening self.old history
            → result ≡ refused_or (refusal_by_rule opening history command) (decision opening history command) }
        ensures represents { (opening : Opening) (history : List Event) → Represents opening self.old history
            → IfOk result (λ answer. Represents opening self.new (history ++ event_of caller command answer ∷ [])) }
        ensures answers { result ≡ step_in self.old command }
        ensures after { OnOk result (self.new ≡ core_after self.old command) }
        ensures refused { OnErr result (self.new ≡ self.old) }
    {
        match self.check(&command) {
            Ok(moment) => Ok(self.advance(caller, moment, command).answer()),
            Err(why) => Err(why),
        }
    }

    /// Returns the moment of the command, or the refusal of the command without regard to the event log.
    pub(crate) fn check(&self, command: &Command) -> Result<Nanos, Refusal>
        ensures refused { IfErr result (λ why. refusal_of self.now command.now ≡ Some why) }
        ensures taken { IfOk result (λ _. refusal_of self.now command.now ≡ None) }
        ensures moment { IfOk result (λ moment. moment ≡ caller_moment command.now) }
        ensures room { IfOk result (λ _. self.now.count < self.now.max_events) }
    {
        self.raw.check(command)
    }

    /// Decides a command that is not refused, at its moment `moment`, and counts it. Returns the event.
    #[inline(always)]
    #[tactic(auto, using(crate::proofs::CoreFacts::next_decided))]
    pub(crate) fn advance(&mut self, caller: u16, moment: Nanos, command: Command) -> Recorded
        requires taken { refusal_of self.old command ≡ None }
        requires room { self.old.count < self.old.max_events }
        requires moment { moment ≡ caller_moment command }
        ensures event { result ≡ event_of caller command result.answer }
        ensures answer { result.answer ≡ answer_in self.old command }
        ensures next { IsNext self.old result }
        ensures after { self.new ≡ core_after self.old command }
        ensures decides { (opening : Opening) (history : List Event) → Represents opening self.old history
            → result.answer ≡ decision opening history command }
        ensures represents { (opening : Opening) (history : List Event) → Represents opening self.old history
            → Represents opening self.new (history ++ event_of caller command result.answer ∷ []) }
    {
        let recorded = self.raw.decide(caller, moment, command);
        self.raw.update_largest_queue();
        recorded
    }
}

impl RawCore {
    /// Returns the moment of the command, or its refusal, from the parts of the core.
    fn check(&self, command: &Command) -> Result<Nanos, Refusal>
        ensures refused { IfErr result (λ why. refusal_of self.now command.now ≡ Some why) }
        ensures taken { IfOk result (λ _. refusal_of self.now command.now ≡ None) }
        ensures moment { IfOk result (λ moment. moment ≡ caller_moment command.now) }
        ensures room { IfOk result (λ _. self.now.count < self.now.max_events) }
    {
        let Some(moment) = Nanos::from_units(command.moment()) else {
            return Err(Refusal::Moment);
        };
        match command {
            Command::Arrive { packet, .. } => {
                if packet.size == 0 || MAX_SIZE < packet.size {
                    return Err(Refusal::Size);
                }
            }
            Command::Update { .. } => {
                if self.controller.is_too_soon(moment) {
                    return Err(Refusal::TooSoon {
                        due: self.controller.due(),
                    });
                }
            }
            Command::Depart { .. } | Command::Reset { .. } | Command::SetParams { .. } => {}
        }
        if self.tally.count() == self.max_events {
            return Err(Refusal::Exhausted);
        }
        Ok(moment)
    }

    /// Decides a command that is not refused. Returns the event. The largest queue is not yet counted.
    #[inline(always)]
    fn decide(&mut self, caller: u16, moment: Nanos, command: Command) -> Recorded
        requires taken { refusal_of self.old command ≡ None }
        requires room { self.old.count < self.old.max_events }
        requires moment { moment ≡ caller_moment command }
        ensures event { result ≡ event_of caller command (answer_in self.old command) }
        ensures after { self.new ≡ after_command self.old command }
        ensures threshold { HasThreshold self.old.controller (call_in self.old command) }
    {
        match command {
            Command::Arrive { packet, word, .. } => self.arrive(caller, moment, packet, word),
            Command::Depart { .. } => self.depart(caller, moment),
            Command::Update { .. } => self.update(caller, moment),
            Command::Reset { .. } => self.reset(caller, moment),
            Command::SetParams { params, .. } => self.set(caller, moment, params),
        }
    }

    /// Includes the bytes in the queue after an event in the largest queue.
    #[inline(always)]
    fn update_largest_queue(&mut self)
        ensures { self.new ≡ largest_queue_updated self.old }
    {
        self.tally.update_largest_queue(self.queue.bytes());
    }

    /// Decides on an arriving packet, and queues it if its verdict is to queue or mark it.
    #[inline(always)]
    #[tactic(auto, using(std::proofs::lemmas::Bool::Decides::nat_tests))]
    pub(crate) fn arrive(
        &mut self,
        caller: u16,
        moment: Nanos,
        packet: Packet,
        word: u64,
    ) -> Recorded
        requires size { IsSize packet.size }
        requires room { self.old.count < self.old.max_events }
        ensures event { result ≡ event_of caller (Arrive moment packet word) (answer_in self.old (Arrive moment packet word)) }
        ensures after { self.new ≡ after_command self.old (Arrive moment packet word) }
    {
        let now = self.controller.moment().max(moment);
        let arrival = self.arrival(packet, word);
        let verdict = self.controller.arrive(arrival, moment);
        self.tally.arrived(verdict);
        self.admit(verdict, packet, now);
        Recorded::of(RecordedEvent::Arrived {
            caller,
            verdict,
            moment: moment.units(),
            packet,
            word,
        })
    }

    /// Returns an arriving packet with the queue before it.
    #[inline(always)]
    pub(crate) fn arrival(&self, packet: Packet, word: u64) -> ArrivingPacket
        ensures { result ≡ arrival_of self.now.waiting self.now.capacity packet word }
    {
        ArrivingPacket {
            queued: self.queue.bytes(),
            is_full: self.queue.len() == self.queue.capacity(),
            size: packet.size,
            ecn: packet.ecn,
            word,
        }
    }

    /// Queues the packet if its verdict is to queue or mark it.
    #[inline(always)]
    fn admit(&mut self, verdict: Verdict, packet: Packet, now: Nanos)
        requires size { IsSize packet.size }
        requires room { is_queued verdict ≡ true → (length self.old.waiting == self.old.capacity) ≡ false }
        requires bytes { is_queued verdict ≡ true → bytes_of self.old.waiting + packet.size ≤ 2 ^ 30 }
        ensures { self.new ≡ record self.old { waiting = waiting_next self.old.waiting now (arrival_effect packet (answer_of verdict)) } }
    {
        match verdict {
            Verdict::Enqueued => {
                let _ = self.queue.admit(packet, now);
            }
            Verdict::Marked => {
                let marked = Packet {
                    ecn: Ecn::Ce,
                    ..packet
                };
                let _ = self.queue.admit(marked, now);
            }
            Verdict::DroppedEarly | Verdict::DroppedBytes | Verdict::DroppedPackets => {}
        }
    }

    /// Removes the oldest packet, if there is one.
    #[inline(always)]
    pub(crate) fn depart(&mut self, caller: u16, moment: Nanos) -> Recorded
        requires room { self.old.count < self.old.max_events }
        ensures event { result ≡ event_of caller (Depart moment) (answer_in self.old (Depart moment)) }
        ensures after { self.new ≡ after_command self.old (Depart moment) }
        ensures threshold { HasThreshold self.old.controller (departure_call self.old.waiting moment) }
    {
        let Some(oldest) = self.queue.take() else {
            self.controller.advance_to(moment);
            self.tally.departed_empty();
            return Recorded::of(RecordedEvent::DepartedEmpty {
                caller,
                moment: moment.units(),
            });
        };
        let packet = oldest.packet;
        self.controller
            .depart(packet.size, self.queue.bytes(), oldest.since, moment);
        let now = self.controller.moment();
        let waited = now.units().saturating_sub(oldest.since.units());
        self.tally.departed(packet, waited);
        Recorded::of(RecordedEvent::Departed {
            caller,
            moment: moment.units(),
            packet,
        })
    }

    /// Makes an update.
    #[inline(always)]
    pub(crate) fn update(&mut self, caller: u16, moment: Nanos) -> Recorded
        requires room { self.old.count < self.old.max_events }
        ensures event { result ≡ event_of caller (Update moment) (answer_in self.old (Update moment)) }
        ensures after { self.new ≡ after_command self.old (Update moment) }
    {
        let delay = self.controller.update(self.queue.bytes(), moment);
        self.tally.updated(delay);
        let control = self.controller.raw().control;
        Recorded::of(RecordedEvent::Updated {
            caller,
            moment: moment.units(),
            delay,
            prob: control.prob,
            burst: control.burst,
        })
    }

    /// Makes a reset.
    pub(crate) fn reset(&mut self, caller: u16, moment: Nanos) -> Recorded
        requires room { self.old.count < self.old.max_events }
        ensures event { result ≡ event_of caller (Reset moment) (answer_in self.old (Reset moment)) }
        ensures after { self.new ≡ after_command self.old (Reset moment) }
    {
        self.controller.reset(moment);
        self.tally.reset_done();
        Recorded::of(RecordedEvent::ResetDone {
            caller,
            moment: moment.units(),
        })
    }

    /// Sets the parameters.
    pub(crate) fn set(&mut self, caller: u16, moment: Nanos, params: Params) -> Recorded
        requires room { self.old.count < self.old.max_events }
        ensures event { result ≡ event_of caller (SetParams moment params) (answer_in self.old (SetParams moment params)) }
        ensures after { self.new ≡ after_command self.old (SetParams moment params) }
    {
        self.controller.set_params(params, moment);
        self.tally.changed();
        Recorded::of(RecordedEvent::Changed {
            caller,
            moment: moment.units(),
            params,
        })
    }
}
