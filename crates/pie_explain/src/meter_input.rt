//! The meter's input for an event.
ghost use Rattle.std.specs.Prelude.{◌≡◌, ◌<◌, ℕ, Some, None, option_map};
ghost use Rattle.pie_explain.specs.declared.explanation.Explained.{Explained};
ghost use Rattle.pie_queue.specs.declared.packet.Packet.{Packet};
ghost use Rattle.pie_event.specs.declared.{command.Answer.TheVariants.Done, command.Answer.TheVariants.Empty, command.Answer.TheVariants.Left, command.Answer.TheVariants.Updated, command.Verdict.Verdict};
ghost use Rattle.pie_event.specs.Cause.{name_of, answer_of};
ghost use Rattle.pie_explain.specs.Sums.{HasConditions, answer_place, cause_of, meter_input_by, meter_input_of, size_by, size_in, turned_at};

use crate::Explained;
use pie_book::{Answer, Cause, Command};
use pie_event::CauseName;
use pie_queue::{Ecn, Packet};

// The places of the counts of answers.
pub(crate) const QUEUED: usize = 0;

pub(crate) const MARKED: usize = 1;

pub(crate) const EARLY: usize = 2;

pub(crate) const NO_BYTES: usize = 3;

pub(crate) const NO_PACKETS: usize = 4;

pub(crate) const LEFT: usize = 5;

pub(crate) const EMPTY: usize = 6;

pub(crate) const UPDATED: usize = 7;

pub(crate) const DONE: usize = 8;

/// The meter's input for an event. A field that its kind does not have is `None` or 0.
#[derive(Clone, Copy)]
pub struct MeterInput {
    /// The place of its answer's count, 0 to 8: queued, marked, dropped early, in bytes, in packets, a packet that left, none that did, an
    /// update, and a reset or new parameters.
    pub answer: usize,
    /// The name of an arrival's cause.
    pub cause: Option<CauseName>,
    /// Its effective moment, in nanoseconds.
    pub moment: u64,
    /// The size of an arriving packet, in bytes.
    pub arrived: Option<u64>,
    /// The time that a departing packet spent in the queue, in nanoseconds.
    pub wait: Option<u64>,
    /// The effective moment of a packet's departure.
    pub left: Option<u64>,
    /// The excess of a departing packet's waiting time over the target, in nanoseconds, if it is above the target.
    pub excess: Option<u64>,
    /// The delay that an update took while the controller was active, in nanoseconds.
    pub delay: Option<u64>,
    /// The probability after it, in units of 10^-12.
    pub prob: u64,
    /// Its effective moment, if it turned the controller on.
    pub turned_on: Option<u64>,
    /// Its effective moment, if it turned the controller off.
    pub turned_off: Option<u64>,
    /// The size of a departing packet, in bytes.
    pub carried: u64,
    /// The time since the previous update, for an update that took a delay above the target while the controller
    /// was active.
    pub above: u64,
    /// The target after it, in nanoseconds.
    pub target: u64,
    /// The burst allowance after it, in nanoseconds.
    pub burst: u64,
}

/// The controller's numbers before and after an event of any kind. Times are in nanoseconds, probabilities in units
/// of 10^-12.
#[derive(Clone, Copy)]
pub struct Conditions {
    /// Its effective moment.
    pub moment: u64,
    /// True if the controller was active before it.
    pub was_active: bool,
    /// True if the controller is active after it.
    pub is_active: bool,
    /// The target before it.
    pub old_target: u64,
    /// The moment of the last update before it.
    pub last_update: u64,
    /// The probability after it.
    pub prob: u64,
    /// The burst allowance after it.
    pub burst: u64,
    /// The target after it.
    pub target: u64,
}

/// Returns the place of an answer's count.
#[inline(always)]
fn answer_place(answer: Answer) -> usize
    ensures place { result ≡ answer_place answer }
    ensures within { result < 9 }
{
    match answer {
        Answer::Enqueued => QUEUED,
        Answer::Marked => MARKED,
        Answer::DroppedEarly => EARLY,
        Answer::DroppedBytes => NO_BYTES,
        Answer::DroppedPackets => NO_PACKETS,
        Answer::Left(_) => LEFT,
        Answer::Empty => EMPTY,
        Answer::Updated { .. } => UPDATED,
        Answer::Done => DONE,
    }
}

/// Returns the name of an arrival's cause; `None` for any other event.
fn cause_named(cause: Option<Cause>) -> Option<CauseName>
    ensures { result ≡ option_map name_of cause }
{
    match cause {
        Some(cause) => Some(cause.name()),
        None => None,
    }
}

/// Returns the size of the packet that arrived.
fn size_by(command: Command) -> Option<u64>
    ensures { result ≡ size_by command }
{
    match command {
        Command::Arrive { packet, .. } => Some(u64::from(packet.size)),
        _ => None,
    }
}

/// Returns the moment of an event that changed the controller's activity in this direction, `on` or off, by the activity before and after the event.
#[inline(always)]
fn turned_at(on: bool, was_active: bool, is_active: bool, moment: u64) -> Option<u64>
    ensures { result ≡ turned_at on was_active is_active moment }
{
    match (on, was_active, is_active) {
        (true, false, true) | (false, true, false) => Some(moment),
        _ => None,
    }
}

impl Conditions {
    /// Returns the meter's input for an event with this answer. `cause` is the name of its cause, `arrived` the
    /// size of an arriving packet, and `waited` a departing packet's time in the queue. The function is inlined, so
    /// a caller for one kind of event computes only the fields of that kind.
    #[inline(always)]
    #[tactic(auto, unfolding(crate::specs::Sums::meter_input_by))]
    pub(crate) fn noted(
        &self,
        answer: Answer,
        cause: Option<CauseName>,
        arrived: Option<u64>,
        waited: u64,
    ) -> MeterInput
        ensures adds { result ≡ meter_input_by self.now answer cause arrived waited }
        ensures within { result.answer < 9 }
    {
        let plain = MeterInput {
            answer: answer_place(answer),
            cause,
            moment: self.moment,
            arrived,
            wait: None,
            left: None,
            excess: None,
            delay: None,
            prob: self.prob,
            turned_on: turned_at(true, self.was_active, self.is_active, self.moment),
            turned_off: turned_at(false, self.was_active, self.is_active, self.moment),
            carried: 0,
            above: 0,
            target: self.target,
            burst: self.burst,
        };
        match answer {
            Answer::Left(packet) => MeterInput {
                wait: Some(waited),
                left: Some(self.moment),
                excess: if self.old_target < waited {
                    Some(waited - self.old_target)
                } else {
                    None
                },
                carried: u64::from(packet.size),
                ..plain
            },
            Answer::Updated { delay, .. } => {
                let is_above = self.was_active && self.old_target < delay;
                let since = self.moment.saturating_sub(self.last_update);
                MeterInput {
                    delay: if self.was_active { Some(delay) } else { None },
                    above: if is_above { since } else { 0 },
                    ..plain
                }
            }
            _ => plain,
        }
    }

    /// Returns the input for an arrival with this answer's place, a cause of this name and this size.
    #[inline(always)]
    #[tactic(auto, unfolding(crate::specs::Sums::meter_input_by))]
    pub fn arrived(&self, answer: usize, cause: Option<CauseName>, size: u32) -> MeterInput
        ensures places { (result.answer ≡ answer) × (result.cause ≡ cause) }
        ensures adds { (one : Explained) (verdict : Verdict) → HasConditions self.now one → one.explanation.event.answer ≡ answer_of verdict
            → answer ≡ answer_place (answer_of verdict) → cause ≡ cause_of one → size_in one ≡ Some size → result ≡ meter_input_of one }
    {
        MeterInput {
            answer,
            ..self.noted(Answer::Done, cause, Some(u64::from(size)), 0)
        }
    }

    /// Returns the input for the departure of a packet of `size` bytes that waited `waited` nanoseconds.
    #[inline(always)]
    #[tactic(auto, unfolding(crate::specs::Sums::meter_input_by))]
    pub fn left(&self, size: u32, waited: u64) -> MeterInput
        ensures places { (result.answer ≡ 5) × (result.cause ≡ None) }
        ensures adds { (one : Explained) (packet : Packet) → HasConditions self.now one → one.explanation.event.answer ≡ Left packet → packet.size ≡ size
            → one.explanation.waited ≡ waited → one.explanation.cause ≡ None → size_in one ≡ None → result ≡ meter_input_of one }
    {
        let (tag, ecn) = (0, Ecn::NotEct);
        let packet = Packet { tag, size, ecn };
        self.noted(Answer::Left(packet), None, None, waited)
    }

    /// Returns the input for a departure that found no packet.
    #[inline(always)]
    #[tactic(auto, unfolding(crate::specs::Sums::meter_input_by))]
    pub fn empty(&self) -> MeterInput
        ensures places { (result.answer ≡ 6) × (result.cause ≡ None) }
        ensures adds { (one : Explained) → HasConditions self.now one → one.explanation.event.answer ≡ Empty → one.explanation.cause ≡ None → size_in one ≡ None
            → result ≡ meter_input_of one }
    {
        self.noted(Answer::Empty, None, None, 0)
    }

    /// Returns the input for an update that took this delay.
    #[inline(always)]
    #[tactic(auto, unfolding(crate::specs::Sums::meter_input_by))]
    pub fn updated(&self, delay: u64) -> MeterInput
        ensures places { (result.answer ≡ 7) × (result.cause ≡ None) }
        ensures adds { (one : Explained) (prob burst : ℕ) → HasConditions self.now one → one.explanation.event.answer ≡ Updated delay prob burst
            → one.explanation.cause ≡ None → size_in one ≡ None → result ≡ meter_input_of one }
    {
        let (prob, burst) = (0, 0);
        self.noted(Answer::Updated { delay, prob, burst }, None, None, 0)
    }

    /// Returns the input for a reset, or for new parameters.
    #[inline(always)]
    #[tactic(auto, unfolding(crate::specs::Sums::meter_input_by))]
    pub fn done(&self) -> MeterInput
        ensures places { (result.answer ≡ 8) × (result.cause ≡ None) }
        ensures adds { (one : Explained) → HasConditions self.now one → one.explanation.event.answer ≡ Done → one.explanation.cause ≡ None → size_in one ≡ None
            → result ≡ meter_input_of one }
    {
        self.noted(Answer::Done, None, None, 0)
    }
}

/// Returns the meter's input for an explained event.
#[inline(always)]
pub(crate) fn meter_input_of(all: &Explained) -> MeterInput
    ensures adds { result ≡ meter_input_of all.now }
    ensures within { result.answer < 9 }
{
    let (explanation, after) = (&all.explanation, &all.after);
    let met = Conditions {
        moment: explanation.moment,
        was_active: explanation.before.active,
        is_active: after.active,
        old_target: explanation.before.params.target().units(),
        last_update: explanation.before.last,
        prob: after.prob,
        burst: after.burst,
        target: after.params.target().units(),
    };
    let (size, cause) = (
        size_by(explanation.event.command),
        cause_named(explanation.cause),
    );
    met.noted(explanation.event.answer, cause, size, explanation.waited)
}
