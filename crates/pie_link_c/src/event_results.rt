//! The calls for one event, and the fields that they write.
ghost use Rattle.std.specs.Prelude.{◌≡◌};
ghost use Rattle.pie_link_c.specs.{set_event, code_of, answered_event, event_with_code, under};
ghost use Rattle.pie_link_c.specs.Calls.{filled};

use crate::code::{BUSY, code_of_answer, code_of_refusal, code_of_reply};
use pie_abi::event::{DEPART, PARAMS, PieEvent, RESET, UPDATE};
use pie_event::{Answer, Refusal};
use pie_link::{Told, Tried};

/// A call for one event. New parameters have a call of their own.
#[derive(Clone, Copy)]
pub enum EventCall {
    /// An arrival of the event's packet.
    Arrive,
    /// A departure.
    Depart,
    /// An update of the probability.
    Update,
    /// A reset of the probability, the delays and the rate estimate.
    Reset,
}

/// Writes `code` as the answer, and 0 to the fields that the call does not use.
#[inline(always)]
pub(crate) fn fill_code(event: &mut PieEvent, call: EventCall, code: u32)
    ensures { event.new ≡ event_with_code call event.old code }
{
    match call {
        EventCall::Arrive => event.fill_arrival(code),
        EventCall::Depart => event.fill_other(DEPART, code),
        EventCall::Update => event.fill_other(UPDATE, code),
        EventCall::Reset => event.fill_other(RESET, code),
    }
}

/// Writes an answer.
#[inline(always)]
pub(crate) fn fill_answer(event: &mut PieEvent, call: EventCall, answer: &Answer)
    ensures { event.new ≡ answered_event call event.old answer.now }
{
    fill_code(event, call, code_of_answer(answer));
    match answer {
        Answer::Left(packet) => {
            event.tag = packet.tag;
            event.size = packet.size;
            event.ecn = packet.ecn.bits();
        }
        Answer::Updated { delay, prob, burst } => {
            event.delay = *delay;
            event.prob = *prob;
            event.burst = *burst;
        }
        _ => {}
    }
}

/// Writes a call's result, with the caller's number, and returns its code. If the link was busy, the event is
/// unchanged.
#[inline(always)]
pub(crate) fn fill(
    event: &mut PieEvent,
    call: EventCall,
    caller: u16,
    reply: &Result<Told<Answer>, Tried<Refusal>>,
) -> u32
    ensures code { result ≡ code_of reply.now }
    ensures event { event.new ≡ filled call caller event.old reply.now }
{
    match reply {
        Ok(reply) => {
            fill_answer(event, call, &reply.answer);
            event.caller = caller;
            code_of_answer(&reply.answer)
        }
        Err(Tried::Busy) => BUSY,
        Err(Tried::Refused(why)) => {
            let code = code_of_refusal(why);
            fill_code(event, call, code);
            event.caller = caller;
            code
        }
    }
}

/// Writes the result of a call for new parameters, with the caller's number, and returns its code.
pub(crate) fn fill_set(
    event: &mut PieEvent,
    caller: u16,
    reply: &Result<Told<Answer>, Tried<Refusal>>,
) -> u32
    ensures code { result ≡ code_of reply.now }
    ensures event { event.new ≡ set_event caller event.old reply.now }
{
    let code = code_of_reply(reply);
    if !matches!(reply, Err(Tried::Busy)) {
        event.fill_other(PARAMS, code);
        event.caller = caller;
    }
    code
}
