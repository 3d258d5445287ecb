//! Codes of the calls at a port, beside those of pie_abi.
ghost use Rattle.std.specs.Prelude.{◌≡◌};
ghost use Rattle.pie_link_c.specs.{answer_code, code_of, refusal_code};

use pie_abi::code::{
    BAD_MOMENT, BAD_SIZE, DONE, EARLY, MARK, NONE, OVER_BYTES, OVER_PACKETS, TOO_SOON,
};
use pie_event::{Answer, Refusal};
use pie_link::{Told, Tried};

/// Refused: the number of events in the history is at the limit of the opening.
pub(crate) const EXHAUSTED: u32 = 104;

/// Refused: the event log of a bounded link is full.
pub(crate) const FULL: u32 = 105;

/// Refused: a fold of an empty event log.
pub(crate) const TOO_MANY: u32 = 106;

/// Nothing was done: another port has the turn.
pub(crate) const BUSY: u32 = 121;

/// Nothing was done: the port is closed.
pub(crate) const CLOSED: u32 = 122;

/// Nothing was done: out of memory.
pub(crate) const NO_MEMORY: u32 = 123;

/// Refused: a link for no callers.
pub(crate) const NO_CALLERS: u32 = 124;

/// Refused: the port has only one number.
pub(crate) const ONE_NUMBER: u32 = 125;

/// Refused: the ports' number ranges are not adjacent.
pub(crate) const APART: u32 = 126;

/// Refused: the port to be opened is open.
pub(crate) const OPEN: u32 = 127;

/// Refused: an excerpt with less room than an excerpt of the link may need.
pub(crate) const TOO_SMALL: u32 = 129;

/// Returns the number of an answer.
#[inline(always)]
pub(crate) fn code_of_answer(answer: &Answer) -> u32
    ensures { result ≡ answer_code answer.now }
{
    match answer {
        Answer::Enqueued | Answer::Left(_) | Answer::Updated { .. } | Answer::Done => DONE,
        Answer::Marked => MARK,
        Answer::DroppedEarly => EARLY,
        Answer::DroppedBytes => OVER_BYTES,
        Answer::DroppedPackets => OVER_PACKETS,
        Answer::Empty => NONE,
    }
}

/// Returns the number of a refusal.
pub(crate) fn code_of_refusal(why: &Refusal) -> u32
    ensures { result ≡ refusal_code why.now }
{
    match why {
        Refusal::Moment => BAD_MOMENT,
        Refusal::Size => BAD_SIZE,
        Refusal::TooSoon { .. } => TOO_SOON,
        Refusal::Exhausted => EXHAUSTED,
        Refusal::HistoryFull => FULL,
    }
}

/// Returns the number of a call's result.
#[inline(always)]
pub(crate) fn code_of_reply(reply: &Result<Told<Answer>, Tried<Refusal>>) -> u32
    ensures { result ≡ code_of reply.now }
{
    match reply {
        Ok(reply) => code_of_answer(&reply.answer),
        Err(Tried::Busy) => BUSY,
        Err(Tried::Refused(why)) => code_of_refusal(why),
    }
}
