//! An explanation in words, of four to nine lines.
use crate::explanation::{Explained, Explanation};
use crate::units::{Digits, Millis, MomentWords, PerCent, Word};
use pie_book::{Answer, Cause, Command, Fate, Registers};
use pie_event::Setter;
use pie_queue::{Ecn, Packet};
use pie_record::Clock;
use std::alloc::AllocError;

/// The result of a write: an error if memory is short.
pub(crate) type Written = Result<(), AllocError>;

/// Returns the name of an ECN field in RFC 3168.
fn ecn_name(ecn: Ecn) -> &'static str {
    match ecn {
        Ecn::NotEct => "Not-ECT",
        Ecn::Ect1 => "ECT(1)",
        Ecn::Ect0 => "ECT(0)",
        Ecn::Ce => "CE",
    }
}

/// Returns the words for the verdict on an arriving packet.
fn verdict_text(answer: Answer) -> &'static str {
    match answer {
        Answer::Enqueued => "queued",
        Answer::Marked => "queued and marked",
        Answer::DroppedEarly => "DROPPED early",
        Answer::DroppedBytes => "DROPPED, no room in bytes",
        Answer::DroppedPackets => "DROPPED, no room in packets",
        Answer::Empty | Answer::Left(_) | Answer::Updated { .. } | Answer::Done => "-",
    }
}

/// Writes the packet of an event.
fn push_packet(page: &mut String, packet: Packet) -> Written {
    let (tag, size) = (Digits(packet.tag), Digits(u64::from(packet.size)));
    let ecn = ecn_name(packet.ecn);
    write!(page, "packet {tag}, {size} bytes, {ecn}: ")
}

/// Writes an update, and its results if the controller was `active`.
fn push_update(page: &mut String, active: bool, answer: Answer) -> Written {
    match (active, answer) {
        (false, _) => page.push_str(
            "an update\n  the controller is turned off: the update takes no delay, and makes no probability\n",
        ),
        (true, Answer::Updated { delay, prob, burst }) => {
            let (delay, prob, burst) = (Millis(delay), PerCent(prob), Millis(burst));
            write!(
                page,
                "an update\n  it took a delay of {delay}, and made the probability {prob}\n  and the burst allowance {burst}\n"
            )
        }
        (true, _) => page.push_str("an update\n"),
    }
}

/// Writes the first lines: the event and its outcome.
fn push_effect(page: &mut String, explanation: &Explanation) -> Written {
    let (number, answer) = (Digits(explanation.number), explanation.event.answer);
    write!(page, "event {number}: ")?;
    match (explanation.event.command, answer) {
        (Command::Arrive { packet, .. }, _) => {
            push_packet(page, packet)?;
            let verdict = verdict_text(answer);
            write!(page, "{verdict}\n")
        }
        (Command::Depart { .. }, Answer::Left(packet)) => {
            push_packet(page, packet)?;
            let waited = Millis(explanation.waited);
            write!(page, "left\n  it had waited {waited}\n")
        }
        (Command::Depart { .. }, _) => page.push_str("no packet was there to leave\n"),
        (Command::Update { .. }, _) => push_update(page, explanation.before.active, answer),
        (Command::Reset { .. }, _) => page.push_str("a reset\n"),
        (Command::SetParams { .. }, _) => page.push_str("new parameters\n"),
    }
}

/// Writes the fate of a picked packet, marked or dropped, and its reason.
fn push_fate(page: &mut String, fate: Fate) -> Written {
    match fate {
        Fate::Marked { threshold } => {
            let threshold = PerCent(threshold);
            write!(
                page,
                "  marked: its endpoints understand a mark, and the probability is below {threshold}\n"
            )
        }
        Fate::NotCapable => write!(page, "  dropped: its endpoints do not understand a mark\n"),
        Fate::NotBelow { threshold } => {
            let threshold = PerCent(threshold);
            write!(
                page,
                "  dropped, not marked: the probability is not below {threshold}\n"
            )
        }
    }
}

/// Writes the scaled probability of a packet, if it is not the probability itself.
fn push_scaled(page: &mut String, prob: u64, counted: u64) -> Written {
    if counted == prob {
        return Ok(());
    }
    let (prob, counted) = (PerCent(prob), PerCent(counted));
    write!(
        page,
        "  the probability, {prob}, is scaled to {counted} for a packet of this size\n"
    )
}

/// Writes the accumulated probability with this arrival's share, and before it the scaled probability, if it is not
/// the probability itself.
fn push_sum(page: &mut String, prob: u64, accu: u64, counted: u64) -> Written {
    push_scaled(page, prob, counted)?;
    let sum = PerCent(accu.saturating_add(counted));
    write!(
        page,
        "  the accumulated probability, with this one, is {sum}"
    )
}

/// Writes the cause of an arrival at this probability.
fn push_cause(page: &mut String, shown: u64, cause: Cause) -> Written {
    match cause {
        Cause::NoRoomInBytes { bytes, size, limit } => write!(
            page,
            "  the queue holds {bytes} bytes: with {size} more it would be above its limit of {limit}\n"
        ),
        Cause::NoRoomInPackets { packets } => {
            write!(page, "  the ring is full: it holds {packets} packets\n")
        }
        Cause::Inactive => write!(page, "  the controller is turned off\n"),
        Cause::BurstAllowed { burst } => {
            let burst = Millis(burst);
            write!(page, "  a burst is allowed: {burst} are left of it\n")
        }
        Cause::LowDelay {
            old_delay,
            target,
            prob,
        } => {
            let (old_delay, target, prob) = (Millis(old_delay), Millis(target), PerCent(prob));
            write!(
                page,
                "  the old delay, {old_delay}, is below half the target of {target},\n  and the probability, {prob}, below 20 %\n"
            )
        }
        Cause::ShortQueue { bytes, mean_pkt } => {
            let two_packets = 2 * u128::from(mean_pkt);
            write!(
                page,
                "  the queue is short: {bytes} bytes, at most two mean packets ({two_packets} bytes)\n"
            )
        }
        Cause::NoProbability => {
            if shown == 0 {
                return page.push_str("  the probability is 0\n");
            }
            push_scaled(page, shown, 0)
        }
        _ => push_considered(page, shown, cause),
    }
}

/// Writes the accumulated probability, unless it is 0, and the comparison of the random word with the scaled
/// probability.
fn push_compared(
    page: &mut String,
    shown: u64,
    accu: u64,
    prob: u64,
    word: u64,
    outcome: &str,
    compares: &str,
) -> Written {
    if accu == 0 {
        push_scaled(page, shown, prob)?;
    } else {
        push_sum(page, shown, accu, prob)?;
        page.push_str("\n")?;
    }
    let name = if prob == shown {
        "the probability"
    } else {
        "the scaled probability"
    };
    let (word, prob) = (Word(word), PerCent(prob));
    write!(
        page,
        "  {outcome}: its random word, {word}, {compares} {name}, {prob}\n"
    )
}

/// Writes the cause of a considered packet whose scaled probability was above 0.
fn push_considered(page: &mut String, shown: u64, cause: Cause) -> Written {
    match cause {
        Cause::LittleAccumulated { accu, prob } => {
            push_sum(page, shown, accu, prob)?;
            page.push_str(", below 85 %\n")
        }
        Cause::PickedBySum { accu, prob, fate } => {
            push_sum(page, shown, accu, prob)?;
            page.push_str(", at least 850 %\n")?;
            push_fate(page, fate)
        }
        Cause::PickedByWord {
            accu,
            prob,
            word,
            fate,
        } => {
            push_compared(page, shown, accu, prob, word, "picked", "is below")?;
            push_fate(page, fate)
        }
        Cause::WordNotBelow { accu, prob, word } => {
            push_compared(page, shown, accu, prob, word, "not picked", "is not below")
        }
        _ => Ok(()),
    }
}

/// Writes the duration of the cause of an arrival, if a bound is known. While the parameters are unchanged, a reset or a calm update leaves at most
/// `max_burst` of the burst allowance.
fn push_lasting(
    page: &mut String,
    clock: Option<Clock>,
    explanation: &Explanation,
    cause: Cause,
) -> Written {
    let before = &explanation.before;
    match cause {
        Cause::BurstAllowed { burst } => {
            let lasts = burst.min(before.params.max_burst().units());
            let moment = before.last.saturating_add(lasts);
            if moment <= explanation.moment {
                return Ok(());
            }
            let end = MomentWords { clock, moment };
            write!(
                page,
                "  with unchanged parameters nothing is marked or dropped early before {end}\n"
            )
        }
        Cause::LittleAccumulated { prob, .. } => {
            let many = 849_999_999_999 / prob.max(1) + 1;
            write!(
                page,
                "  where each counts as this one, at most one of {many} considered packets in a row is picked\n"
            )
        }
        _ => Ok(()),
    }
}

/// Writes the probability before the event, and the event that set it.
fn push_setter(page: &mut String, set_by: Setter, before: &Registers) -> Written {
    let prob = PerCent(before.prob);
    match set_by {
        Setter::Opening => write!(page, "  probability {prob}, as at the opening;"),
        Setter::Event(event) => {
            let event = Digits(event);
            write!(page, "  probability {prob}, set by event {event};")
        }
        Setter::Unknown => write!(page, "  probability {prob}, set before this text begins;"),
    }
}

/// Returns a line if the event turned the controller on or off, otherwise the empty text.
fn turned_text(was_active: bool, is_active: bool) -> &'static str {
    match (was_active, is_active) {
        (false, true) => "  this event turned the controller on\n",
        (true, false) => "  this event turned the controller off\n",
        (true, true) | (false, false) => "",
    }
}

/// Writes the controller's numbers before the event.
fn push_before(page: &mut String, clock: Option<Clock>, explanation: &Explanation) -> Written {
    let before = &explanation.before;
    let (packets, bytes) = (Digits(before.packets), Digits(before.bytes));
    let (delay, burst) = (Millis(explanation.delay), Millis(before.burst));
    write!(
        page,
        "  before it: {packets} packets, {bytes} bytes, a delay of {delay}\n"
    )?;
    push_setter(page, explanation.set_by, before)?;
    let moment = before.last;
    let last = MomentWords { clock, moment };
    if explanation.updates == 0 {
        page.push_str(" no update so far;")?;
    } else {
        write!(page, " last update at {last};")?;
    }
    write!(page, " burst allowance {burst}\n")
}

/// Writes an explanation in words. With a `clock` its moments are written as wall-clock times.
pub(crate) fn push_text(page: &mut String, clock: Option<Clock>, all: &Explained) -> Written {
    let explanation = &all.explanation;
    let (caller, moment) = (explanation.event.caller, explanation.moment);
    let now = MomentWords { clock, moment };
    push_effect(page, explanation)?;
    write!(page, "  at {now}, by caller {caller}\n")?;
    if let Some(cause) = explanation.cause {
        push_cause(page, explanation.before.prob, cause)?;
        push_lasting(page, clock, explanation, cause)?;
    }
    page.push_str(turned_text(explanation.before.active, all.after.active))?;
    push_before(page, clock, explanation)
}
