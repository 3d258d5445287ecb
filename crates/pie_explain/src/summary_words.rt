//! A summary in words.
use crate::aggregates::Bounds;
use crate::interval::Sums;
use crate::meter::Meter;
use crate::meter_input::{EARLY, LEFT, MARKED, NO_BYTES, NO_PACKETS, QUEUED, UPDATED};
use crate::text::Written;
use crate::units::{Millis, PerCent, Share};
use pie_aqm::CauseName;
use pie_units::Utc;

/// The names of the verdicts, with their places in a meter's answers.
const VERDICTS: [(&str, usize); 5] = [
    ("queued", QUEUED),
    ("queued and marked", MARKED),
    ("dropped early", EARLY),
    ("dropped, no room in bytes", NO_BYTES),
    ("dropped, no room in packets", NO_PACKETS),
];

/// The causes of arrivals, in the order of the decision.
const CAUSES: [CauseName; 15] = [
    CauseName::NoRoomInBytes,
    CauseName::NoRoomInPackets,
    CauseName::Inactive,
    CauseName::BurstAllowed,
    CauseName::LowDelay,
    CauseName::ShortQueue,
    CauseName::NoProbability,
    CauseName::LittleAccumulated,
    CauseName::PickedBySumMarked,
    CauseName::PickedBySumNotCapable,
    CauseName::PickedBySumNotBelow,
    CauseName::PickedByWordMarked,
    CauseName::PickedByWordNotCapable,
    CauseName::PickedByWordNotBelow,
    CauseName::WordNotBelow,
];

/// Writes a count and its share of all arrivals.
fn push_row(page: &mut String, name: &str, count: u64, all: u64) -> Written {
    let share = Share { count, all };
    write!(page, "    {name}: {count}, {share}\n")
}

/// Writes the number of arrivals, and their numbers by verdict and by cause. A cause without arrivals is left out.
fn push_arrivals(page: &mut String, meter: &Meter) -> Written {
    let (all, bytes) = (meter.arrivals, meter.arrived.sum());
    write!(page, "  {all} arrivals, {bytes} bytes\n")?;
    for (name, place) in VERDICTS {
        push_row(page, name, meter.answers[place], all)?;
    }
    write!(page, "  by cause\n")?;
    for name in CAUSES {
        let count = meter.causes[name.place()];
        if count > 0 {
            push_row(page, name.word(), count, all)?;
        }
    }
    Ok(())
}

/// Writes the number of events, and the moments of the first and the last.
pub(crate) fn push_head(page: &mut String, moments: &Bounds) -> Written {
    let (count, first, last) = (moments.count, Millis(moments.first), Millis(moments.last));
    write!(page, "{count} events, from {first} to {last}\n")
}

/// Writes the first and the last wall-clock time after `spaces`, if `by_wall` and there is one.
pub(crate) fn push_times(
    page: &mut String,
    by_wall: bool,
    spaces: &str,
    times: &Bounds,
) -> Written {
    if !by_wall || times.count == 0 {
        return Ok(());
    }
    let (first, last) = (Utc(times.first), Utc(times.last));
    write!(page, "{spaces}in wall-clock time from {first} to {last}\n")
}

/// Writes the number of departures, the bytes that they carried, the longest and the mean wait, and the wait that 99 of
/// 100 packets did not exceed.
fn push_departures(page: &mut String, meter: &Meter, most: u64) -> Written {
    let (left, carried) = (meter.answers[LEFT], meter.carried);
    let (greatest, mean) = (Millis(meter.greatest_wait), Millis(meter.waits.mean(left)));
    let most = Millis(most);
    write!(
        page,
        "  {left} packets left, with {carried} bytes; they waited at most {greatest},\n    on average {mean}, and 99 of 100 at most {most}\n"
    )
}

/// Writes the number of updates, the delays that they took, and the probabilities after the events.
fn push_updates(page: &mut String, meter: &Meter) -> Written {
    let (delays, probs, updates) = (&meter.delays, &meter.probs, meter.answers[UPDATED]);
    let (greatest, last) = (Millis(delays.greatest), Millis(delays.last));
    let (most, now) = (PerCent(probs.greatest), PerCent(probs.last));
    write!(
        page,
        "  {updates} updates; the greatest delay was {greatest}, and the last {last}\n  \
        the greatest probability was {most}, and the last {now}\n"
    )
}

/// Writes the time that delays were above the target. Then writes the number of departed packets that waited longer
/// than the target, and their time at the head of the queue. If the two times are very different, writes both and a
/// remedy.
fn push_above(page: &mut String, meter: &Meter) -> Written {
    let (above, late, longer) = (Millis(meter.above), Millis(meter.late), meter.longer);
    let share = Share {
        count: longer,
        all: meter.answers[LEFT],
    };
    write!(
        page,
        "  the delay was above the target for {above}\n  {longer} packets, {share} of those that left, waited longer than \
        the target,\n    at the head of the queue for {late}\n"
    )?;
    if meter.above >= meter.late / 2 && meter.late >= meter.above / 2 {
        return Ok(());
    }
    write!(
        page,
        "    the delay differs from the waits: it was above the target for {above}, and waits for {late};\n    \
        if the delay is estimated from the departure rate, measure it by time stamps instead\n"
    )
}

/// Writes the target and the burst allowance after the last event, and the consequence of an allowance that is left.
fn push_end(page: &mut String, meter: &Meter) -> Written {
    let (target, burst) = (Millis(meter.target), Millis(meter.burst));
    let rest = if meter.burst == 0 {
        "\n"
    } else {
        ":\n    until it is used up, no packet is marked or dropped early\n"
    };
    write!(
        page,
        "  after the last event the target was {target}, and the burst allowance {burst}{rest}"
    )
}

/// Writes the moments at which the controller turned on, or off, if `by_wall` with wall-clock times.
fn push_turned(
    page: &mut String,
    way: &str,
    turned: &Bounds,
    by_wall: bool,
    times: &Bounds,
) -> Written {
    let (count, first, last) = (turned.count, Millis(turned.first), Millis(turned.last));
    if count > 0 {
        write!(
            page,
            "  turned {way} {count} times, first at {first}, and last at {last}\n"
        )?;
    }
    push_times(page, by_wall, "    ", times)
}

/// Writes a summary in words, with the waiting time of 99 of 100, and with wall-clock times or not.
pub(crate) fn push_words(page: &mut String, by_wall: bool, sums: &Sums, most: u64) -> Written {
    let meter = &sums.meter;
    let (count, first, last) = (sums.count, meter.first, meter.last);
    push_head(page, &Bounds { count, first, last })?;
    push_times(page, by_wall, "  ", &sums.times)?;
    push_arrivals(page, meter)?;
    push_departures(page, meter, most)?;
    push_updates(page, meter)?;
    push_above(page, meter)?;
    push_end(page, meter)?;
    push_turned(page, "on", &meter.turned_on, by_wall, &sums.on_times)?;
    push_turned(page, "off", &meter.turned_off, by_wall, &sums.off_times)
}
