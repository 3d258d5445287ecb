//! The expected behaviour of a queue: the mean wait, the margins of stability, and the conditions of warnings, as values
//! and as the words of an advice after the opening's record.
ghost use Rattle.std.specs.Prelude.{◌≡◌, ◌<◌, ◌≤◌, ◌*◌, ◌+◌, ◌^◌, ◌/◌, max};
ghost use Rattle.pie_units.specs.Advice.{IsOutlook, IsRoot, cuts_the_limit, drops_bursts, has_prediction, is_above_a_second, is_crowded, is_single, squared_wait, swings, wants_half};

use crate::advising::margin::{Margins, RangeMargins, margins_over};
use crate::advising::request::Request;
use crate::advising::setting::{Millis, Written};
use pie_params::RawParams;
use std::fmt;
use std::fmt::Display;

/// The expected behaviour of a queue at a link.
#[derive(Clone, Copy)]
pub struct Outlook {
    /// The mean wait, in nanoseconds: the square root of the target's square and that of the time of two mean packets.
    pub wait: u64,
    /// True if the mean wait is a prediction: none of `swings`, `is_single`, `is_crowded` and `margins.is_beyond` holds.
    pub has_prediction: bool,
    /// The margins of stability, from a linear model.
    pub margins: RangeMargins,
    /// True if a margin is below 0: the loop of the model is unstable.
    pub swings: bool,
    /// True if the least phase margin is below 10 degrees. Flows with long round trips then lose goodput at `decay zero`.
    pub wants_half: bool,
    /// True if there may be a single flow.
    pub is_single: bool,
    /// True if a packet of 1500 bytes of each flow is more than the limit.
    pub is_crowded: bool,
    /// True if `limit_bytes` bytes leave in less than the target and the burst allowance together.
    pub drops_bursts: bool,
    /// True if `limit_bytes` bytes take more than a second at the rate.
    pub is_above_a_second: bool,
    /// True if `rte_pie` has a lower limit: more than 65535 packets of 1514 bytes are in `limit_bytes`.
    pub cuts_the_limit: bool,
}

/// Returns true if a margin is below 0.
fn swings(margins: &RangeMargins) -> bool
    ensures { result ≡ swings margins.now }
{
    match margins.least {
        Some(least) => least.phase < 0 || least.gain < 0,
        None => false,
    }
}

/// Returns true if the phase margin is below 10 degrees.
fn wants_half(margins: &RangeMargins) -> bool
    ensures { result ≡ wants_half margins.now }
{
    match margins.least {
        Some(least) => least.phase < 1000,
        None => false,
    }
}

/// Returns true if there may be a single flow.
fn is_single(request: &Request) -> bool
    ensures { result ≡ is_single request.now }
{
    request.flows.least <= 1
}

/// Returns true if a packet of 1500 bytes of each flow is more than the limit.
fn is_crowded(request: &Request, params: &RawParams) -> bool
    ensures { result ≡ is_crowded request.now params.now }
{
    u128::from(params.limit_bytes) < u128::from(request.flows.greatest) * 1500
}

/// Returns true if the mean wait is predicted.
fn has_prediction(request: &Request, params: &RawParams, margins: &RangeMargins) -> bool
    ensures { result ≡ has_prediction request.now params.now margins.now }
{
    !(swings(margins) || margins.is_beyond || is_single(request) || is_crowded(request, params))
}

/// Returns the time of two mean packets at the rate, in nanoseconds.
fn two_packets(rate: u64, params: &RawParams) -> u64
    requires { params.now.mean_pkt ≤ 65535 }
    ensures time { result ≡ params.now.mean_pkt * 16_000_000_000 / max rate 1 }
    ensures within { result ≤ 1_048_560_000_000_000 }
{
    params.mean_pkt * 16_000_000_000 / rate.max(1)
}

/// Returns the predicted mean wait in nanoseconds: the square root of the target's square and that of the time of two
/// mean packets, rounded down (this project's own, from stored runs).
fn mean_wait(rate: u64, params: &RawParams) -> u64
    requires target { params.now.target ≤ 10 ^ 10 }
    requires mean { params.now.mean_pkt ≤ 65535 }
    ensures { IsRoot (squared_wait rate params.now) result }
{
    let (target, packets) = (
        u128::from(params.target),
        u128::from(two_packets(rate, params)),
    );
    (target * target + packets * packets).isqrt() as u64
}

/// Returns true if `limit_bytes` bytes leave in less than the target and the burst allowance together. Then a burst
/// that the allowance admits fills the queue.
fn drops_bursts(rate: u64, params: &RawParams) -> bool
    ensures { result ≡ drops_bursts rate params.now }
{
    let longest = params.target.saturating_add(params.max_burst);
    let wanted = u128::from(rate) * u128::from(longest);
    u128::from(params.limit_bytes) * 8_000_000_000 < wanted
}

/// Returns true if `limit_bytes` bytes take more than a second at the rate.
fn is_above_a_second(rate: u64, params: &RawParams) -> bool
    ensures { result ≡ is_above_a_second rate params.now }
{
    u128::from(rate) < u128::from(params.limit_bytes) * 8
}

/// Returns true if more than 65535 packets of 1514 bytes are in the limit.
fn cuts_the_limit(params: &RawParams) -> bool
    ensures { result ≡ cuts_the_limit params.now }
{
    params.limit_bytes > 99_219_990
}

/// Returns the expected behaviour of a queue with these parameters at a link.
pub(crate) fn outlook_for(request: &Request, params: &RawParams) -> Outlook
    requires target { params.now.target ≤ 10 ^ 10 }
    requires mean { params.now.mean_pkt ≤ 65535 }
    ensures { IsOutlook request.now params.now result }
{
    let margins = margins_over(request);
    Outlook {
        wait: mean_wait(request.rate, params),
        has_prediction: has_prediction(request, params, &margins),
        margins,
        swings: swings(&margins),
        wants_half: wants_half(&margins),
        is_single: is_single(request),
        is_crowded: is_crowded(request, params),
        drops_bursts: drops_bursts(request.rate, params),
        is_above_a_second: is_above_a_second(request.rate, params),
        cuts_the_limit: cuts_the_limit(params),
    }
}

/// A number in hundredths, rounded down to a tenth.
#[derive(Clone, Copy)]
struct Tenths(i64);

impl Display for Tenths {
    fn fmt<W: fmt::Write>(&self, f: &mut fmt::Formatter<W>) -> fmt::Result {
        let tenths = self.0.div_euclid(10);
        let sign = if tenths < 0 { "-" } else { "" };
        let (whole, rest) = (tenths.unsigned_abs() / 10, tenths.unsigned_abs() % 10);
        write!(f, "{sign}{whole}.{rest}")
    }
}

/// Writes the predicted mean wait, or that there is no prediction.
fn push_wait(page: &mut String, outlook: &Outlook) -> Written {
    if !outlook.has_prediction {
        return page.push_str("\nmean wait    no prediction: see the warnings\n");
    }
    let wait = Millis(outlook.wait);
    write!(
        page,
        "\nmean wait    {wait}, predicted for TCP that always sends\n"
    )
}

/// Writes margins: those of one link, or the least ones of ranges.
fn push_least(page: &mut String, request: &Request, least: Margins) -> Written {
    let (phase, gain) = (Tenths(least.phase), Tenths(least.gain));
    let is_one = request.trips.least == request.trips.greatest
        && request.flows.least == request.flows.greatest;
    let least = if is_one { "" } else { "at least " };
    write!(
        page,
        "margins      phase {least}{phase} degrees, gain {least}{gain} dB, by a linear model"
    )
}

/// Writes the margins of stability, and the part of the ranges to which they do not apply.
fn push_margins(page: &mut String, request: &Request, outlook: &Outlook) -> Written {
    let short = outlook.margins.has_short_windows;
    match outlook.margins.least {
        None if short => page.push_str(
            "margins      outside the linear model: windows are below two packets\n",
        ),
        None => page.push_str("margins      outside the linear model\n"),
        Some(least) => {
            push_least(page, request, least)?;
            page.push_str(if short {
                " for windows of two packets or more\n"
            } else {
                "\n"
            })
        }
    }
}

/// Writes the decay to consider, if margins are small.
fn push_decay(page: &mut String, outlook: &Outlook) -> Written {
    if !outlook.wants_half {
        return Ok(());
    }
    page.push_str(
        "decay        zero if the wait matters more than the goodput; otherwise half, which pie params --decay half writes \
        (docs/RESULTS.md, advice 5)\n",
    )
}

/// Writes a warning if its condition holds.
fn push_warning(page: &mut String, holds: bool, text: &str) -> Written {
    if holds {
        write!(page, "warning: {text}\n")
    } else {
        Ok(())
    }
}

/// Writes the warnings about the flows.
fn push_flow_warnings(page: &mut String, outlook: &Outlook) -> Written {
    push_warning(
        page,
        outlook.swings,
        "the loop of the linear model is unstable at some of these round trips and flows: the delay oscillates",
    )?;
    push_warning(
        page,
        outlook.margins.is_beyond,
        "a round trip is above 10 s, or a window above a million packets: this is outside the linear model",
    )?;
    push_warning(
        page,
        outlook.is_single,
        "a single flow empties the queue after each loss",
    )?;
    push_warning(
        page,
        outlook.is_crowded,
        "with the most flows, a packet of each is more than limit_bytes: senders wait for timeouts",
    )
}

/// Writes the warnings about the limits.
fn push_limit_warnings(page: &mut String, outlook: &Outlook) -> Written {
    push_warning(
        page,
        outlook.drops_bursts,
        "limit_bytes is below rate x (target + max_burst): bursts that PIE admits fill the queue",
    )?;
    push_warning(
        page,
        outlook.is_above_a_second,
        "limit_bytes is more than a second at the rate",
    )?;
    push_warning(
        page,
        outlook.cuts_the_limit,
        "tailq_th of rte_pie has 16 bits: its limit of 65535 packets is below limit_bytes",
    )
}

/// Writes the mean wait, the margins, and the warnings.
pub(crate) fn push_expectation(page: &mut String, request: &Request, outlook: &Outlook) -> Written {
    push_wait(page, outlook)?;
    push_margins(page, request, outlook)?;
    push_decay(page, outlook)?;
    push_flow_warnings(page, outlook)?;
    push_limit_warnings(page, outlook)
}
