//! The words of an advice up to the opening's record: the link, each parameter with its reason, and the lines that
//! configure the queue.
use crate::Overhead;
use crate::advising::numbers::Numbers;
use crate::advising::request::{Range, Request};
use pie_event::Opening;
use pie_params::RawParams;
use std::alloc::AllocError;
use std::fmt;
use std::fmt::Display;

/// The result of a write: `AllocError` if memory is short.
pub type Written = Result<(), AllocError>;

/// A time in nanoseconds, in milliseconds, rounded down to microseconds.
#[derive(Clone, Copy)]
pub struct Millis(pub u64);

impl Display for Millis {
    fn fmt<W: fmt::Write>(&self, f: &mut fmt::Formatter<W>) -> fmt::Result {
        let (whole, rest) = (self.0 / 1_000_000, self.0 % 1_000_000 / 1000);
        write!(f, "{whole}.{rest:03} ms")
    }
}

/// Writes the overhead of the link, unless it is 0.
fn push_overhead(page: &mut String, overhead: Overhead) -> Written {
    match overhead {
        Overhead::Added(0) | Overhead::Removed(0) => Ok(()),
        Overhead::Added(bytes) => write!(page, "; {bytes} bytes more on the link"),
        Overhead::Removed(bytes) => write!(page, "; {bytes} bytes fewer on the link"),
    }
}

/// Writes the round-trip times.
fn push_trips(page: &mut String, trips: Range) -> Written {
    let (least, greatest) = (Millis(trips.least), Millis(trips.greatest));
    if trips.least == trips.greatest {
        write!(page, "a round trip of {least}; ")
    } else {
        write!(page, "round trips of {least} to {greatest}; ")
    }
}

/// Writes the number of flows.
fn push_flows(page: &mut String, flows: Range) -> Written {
    let Range { least, greatest } = flows;
    if least < greatest {
        write!(page, "{least} to {greatest} flows")
    } else if least == 1 {
        page.push_str("1 flow")
    } else {
        write!(page, "{least} flows")
    }
}

/// Writes the link with its flows.
fn push_link(page: &mut String, request: &Request) -> Written {
    let rate = request.rate;
    write!(page, "link         {rate} bit/s; ")?;
    push_trips(page, request.trips)?;
    push_flows(page, request.flows)?;
    push_overhead(page, request.overhead)?;
    page.push_str("\n\n")
}

/// Writes the times and the gains.
fn push_times(page: &mut String, params: &RawParams) -> Written {
    let (target, update) = (Millis(params.target), Millis(params.t_update));
    let (alpha, beta, burst) = (params.alpha, params.beta, Millis(params.max_burst));
    write!(
        page,
        "target       {target}: the probability rises while packets wait longer (RFC 8033, section 4.2)\n\
        t_update     {update}: the gains are for this interval (4.2)\n\
        alpha        {alpha} thousandths per second: weighs the distance from the target (4.2)\n\
        beta         {beta} thousandths per second: weighs the change of the delay (4.2)\n\
        max_burst    {burst}: no early drop for this time after a calm (4.4)\n"
    )
}

/// Writes the limits, in bytes and in packets.
fn push_limits(page: &mut String, opening: &Opening, numbers: &Numbers) -> Written {
    let (bytes, packets) = (opening.params.raw().limit_bytes, opening.limits.packets);
    write!(
        page,
        "limit_bytes  {bytes}: 200 ms at the rate, at least 25000 and at most 1073741824 (this project's own)\n\
        packets      {packets}: limit_bytes / 64, at most 1048576 (this project's own); "
    )?;
    let size = numbers.packet_bytes;
    if bytes / 64 <= u64::from(packets) {
        page.push_str("limit_bytes is reached first\n")
    } else {
        write!(
            page,
            "reached first if packets have fewer than {size} bytes on average\n"
        )
    }
}

/// Writes the probability from which on packets of ECN-capable endpoints are dropped.
fn push_mark(page: &mut String, numbers: &Numbers, ecn: bool) -> Written {
    if !ecn {
        return page.push_str(
            "mark_ecnth   0 %: no packet is marked; with --ecn, packets of ECN-capable endpoints are (5.1)\n",
        );
    }
    let share = numbers.mark_ecnth;
    write!(
        page,
        "mark_ecnth   {share} %: marks below this probability, and drops from it on, since a sender may ignore marks (5.1)\n"
    )
}

/// Writes each parameter with its reason.
pub(crate) fn push_settings(
    page: &mut String,
    request: &Request,
    opening: &Opening,
    numbers: &Numbers,
) -> Written {
    push_link(page, request)?;
    push_times(page, &opening.params.raw())?;
    push_limits(page, opening, numbers)?;
    push_mark(page, numbers, request.ecn)
}

/// Writes the beginning of a line of `tc`, up to the overhead.
fn push_tc_head(page: &mut String, name: &str, overhead: Overhead) -> Written {
    write!(page, "{name}tc qdisc replace dev DEV root")?;
    match overhead {
        Overhead::Added(0) | Overhead::Removed(0) => Ok(()),
        Overhead::Added(bytes) => write!(page, " stab overhead {bytes}"),
        Overhead::Removed(bytes) => write!(page, " stab overhead -{bytes}"),
    }
}

/// Writes the options that both queues of `tc` take, and ends the line.
fn push_tc_options(page: &mut String, numbers: &Numbers, ecn: bool) -> Written {
    let (target, update) = (numbers.target, numbers.t_update);
    let (alpha, beta) = (numbers.alpha, numbers.beta);
    let marks = if ecn { " ecn" } else { "" };
    write!(
        page,
        " target {target}us tupdate {update}us alpha {alpha} beta {beta}{marks}\n"
    )
}

/// Writes the lines of `tc` for Linux's `pie` and for this project's queue discipline.
fn push_tc(page: &mut String, request: &Request, numbers: &Numbers) -> Written {
    let (packets, rate) = (numbers.pie_limit, request.rate);
    push_tc_head(page, "\nLinux        ", request.overhead)?;
    write!(page, " pie limit {packets}")?;
    push_tc_options(page, numbers, request.ecn)?;
    push_tc_head(page, "this module  ", request.overhead)?;
    write!(page, " pie_recorded rate {rate}bit")?;
    push_tc_options(page, numbers, request.ecn)
}

/// Writes the lines for a program in C and for this project's stage for DPDK.
fn push_c(page: &mut String, rate: u64, params: &RawParams) -> Written {
    let (mean, mark) = (params.mean_pkt, params.mark_ecnth);
    write!(
        page,
        "C            pie_default_opening(&opening, {rate}); opening.params.mean_pkt = {mean}; opening.params.mark_ecnth = {mark};\n\
        DPDK stage   pie_stage_default_params(&params, {rate}); params.opening.params.mean_pkt = {mean}; \
        params.opening.params.mark_ecnth = {mark};\n"
    )
}

/// Writes the line for DPDK's own `rte_pie`, whose times are in milliseconds, and the name of the record that follows.
fn push_rte(page: &mut String, numbers: &Numbers) -> Written {
    let (target, update) = (numbers.target / 1000, numbers.t_update / 1000);
    let (burst, packets) = (numbers.max_burst / 1000, numbers.tail_threshold);
    write!(
        page,
        "rte_pie      qdelay_ref {target}, dp_update_interval {update}, max_burst {burst}, tailq_th {packets}\n\
        pie run      "
    )
}

/// Writes the lines that configure the queue, and the name of the record that follows.
pub(crate) fn push_lines(
    page: &mut String,
    request: &Request,
    params: &RawParams,
    numbers: &Numbers,
) -> Written {
    push_tc(page, request, numbers)?;
    push_c(page, request.rate, params)?;
    push_rte(page, numbers)
}
