//! The controller of `sch_pie` and `sch_fq_pie` of Linux 6.1, restated as arithmetic: each decision of the
//! kernel can be made again from its inputs.
//!
//! The definitions are in specs/, one for each rule, with the C function that it restates. Every function here is total:
//! it has no `requires`, and nothing overflows except where a rule says that C's type wraps. Probabilities are in units
//! of 2^-56, times in ticks of 64 ns.
//!
//! The rules differ from RFC 8033 and from this project's own profile of Linux as follows.
//!
//! | rule | C function |
//! |---|---|
//! | the clock is `ktime_get() >> 6` | `psched_get_time` |
//! | the limit is in packets and comes first; such a drop draws no random word | `pie_qdisc_enqueue` |
//! | the three early returns leave `accu_prob` unchanged; a drop sets it to 0, a mark by the sum keeps it | `pie_drop_early` |
//! | 56 bits of the random word count, and 0.85 is `(MAX_PROB / 100) * 85`, 8.5 is `(MAX_PROB / 2) * 17` | `pie_drop_early` |
//! | `bytemode` divides by the MTU before it multiplies by the length; the MTU is at least 1 and at most 2^20 | `pie_drop_early` |
//! | marks up to a probability of 0.1 inclusive, for fq_pie up to `ecn_prob` per cent; a packet that is CE already counts as marked | `pie_qdisc_enqueue`, `fq_pie_qdisc_enqueue`, `INET_ECN_set_ce` |
//! | the delay is the last departure's wait, 0 if it emptied the queue; the first departure only starts the burst clock | `pie_process_dequeue` |
//! | departures reduce the burst allowance, by a time of 32 bits, which wraps after 275 s | `pie_process_dequeue` |
//! | the rate estimator's count and the backlog are multiplied by 256 in 32 bits, which wrap at 16 MiB | `pie_process_dequeue`, `pie_calculate_probability` |
//! | gains are integers, products and sums of the step wrap at 64 bits | `pie_calculate_probability` |
//! | the cap of 0.02 comes before the 0.02 for delays above 250 ms | `pie_calculate_probability` |
//! | the probability is bounded by 64 bits alone, that is by 256; beyond, it becomes 1 | `pie_calculate_probability` |
//! | decay by 1/64, not with a backlog and not after an overflow | `pie_calculate_probability` |
//! | the restart compares the new delay and the one before it with half the target | `pie_calculate_probability` |
//! | a reset keeps the probability and the delays | `pie_reset`, `pie_vars_init` |
//! | a lower limit drops from the front, packets that the device returned first | `pie_change`, `qdisc_dequeue_internal` |
//! | marks by the protocol behind VLAN tags | `INET_ECN_set_ce` |
//! | fq_pie: a priority that is a class of the queue names the flow, before filters and the hash | `fq_pie_classify` |
//! | fq_pie: `memory_limit` only counts; a flow's backlog begins at 0 after the decision; at most 2048 flows a round | `fq_pie_qdisc_enqueue`, `fq_pie_timer` |
#![tactic(auto)]

mod arrival;
mod cause;
mod departure;
mod enqueue;
mod params;
mod queue;
mod state;
mod stats;
mod update;

pub use arrival::{LinuxArrival, is_markable, is_tag};
pub use cause::{LinuxCause, Picked};
pub use departure::LinuxDeparture;
pub use enqueue::own_prob;
pub use params::{LinuxParams, MarkLimit};
pub use queue::{
    excess, flow_backlog, flow_of, is_over_memory, named_flow, next_cursor, own_excess,
};
pub use state::{LinuxState, ticks};
pub use stats::LinuxStats;
