//! Guarantees that follow from the rules and hold for every history that an audit finds clean, whatever program wrote it.
//!
//! Each law, and each worked example, is a function with an empty body: its contract is the law, or the example,
//! which computes. `specs/` has the definitions that the contracts cite.
#![tactic(auto)]

mod bursts;
mod clean_histories;
mod counts;
mod early_drop;
mod probability;
mod response;
mod spacing;
mod worked;

pub use bursts::{a_clock_ahead_delays_updates, allowances_begin_whole, burst_allowance_lasts};
pub use clean_histories::{clean_histories_are_lawful, links_are_lawful};
pub use counts::{
    every_packet_is_accounted_for, queues_stay_within_their_limits, waits_are_bounded,
};
pub use early_drop::{
    capable_packets_are_not_dropped_early, no_early_drop_at_low_delay,
    no_early_drop_in_short_queues, no_early_drop_while_inactive,
    no_early_drop_within_burst_allowance, only_capable_packets_are_marked, the_link_does_not_idle,
};
pub use probability::{
    causes_of_a_higher_probability, speed_of_the_probability, steady_delays_move_the_probability,
    the_estimated_delay_lies_between, the_probability_follows_the_delay,
    the_rate_lies_between_its_samples,
};
pub use response::{controllers_recover, lasting_delays_raise_the_probability};
pub use spacing::{
    picks_are_far_apart, picks_are_not_consecutive, picks_are_not_too_far_apart,
    picks_reset_the_sum, picks_share_the_probability,
};
pub use worked::{
    a_clock_at_its_end_refuses_every_update, burst_bound_is_tight,
    limits_may_be_lowered_below_the_queue, one_flow_may_receive_every_pick,
};
