//! Planning a storm.
ghost use Rattle.std.specs.Prelude.{◌≡◌, ◌+◌, ◌*◌, ◌/◌, ◌^◌, ◌<◌, ◌≤◌, IfOk, map};
ghost use Rattle.std.specs.List.{range_with_len};
ghost use Rattle.pie_storm.specs.Plans.{IsStormPlan, after_three, arrival_by, arrivals_of, change_at, changes_of, departs_of, ecn_of, HasStormRange, usual_storm, folds_of, list_in, moment_of, params_at, updates_of, words_of};

use crate::plan::{Change, Plan, StormNumbers};
use pie_book::{Elements, Limits, Profile};
use pie_link::Arrival;
use pie_params::{Params, RawParams};
use pie_queue::{Ecn, Memory, Packet};
use rand_core::Rng;
use rand_pcg::Lcg128Xsl64;
use std::alloc::{AllocError, Global};

/// The nanoseconds from one packet of a sender to its next.
const PACKET_TIME: u64 = 1_000_000;
/// A hundredth of `PACKET_TIME`, for each percent of load.
const LOAD_TIME: u64 = 10_000;
/// The number of tags of each sender.
const SENDER_TAGS: u64 = 1 << 32;
/// The nanoseconds from one update to the next: the default `t_update`.
const UPDATE_TIME: u64 = 15_000_000;
/// The target of every other change, in nanoseconds: a third of the default.
const SHORT_TARGET: u64 = 5_000_000;

/// Returns the ECN field of two bits (RFC 3168, section 5).
fn ecn_of(bits: u64) -> Ecn
    requires { bits < 4 }
    ensures { result ≡ ecn_of bits }
{
    match bits {
        0 => Ecn::NotEct,
        1 => Ecn::Ect1,
        2 => Ecn::Ect0,
        _ => Ecn::Ce,
    }
}

/// Returns a product of small numbers. Its bound is no product, so that callers need not bound one.
#[tactic(auto, using(crate::proofs::StormFacts::small_product))]
fn product(count: u64, by: u64) -> u64
    requires count { count ≤ 2 ^ 40 }
    requires by { by ≤ 2 ^ 14 }
    ensures value { result ≡ count * by }
    ensures few { result ≤ count * 2 ^ 14 }
{
    count * by
}

/// Returns the moment of a sender's packet, counted from 0: that of the last packet of its burst.
#[tactic(auto, using(crate::proofs::StormFacts::small_quotient))]
fn moment_of(packets: u64, burst: u64, i: u64) -> u64
    requires some { 1 ≤ burst }
    requires burst { burst ≤ 1024 }
    requires packets { packets ≤ 10_000 }
    requires i { i < packets }
    ensures { result ≡ moment_of packets burst i }
{
    product(i / burst + 1, burst).min(packets) * PACKET_TIME
}

/// Returns an arrival of a sender at this moment, counted from 0, by its next three random words.
fn next_arrival(words: &mut Lcg128Xsl64, sender: u64, i: u64, moment: u64) -> Arrival
    requires sender { sender ≤ 8 }
    requires i { i < 10_000 }
    ensures value { result ≡ arrival_by sender i moment (words_of words.old) }
    ensures words { words_of words.new ≡ after_three (words_of words.old) }
{
    let size = words.next_u64();
    let ecn = words.next_u64();
    let word = words.next_u64();
    Arrival {
        moment,
        packet: Packet {
            tag: sender * SENDER_TAGS + i,
            size: 64 + (size % 1437) as u32,
            ecn: ecn_of(ecn % 4),
        },
        word,
    }
}

/// Returns the arrivals of one sender, in order.
fn arrivals_of(
    alloc: Global,
    sender: u64,
    packets: u64,
    burst: u64,
    seed: u64,
) -> Result<Vec<Arrival>, AllocError>
    requires sender { sender ≤ 8 }
    requires packets { packets ≤ 10_000 }
    requires some { 1 ≤ burst }
    requires burst { burst ≤ 1024 }
    ensures { IfOk result (λ list. list_in list ≡ arrivals_of packets burst seed sender) }
{
    let mut words = Lcg128Xsl64::new(u128::from(seed), u128::from(sender));
    let mut arrivals = Vec::with_capacity(alloc, packets as usize)?;
    for i in 0..packets {
        let moment = moment_of(packets, burst, i);
        arrivals.push(next_arrival(&mut words, sender, i, moment))?;
    }
    Ok(arrivals)
}

/// Returns the arrivals of each sender.
#[tactic(auto, using(crate::proofs::StormFacts::lists_push))]
fn all_arrivals(
    alloc: Global,
    senders: u64,
    packets: u64,
    burst: u64,
    seed: u64,
) -> Result<Vec<Vec<Arrival>>, AllocError>
    requires senders { senders ≤ 8 }
    requires packets { packets ≤ 10_000 }
    requires some { 1 ≤ burst }
    requires burst { burst ≤ 1024 }
    ensures { IfOk result (λ lists. map list_in lists.items ≡ map (arrivals_of packets burst seed) (range_with_len 1 senders)) }
{
    let mut lists = Vec::with_capacity(alloc, senders as usize)?;
    for before in 0..senders {
        lists.push(arrivals_of(alloc, before + 1, packets, burst, seed)?)?;
    }
    Ok(lists)
}

/// Returns a departure for each packet, spread evenly, at this load.
fn departs_of(alloc: Global, senders: u64, packets: u64, load: u64) -> Result<Vec<u64>, AllocError>
    requires some { 1 ≤ senders }
    requires senders { senders ≤ 8 }
    requires packets { packets ≤ 10_000 }
    requires load { load ≤ 200 }
    ensures { IfOk result (λ list. list.items ≡ departs_of senders packets load) }
{
    (0..product(senders, packets))
        .map(|j| departure_of(senders, load, j))
        .collect(alloc)
}

/// Returns the moment of a departure, counted from 0.
fn departure_of(senders: u64, load: u64, j: u64) -> u64
    requires some { 1 ≤ senders }
    requires load { load ≤ 200 }
    requires j { j < 2 ^ 17 }
    ensures { result ≡ (j + 1) * load * 10_000 / senders }
{
    product(j + 1, load) * LOAD_TIME / senders
}

/// Returns an update at each due moment while packets arrive, and one more.
fn updates_of(alloc: Global, packets: u64) -> Result<Vec<u64>, AllocError>
    requires { packets ≤ 10_000 }
    ensures { IfOk result (λ list. list.items ≡ updates_of packets) }
{
    (0..packets / 15 + 1)
        .map(|j| (j + 1) * UPDATE_TIME)
        .collect(alloc)
}

/// Returns the parameters of a change: a target of 5 ms, and the defaults at every second change.
fn params_at(k: u64) -> Params
    ensures { result ≡ params_at k }
{
    if k % 2 == 0 {
        Params::in_range(RawParams {
            target: SHORT_TARGET,
            ..Params::default_profile().raw()
        })
    } else {
        Params::default_profile()
    }
}

/// Returns a change, counted from 0.
fn change_at(packets: u64, changes: u64, k: u64) -> Change
    requires packets { packets ≤ 10_000 }
    requires changes { changes ≤ 100 }
    requires k { k < changes }
    ensures { result ≡ change_at packets changes k }
{
    Change {
        moment: product(k + 1, packets) * PACKET_TIME / (changes + 1),
        params: params_at(k),
    }
}

/// Returns the changes of the parameters, spread evenly over the time in which packets arrive.
fn changes_of(alloc: Global, packets: u64, changes: u64) -> Result<Vec<Change>, AllocError>
    requires packets { packets ≤ 10_000 }
    requires changes { changes ≤ 100 }
    ensures { IfOk result (λ list. list.items ≡ changes_of packets changes) }
{
    (0..changes)
        .map(|k| change_at(packets, changes, k))
        .collect(alloc)
}

/// Returns the folds; their total is about the number of packets of all senders.
fn folds_of(alloc: Global, senders: u64, packets: u64, folds: u64) -> Result<Vec<u64>, AllocError>
    requires senders { senders ≤ 8 }
    requires packets { packets ≤ 10_000 }
    requires folds { folds ≤ 100 }
    ensures { IfOk result (λ list. list.items ≡ folds_of senders packets folds) }
{
    let events = product(senders, packets);
    (0..folds).map(|_| events / folds).collect(alloc)
}

/// Plans a storm (this project's own) with default parameters from moment 0 on.
///
/// - Each sender has one packet per millisecond, of 64 to 1500 bytes and any ECN field. Size, ECN field and random word
///   are three words of a generator from `seed` and the sender's number. A call has `burst` packets, at the moment of
///   the last one.
/// - There is a departure for each packet, spread evenly over that time at a `load` of 100, otherwise over `load`
///   hundredths of it.
/// - There is an update at each due moment while packets arrive.
/// - The changes are spread evenly over that time, to a target of 5 ms and back in turn.
/// - The total of the folds is about the number of packets. The event log has room for all events, so that no fold is
///   needed.
///
/// # Errors
///
/// `AllocError` if there is no memory for the lists.
pub(crate) fn plan_of(alloc: Global, numbers: StormNumbers) -> Result<Plan, AllocError>
    requires { HasStormRange numbers }
    ensures { IfOk result (IsStormPlan numbers) }
{
    let (senders, packets) = (u64::from(numbers.senders), u64::from(numbers.packets));
    let commands = 2 * senders * packets + packets / 15 + 1 + numbers.changes;
    let burst = u64::from(numbers.burst);
    let arrivals = all_arrivals(alloc, senders, packets, burst, numbers.seed)?;
    let departs = departs_of(alloc, senders, packets, numbers.load)?;
    let updates = updates_of(alloc, packets)?;
    let changes = changes_of(alloc, packets, numbers.changes)?;
    let folds = folds_of(alloc, senders, packets, numbers.folds)?;
    Ok(Plan {
        limits: Limits {
            packets: 1024,
            tail: commands as u32,
            events: commands,
        },
        params: Params::default_profile(),
        moment: 0,
        profile: numbers.profile,
        elements: numbers.elements,
        arrivals,
        burst: numbers.burst,
        departs,
        updates,
        changes,
        folds,
    })
}

/// Plans the usual storm (this project's own): 2 to 8 senders with 1 to 10,000 `packets` each, and random words from
/// `seed`. Each sender makes one arrival per millisecond, in a call of its own, and the load is 100. The parameters
/// never change, there are no folds, and the controller has profile one with the usual elements.
///
/// # Errors
///
/// `Memory` if there is no memory for the lists.
pub fn storm_plan(alloc: Global, senders: u16, packets: u32, seed: u64) -> Result<Plan, Memory>
    requires senders { (2 ≤ senders) × (senders ≤ 8) }
    requires packets { (1 ≤ packets) × (packets ≤ 10_000) }
    ensures { IfOk result (IsStormPlan (usual_storm senders packets seed)) }
{
    let numbers = StormNumbers {
        senders,
        packets,
        burst: 1,
        seed,
        load: 100,
        changes: 0,
        folds: 0,
        profile: Profile::One,
        elements: Elements::usual(),
    };
    match plan_of(alloc, numbers) {
        Ok(plan) => Ok(plan),
        Err(_) => Err(Memory),
    }
}
