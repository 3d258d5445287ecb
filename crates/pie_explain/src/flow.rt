//! The flows of the events that were shown, and those of them with the most bytes.
ghost use Rattle.std.specs.Prelude.{◌≡◌, ◌≤◌, ◌++◌, ◌∷◌, [], List, IfOk, OnOk, Some, insert, length};
ghost use Rattle.pie_explain.specs.declared.explanation.Explained.{Explained};
ghost use Rattle.pie_explain.specs.{FlowSums.flow_in, Flows.HasFlows, Flows.first_of, Flows.flows_of, Flows.is_among, Flows.placed, Flows.precedes, Flows.sums_beside};

use crate::Explained;
use crate::flow_sums::{FlowSums, flow_by};
use indexmap::IndexMap;
use std::alloc::{AllocError, Global};

/// A flow: its number, and the sums of its events.
#[derive(Clone, Copy)]
pub struct Flow {
    /// The upper 32 bits of the tags of its packets.
    pub number: u32,
    /// The sums of its events.
    pub sums: FlowSums,
}

/// Takes one more event, which is of this flow.
#[inline(always)]
fn count(rows: &mut IndexMap<u32, Flow>, flow: u32, explained: &Explained) -> Result<(), AllocError>
    ensures { (shown : List Explained) → HasFlows rows.old.entries shown → Some flow ≡ flow_in explained.now
        → OnOk result (HasFlows rows.new.entries (shown ++ explained.now ∷ [])) }
{
    if let Some(row) = rows.get_mut(&flow) {
        row.sums = row.sums.with(explained);
        return Ok(());
    }
    let sums = FlowSums::empty().with(explained);
    match rows.insert(flow, Flow { number: flow, sums }) {
        Ok(_) => Ok(()),
        Err(_) => Err(AllocError),
    }
}

/// Counts one more event.
///
/// # Errors
///
/// `AllocError` if it is the first of its flow, and there is no memory for it.
#[inline(always)]
pub(crate) fn take(rows: &mut IndexMap<u32, Flow>, explained: &Explained) -> Result<(), AllocError>
    ensures { (shown : List Explained) → HasFlows rows.old.entries shown
        → OnOk result (HasFlows rows.new.entries (shown ++ explained.now ∷ [])) }
{
    match flow_by(
        explained.explanation.event.command,
        explained.explanation.event.answer,
    ) {
        Some(flow) => count(rows, flow, explained),
        None => Ok(()),
    }
}

/// Returns all flows, in the order of their first events.
#[tactic(auto, using(crate::proofs::FlowFacts::rows_listed))]
pub(crate) fn flows_of(rows: &IndexMap<u32, Flow>) -> &[Flow]
    ensures { (shown : List Explained) → HasFlows rows.now.entries shown → result.now ≡ flows_of shown }
{
    rows.values().as_slice()
}

/// Returns true if flow `one` comes before `other`: more of its bytes arrived, or equally many and its number is
/// less.
fn precedes(one: &Flow, other: &Flow) -> bool
    ensures { result ≡ precedes one.now other.now }
{
    other.sums.bytes < one.sums.bytes
        || one.sums.bytes == other.sums.bytes && one.number < other.number
}

/// Returns the place of the first flow that comes after `one`.
fn place_for(flows: &[Flow], one: &Flow) -> usize
    ensures placed { insert flows.now result one.now ≡ placed flows.now one.now }
    ensures within { result ≤ length flows.now }
{
    match flows {
        [] => 0,
        [first, rest @ ..] => {
            if precedes(one, first) {
                0
            } else {
                place_for(rest, one) + 1
            }
        }
    }
}

/// Inserts one more flow into `first`, the first `most` flows, unless at least `most` flows come before it.
#[tactic(auto, using(crate::proofs::FlowFacts::first_of_push))]
fn place(first: &mut Vec<Flow>, most: usize, one: &Flow) -> Result<(), AllocError>
    ensures { (flows : List Flow) → first.old.items ≡ first_of most flows
        → OnOk result (first.new.items ≡ first_of most (flows ++ one.now ∷ [])) }
{
    let place = place_for(first.as_slice(), one);
    first.insert(place, *one)?;
    first.truncate(most);
    Ok(())
}

/// Returns the first `most` of these flows: those with the most bytes.
///
/// # Errors
///
/// Returns `AllocError` if memory is short.
#[tactic(auto, using(crate::proofs::FlowFacts::none_first))]
pub(crate) fn first_of(alloc: Global, flows: &[Flow], most: usize) -> Result<Vec<Flow>, AllocError>
    ensures { IfOk result (λ first. first.items ≡ first_of most flows.now) }
{
    let mut first = Vec::new(alloc);
    for at in 0..flows.len() {
        place(&mut first, most, &flows[at])?;
    }
    Ok(first)
}

/// Returns true if the flow is one of `some`.
fn is_among(some: &[Flow], one: &Flow) -> bool
    ensures { result ≡ is_among some.now one.now }
{
    match some {
        [] => false,
        [first, rest @ ..] => one.number == first.number || is_among(rest, one),
    }
}

/// Adds the numbers of one more flow, unless it is one of these.
#[tactic(auto, using(crate::proofs::FlowFacts::beside_more, crate::proofs::FlowFacts::beside_same))]
fn with_beside(sums: FlowSums, some: &[Flow], one: &Flow) -> FlowSums
    ensures { (flows : List Flow) → sums ≡ sums_beside some.now flows → result ≡ sums_beside some.now (flows ++ one.now ∷ []) }
{
    if is_among(some, one) {
        sums
    } else {
        sums.plus(&one.sums)
    }
}

/// Returns the sums of all flows except `some`.
pub(crate) fn sums_beside(some: &[Flow], flows: &[Flow]) -> FlowSums
    ensures { result ≡ sums_beside some.now flows.now }
{
    let mut sums = FlowSums::empty();
    for at in 0..flows.len() {
        sums = with_beside(sums, some, &flows[at]);
    }
    sums
}
