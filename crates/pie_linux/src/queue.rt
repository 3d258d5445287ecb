ghost use Rattle.std.specs.Prelude.{◌≡◌};
ghost use Rattle.pie_linux.specs.Queue.{excess, flow_backlog, flow_of, is_over_memory, named_flow, next_cursor, own_excess};

/// Returns the number of packets that a change of the limit drops from the front of `length` waiting packets
/// (`pie_change`, `fq_pie_change`).
pub fn excess(length: u32, limit: u32) -> u32
    ensures { result ≡ excess length limit }
{
    length.saturating_sub(limit)
}

/// Returns the number of its own packets that a change of the limit drops from a queue of `length` packets: those that the
/// device returned, `returned` in number, are counted too, and dropped first (`qdisc_dequeue_internal`).
pub fn own_excess(length: u32, returned: u32, limit: u32) -> u32
    ensures { result ≡ own_excess length returned limit }
{
    excess(length.wrapping_add(returned), limit).saturating_sub(returned)
}

/// Returns true if fq_pie counts its memory as exceeded before a packet of `truesize` bytes of memory. The packet is not
/// dropped for it (`fq_pie_qdisc_enqueue`).
pub fn is_over_memory(usage: u32, limit: u32, truesize: u32) -> bool
    ensures { result ≡ is_over_memory usage limit truesize }
{
    usage > limit.wrapping_add(truesize)
}

/// Returns the flow that a packet's priority (`skb->priority`) names, if any: the priority is a class of the queue with this
/// handle, from 1 to the number of flows. Such a class comes before filters and the hash (`fq_pie_classify`).
pub fn named_flow(priority: u32, handle: u32, flows: u32) -> Option<u32>
    ensures { result ≡ named_flow priority handle flows }
{
    let class = priority % 65536;
    if priority - class == handle && class > 0 && class <= flows {
        Some(class - 1)
    } else {
        None
    }
}

/// Returns the flow of a packet with this hash, if no filter and no priority chooses it (`fq_pie_hash`).
pub fn flow_of(hash: u32, flows: u32) -> u32
    ensures { result ≡ flow_of hash flows }
{
    (u64::from(hash) * u64::from(flows) / (1 << 32)) as u32
}

/// Returns a flow's backlog after a packet of `size` bytes was queued. A flow that waits in no list begins at 0
/// (`fq_pie_qdisc_enqueue`).
pub fn flow_backlog(listed: bool, backlog: u32, size: u32) -> u32
    ensures { result ≡ flow_backlog listed backlog size }
{
    let before = if listed { backlog } else { 0 };
    before.wrapping_add(size)
}

/// Returns the first flow of the next round (`fq_pie_timer`).
pub fn next_cursor(flows: u32, cursor: u32) -> u32
    ensures { result ≡ next_cursor flows cursor }
{
    let left = flows.saturating_sub(cursor);
    if left > 2048 { cursor + 2048 } else { 0 }
}
