//! Opening a link, and sharing, gathering and closing ports.
ghost use Rattle.std.specs.Prelude.{◌≡◌, ◌≢◌, IfOk, IfErr, OnOk, None};
ghost use Rattle.pie_link_c.specs.{AreOfOneLink, Gathers, IsOpened, KeepsOneHistory, Shares, close_code, open_refusal};

use crate::code::{APART, CLOSED, NO_CALLERS, NO_MEMORY, OPEN};
use crate::handle::PiePort;
use crate::port::Port;
use atomic_table::TableRule;
use pie_abi::code::DONE;
use pie_abi::opening::{PieOpening, checked};
use pie_event::Opening;
use pie_link::{Entry, KeptBook};
use pie_lock::{LockOpening, LockRule, SeatKnowledge};
use std::alloc::Global;

/// Opens a link for `callers` callers, and the closed port `port` with all their numbers.
///
/// Refused, in this order: an open port, an opening that `pie_open` refuses, no callers, out of memory. The port is
/// unchanged then.
#[unsafe(no_mangle)]
pub extern "C" fn pie_link_open_port(
    alloc: Global,
    opening: &PieOpening,
    callers: u16,
    port: &mut PiePort,
) -> u32
    ensures refused { open_refusal port.old.port opening.now callers ≢ 0 → result ≡ open_refusal port.old.port opening.now callers }
    ensures kept { result ≢ 0 → port.new.port ≡ port.old.port }
    ensures done { open_refusal port.old.port opening.now callers ≡ 0 → result ≢ 123 → result ≡ 0 }
    ensures opened { result ≡ 0 → IsOpened (KeepsOneHistory
        ⟦<LockRule as TableRule<Option<KeptBook>, SeatKnowledge<Entry, Opening>, LockOpening<KeptBook>>>⟧.holds) opening.now callers port.new.port }
{
    if let Some(port_box) = port.take_box(alloc) {
        port.put_box(port_box);
        return OPEN;
    }
    match opened(alloc, opening, callers) {
        Ok(port_box) => {
            port.put_box(port_box);
            DONE
        }
        Err(code) => code,
    }
}

// Returns the port with all numbers of a new link.
fn opened(alloc: Global, opening: &PieOpening, callers: u16) -> Result<Box<Port>, u32>
    ensures refused { IfErr result (λ code. open_refusal None opening.now callers ≢ 0 → code ≡ open_refusal None opening.now callers) }
    ensures memory { IfErr result (λ code. open_refusal None opening.now callers ≡ 0 → code ≡ 123) }
    ensures none { IfErr result (λ code. code ≢ 0) }
    ensures allowed { OnOk result (open_refusal None opening.now callers ≡ 0) }
    ensures opened { IfOk result (λ port_box. IsOpened (KeepsOneHistory
        ⟦<LockRule as TableRule<Option<KeptBook>, SeatKnowledge<Entry, Opening>, LockOpening<KeptBook>>>⟧.holds) opening.now callers (Some port_box.value)) }
{
    let opening = match checked(opening) {
        Ok(opening) => opening,
        Err(code) => return Err(code),
    };
    if callers == 0 {
        return Err(NO_CALLERS);
    }
    let Some(port) = Port::of_opening(alloc, opening, callers) else {
        return Err(NO_MEMORY);
    };
    Ok(port)
}

/// Opens the closed port `new` with the highest number of `port`: a caller of its own, for another thread. If the port
/// has only one number, or there is no memory, both are unchanged.
#[unsafe(no_mangle)]
pub extern "C" fn pie_link_share_port(alloc: Global, port: &mut PiePort, new: &mut PiePort) -> u32
    ensures { Shares port.old.port new.old.port result port.new.port new.new.port }
{
    let Some(mut port_box) = port.take_box(alloc) else {
        return CLOSED;
    };
    if let Some(other) = new.take_box(alloc) {
        new.put_box(other);
        port.put_box(port_box);
        return OPEN;
    }
    let shared = port_box.share(alloc);
    port.put_box(port_box);
    match shared {
        Ok(other) => {
            new.put_box(other);
            DONE
        }
        Err(code) => code,
    }
}

/// Joins the numbers of `other`, which is closed then, to `port`, if the ranges are adjacent. Both belong to one link:
/// pie_link.h compares the memory that the ports of a link share, and calls this only for two ports of one link.
#[unsafe(no_mangle)]
pub extern "C" fn pie_link_gather_ports(
    alloc: Global,
    port: &mut PiePort,
    other: &mut PiePort,
) -> u32
    requires own { AreOfOneLink port.old.port other.old.port }
    ensures { Gathers port.old.port other.old.port result port.new.port other.new.port }
{
    let Some(mut port_box) = port.take_box(alloc) else {
        return CLOSED;
    };
    let Some(given) = other.take_box(alloc) else {
        port.put_box(port_box);
        return CLOSED;
    };
    let gathered = port_box.gather(given);
    port.put_box(port_box);
    match gathered {
        Ok(()) => DONE,
        Err(back) => {
            other.put_box(back);
            APART
        }
    }
}

/// Closes a port. Closing the last port frees the link. No port has the closed port's numbers then.
#[unsafe(no_mangle)]
pub extern "C" fn pie_link_close_port(alloc: Global, port: &mut PiePort) -> u32
    ensures answer { result ≡ close_code port.old.port }
    ensures closed { port.new.port ≡ None }
{
    match port.take_box(alloc) {
        Some(port_box) => {
            drop(port_box);
            DONE
        }
        None => CLOSED,
    }
}
