//! Readings: the state of the book behind a port, in the caller's structs.
ghost use Rattle.std.specs.Prelude.{◌≡◌};
ghost use Rattle.pie_link_c.specs.{TriesToReadInto, registers_of, totals_of};
ghost use Rattle.pie_book.specs.Decision.{registers_after, stats_after};
ghost use Rattle.pie_link_c.specs.Bursts.{IsReadInto};

use crate::code::{BUSY, CLOSED};
use crate::handle::PiePort;
use crate::port::Port;
use pie_abi::PieStats;
use pie_abi::code::DONE;
use pie_event::{Refusal, Registers, Stats};
use pie_link::{Told, Tried};
use pie_params::RawParams;
use std::alloc::Global;

/// The registers. Times are in nanoseconds, probabilities in units of `10^-12` (RFC 8033, sections 4.2, 4.4, 5.2 and
/// 5.3).
#[repr(C)]
#[derive(Clone, Copy)]
pub struct PieRegisters {
    /// The number of events.
    pub count: u64,
    /// The effective moment, the greatest so far.
    pub moment: u64,
    /// The number of packets in the queue.
    pub packets: u64,
    /// Their bytes.
    pub bytes: u64,
    /// The probability of a drop or mark.
    pub prob: u64,
    /// The delay at the last update.
    pub old_delay: u64,
    /// The accumulated probability.
    pub accu: u64,
    /// The burst allowance.
    pub burst: u64,
    /// The moment of the last update, or of the opening.
    pub last: u64,
    /// The moment from which the next update is due.
    pub due: u64,
    /// The average time in which `dq_threshold` bytes depart, 0 without a sample.
    pub average: u64,
    /// 1 during a measurement cycle of the departure rate, otherwise 0.
    pub measuring: u64,
    /// 1 while the controller is active, otherwise 0; always 1 in profile one.
    pub active: u64,
    /// The parameters in force.
    pub params: RawParams,
}

/// The statistics of all events.
#[repr(C)]
#[derive(Clone, Copy)]
pub struct PieTotals {
    /// The number of events.
    pub count: u64,
    /// The statistics.
    pub stats: PieStats,
}

// Returns the registers, with the number of events, as a struct.
fn registers(reply: &Told<Registers>) -> PieRegisters
    ensures { result ≡ registers_of reply.now }
{
    let r = &reply.answer;
    let params = r.params.raw();
    PieRegisters {
        count: reply.number,
        moment: r.moment,
        packets: r.packets,
        bytes: r.bytes,
        prob: r.prob,
        old_delay: r.old,
        accu: r.accu,
        burst: r.burst,
        last: r.last,
        due: r.last.saturating_add(params.t_update),
        average: r.average,
        measuring: u64::from(r.measuring),
        active: u64::from(r.active),
        params,
    }
}

impl Port {
    /// Reads the registers.
    fn try_registers(&mut self, out: &mut PieRegisters) -> u32
        ensures { IsReadInto registers_after registers_of self.old out.old result out.new self.new }
    {
        match self.link.try_registers(&mut self.caller) {
            Ok(reply) => {
                *out = registers(&reply);
                DONE
            }
            Err(_) => BUSY,
        }
    }

    /// Reads the statistics.
    fn try_stats(&mut self, out: &mut PieTotals) -> u32
        ensures { IsReadInto stats_after totals_of self.old out.old result out.new self.new }
    {
        match self.link.try_stats(&mut self.caller) {
            Ok(reply) => {
                *out = PieTotals {
                    count: reply.number,
                    stats: PieStats::of(&reply.answer),
                };
                DONE
            }
            Err(_) => BUSY,
        }
    }
}

/// Reads the registers after all events.
#[tactic(auto, unfolding(crate::specs::Calls::AtPort))]
#[unsafe(no_mangle)]
pub extern "C" fn pie_link_try_registers(
    alloc: Global,
    port: &mut PiePort,
    registers: &mut PieRegisters,
) -> u32
    ensures { TriesToReadInto registers_after registers_of port.old.port registers.old result registers.new port.new.port }
{
    let Some(mut port_box) = port.take_box(alloc) else {
        return CLOSED;
    };
    let code = port_box.try_registers(registers);
    port.put_box(port_box);
    code
}

/// Reads the statistics of all events.
#[tactic(auto, unfolding(crate::specs::Calls::AtPort))]
#[unsafe(no_mangle)]
pub extern "C" fn pie_link_try_stats(
    alloc: Global,
    port: &mut PiePort,
    totals: &mut PieTotals,
) -> u32
    ensures { TriesToReadInto stats_after totals_of port.old.port totals.old result totals.new port.new.port }
{
    let Some(mut port_box) = port.take_box(alloc) else {
        return CLOSED;
    };
    let code = port_box.try_stats(totals);
    port.put_box(port_box);
    code
}
