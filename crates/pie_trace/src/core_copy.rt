//! A copy of a core.
ghost use Rattle.std.specs.Prelude.{◌≡◌, IfErr, IfOk};
ghost use Rattle.pie_record.specs.declared.fault.TraceFault.{TraceFault};

use pie_book::{Core, Limits};
use pie_record::TraceFault;
use std::alloc::Global;

/// Returns a copy of `core`, whose opening has `limits`. A core accepts its own numbers and packets, so this fails only
/// if memory is short.
pub(crate) fn copy_core(alloc: Global, limits: Limits, core: &Core) -> Result<Core, TraceFault>
    ensures same { core.now.capacity ≡ limits.packets → core.now.max_events ≡ limits.events → IfOk result (λ copy. copy ≡ core.now) }
    ensures memory { IfErr result (λ why. why ≡ TraceFault.Memory) }
{
    let snapshot = core.snapshot();
    let packets = snapshot.packets as usize;
    let mut resuming = match Core::resume(alloc, limits, snapshot) {
        Ok(resuming) => resuming,
        Err(_) => return Err(TraceFault::Memory),
    };
    for index in 0..packets {
        let Some(waiting) = core.waiting(index) else {
            return Err(TraceFault::Memory);
        };
        match resuming.queue(waiting.packet, waiting.since.units()) {
            Ok(()) => {}
            Err(_) => return Err(TraceFault::Memory),
        }
    }
    match resuming.end() {
        Ok(copy) => Ok(copy),
        Err(_) => Err(TraceFault::Memory),
    }
}
