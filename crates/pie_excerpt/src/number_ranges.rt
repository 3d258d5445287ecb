//! Written numbers fit the types of their fields. These functions do nothing: their contracts state it for given values.
ghost use Rattle.std.specs.Prelude.{◌≡◌, ◌<◌, ◌∷◌, []};
ghost use Rattle.pie_excerpt.specs.{None, first_bad, StatsFit, AllSmall, NineFit, ResumeFits, SetterFits, WaitingFits, cycle_bytes, cycle_start, measuring};

use crate::resume::Resume;
use pie_book::Stats;
use pie_params::{Params, RawParams};
use pie_queue::Waiting;
use pie_rate::RawCycle;

/// Parameters that were checked are in their ranges.
pub fn params_are_good(params: Params)
    ensures { first_bad params ≡ None }
{
    let _ = params.raw();
}

/// The nine parameters, in their ranges or not, fit their types.
fn nine_fit(params: RawParams)
    ensures { NineFit params }
{
    let _ = (params.target, params.t_update, params.max_burst);
    let _ = (params.alpha, params.beta, params.mean_pkt);
    let _ = (params.limit_bytes, params.mark_ecnth, params.dq_threshold);
}

/// The numbers of a cycle of the departure rate fit their types.
fn cycle_fits(cycle: Option<RawCycle>)
    ensures { AllSmall (measuring cycle ∷ cycle_start cycle ∷ cycle_bytes cycle ∷ []) }
{
    match cycle {
        Some(cycle) => {
            let _ = (cycle.start, cycle.count);
        }
        None => {}
    }
}

/// The event that set the probability, if it is known, fits its type.
fn setter_fits(set_by: Option<u64>)
    ensures { SetterFits set_by }
{
    match set_by {
        Some(number) => {
            let _ = number;
        }
        None => {}
    }
}

/// Statistics fit their types.
fn stats_fit(s: Stats)
    ensures { StatsFit s }
{
    let _ = (s.arrivals, s.enqueued, s.marked, s.early, s.over_bytes);
    let _ = (s.over_packets, s.left, s.left_bytes, s.empty, s.updates);
    let _ = (s.resets, s.changes, s.largest_queue, s.largest_delay);
    let _ = s.waited;
}

/// The contents of the first record fit the types of their fields.
pub fn resume_fits(resume: Resume)
    ensures { ResumeFits resume }
{
    let snapshot = resume.snapshot;
    let c = snapshot.controller;
    nine_fit(resume.params);
    nine_fit(c.params);
    setter_fits(resume.set_by);
    cycle_fits(c.rate.begun);
    stats_fit(snapshot.stats);
    let limits = resume.limits;
    let _ = (resume.opened, limits.packets, limits.tail, limits.events);
    let _ = (snapshot.count, snapshot.packets, snapshot.bytes);
    let _ = (c.moment, c.control.prob, c.control.old_delay, c.accu);
    let _ = (c.control.burst, c.control.last, c.rate.average, c.waited);
}

/// A queued packet's numbers fit their types.
pub(crate) fn waiting_fits(waiting: Waiting)
    ensures { WaitingFits waiting }
{
    let _ = (waiting.packet.tag, waiting.packet.size, waiting.since);
}
