//! The parameters that have other values in the other history.
ghost use Rattle.std.specs.Prelude.{◌≡◌};
ghost use Rattle.pie_trace.specs.Other.{altered, changed, over};

use pie_event::Command;
use pie_params::{Params, RawParams};

/// The values of parameters in the other history. A parameter without a value here has that of the history. The units
/// and ranges are those of [`RawParams`].
#[derive(Clone, Copy, Debug, PartialEq, Eq)]
pub struct OtherParams {
    /// The reference queueing delay, in nanoseconds.
    pub target: Option<u64>,
    /// The time between two updates, in nanoseconds.
    pub t_update: Option<u64>,
    /// The burst allowance, in nanoseconds.
    pub max_burst: Option<u64>,
    /// The gain on the difference between delay and target, in thousandths per second.
    pub alpha: Option<u64>,
    /// The gain on the change of the delay, in thousandths per second.
    pub beta: Option<u64>,
    /// The mean packet size, in bytes.
    pub mean_pkt: Option<u64>,
    /// The queue's limit, in bytes.
    pub limit_bytes: Option<u64>,
    /// The probability from which on a picked packet is dropped instead of marked, in units of `10^-12`.
    pub mark_ecnth: Option<u64>,
    /// The number of bytes that a cycle of the departure rate counts.
    pub dq_threshold: Option<u64>,
}

impl OtherParams {
    /// Returns `params` with these values.
    pub fn over(&self, params: RawParams) -> RawParams
        ensures { result ≡ over self.now params }
    {
        RawParams {
            target: self.target.unwrap_or(params.target),
            t_update: self.t_update.unwrap_or(params.t_update),
            max_burst: self.max_burst.unwrap_or(params.max_burst),
            alpha: self.alpha.unwrap_or(params.alpha),
            beta: self.beta.unwrap_or(params.beta),
            mean_pkt: self.mean_pkt.unwrap_or(params.mean_pkt),
            limit_bytes: self.limit_bytes.unwrap_or(params.limit_bytes),
            mark_ecnth: self.mark_ecnth.unwrap_or(params.mark_ecnth),
            dq_threshold: self.dq_threshold.unwrap_or(params.dq_threshold),
        }
    }

    /// Returns `params` with these values if all are then in their ranges, otherwise `params`.
    pub(crate) fn changed(&self, params: Params) -> Params
        ensures { result ≡ changed self.now params }
    {
        match Params::from_raw(self.over(params.raw())) {
            Some(other) => other,
            None => params,
        }
    }

    /// Returns the command of the other history: a change of the parameters keeps these values.
    pub(crate) fn altered(&self, command: Command) -> Command
        ensures { result ≡ altered self.now command }
    {
        match command {
            Command::SetParams { moment, params } => Command::SetParams {
                moment,
                params: self.changed(params),
            },
            other => other,
        }
    }
}
