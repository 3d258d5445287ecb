//! The opening for a link, and the advice about it as a text.
ghost use Rattle.std.specs.Prelude.{◌≡◌, ◌++◌, ◌↔◌, IfErr, IfOk, IsOk, OnOk, Some};
ghost use Rattle.pie_params.specs.Params.{IsInRange, first_bad};
ghost use Rattle.pie_record.specs.Text.{text_of};
ghost use Rattle.pie_record.specs.Write.{opening_row};
ghost use Rattle.pie_units.specs.Opening.{params_for};
ghost use Rattle.pie_units.specs.Advice.{opening_for_link, tuning_for, numbers_for, IsOutlook};

use crate::advising::numbers::{Numbers, numbers_for};
use crate::advising::outlook::{Outlook, outlook_for, push_expectation};
use crate::advising::request::Request;
use crate::advising::setting::{push_lines, push_settings};
use crate::{
    Layer, LinkLayer, TuningOptions, default_packets, elements_for, gain_of, opening_for,
    params_for,
};
use pie_event::Opening;
use pie_params::{BadParam, Decay, Params, RawParams};
use pie_record::{Page, RowBuffer, put_opening};
use std::alloc::AllocError;

/// Returns the options of `tc` for a link: the defaults of RFC 8033 and of `tc`, and the limits for the rate.
fn tuning_for(request: &Request) -> TuningOptions
    ensures { result ≡ tuning_for request.now }
{
    TuningOptions {
        rate: request.rate,
        target: 15_000_000,
        t_update: 15_000_000,
        packets: default_packets(request.rate),
        alpha: gain_of(2),
        beta: gain_of(20),
        ecn: request.ecn,
        dq_rate_estimator: false,
        bytemode: false,
        mtu: 1514,
        no_derandomization: false,
        no_cap_drop_adjustment: false,
        decay: Decay::Zero,
        layer: Layer {
            overhead: request.overhead,
            mpu: 0,
            format: LinkLayer::Ethernet,
        },
    }
}

/// Returns the opening for a link: the one that `pie params` writes for its rate, overhead and ECN.
///
/// # Errors
///
/// Returns `BadParam` with the first parameter that is out of its range: `mean_pkt`, if the overhead is too great.
pub fn opening_for_link(request: &Request) -> Result<Opening, BadParam>
    ensures opening { IfOk result (λ opening. opening ≡ opening_for_link request.now) }
    ensures accepts { IsOk result ↔ IsInRange (params_for (tuning_for request.now)) }
    ensures refuses { IfErr result (λ e. first_bad (params_for (tuning_for request.now)) ≡ Some e.0) }
{
    let tuning = tuning_for(request);
    match Params::check(params_for(&tuning)) {
        Ok(params) => Ok(opening_for(tuning.packets as u32, elements_for(&tuning), params)),
        Err(why) => Err(why),
    }
}

/// The advice about an opening for a link, in numbers.
#[derive(Clone, Copy)]
pub struct Advice {
    /// The parameters in the units of other queues.
    pub numbers: Numbers,
    /// The expected behaviour of the queue.
    pub outlook: Outlook,
}

/// Returns the advice about an opening for a link.
pub fn advice_for(request: &Request, opening: &Opening) -> Advice
    ensures numbers { result.numbers ≡ numbers_for opening.now }
    ensures outlook { IsOutlook request.now opening.now.params result.outlook }
{
    Advice {
        numbers: numbers_for(opening),
        outlook: outlook_for(request, &opening.params.raw()),
    }
}

/// Writes the parameters with their reasons, and the lines that configure the queue.
fn push_front(
    page: &mut Page,
    request: &Request,
    opening: &Opening,
    numbers: &Numbers,
) -> Result<(), AllocError> {
    let mut words = page.words();
    push_settings(&mut words, request, opening, numbers)?;
    push_lines(&mut words, request, &opening.params.raw(), numbers)?;
    page.put(words)
}

/// Writes the record of the opening.
fn push_record(page: &mut Page, opening: &Opening) -> Result<(), AllocError>
    ensures { OnOk result (page.new ≡ page.old ++ text_of (opening_row opening.now)) }
{
    let mut row = RowBuffer::new();
    put_opening(&mut row, opening);
    page.push(row.as_bytes())
}

/// Writes the margins, the mean wait, and the warnings.
fn push_end(page: &mut Page, request: &Request, outlook: &Outlook) -> Result<(), AllocError> {
    let mut words = page.words();
    push_expectation(&mut words, request, outlook)?;
    page.put(words)
}

/// Writes the advice about an opening for a link onto `page`: each parameter with its reason, the lines that configure
/// the queue, the record of the opening, the mean wait, the margins of stability, and warnings.
///
/// # Errors
///
/// `AllocError` if memory is short.
pub fn push_advice(
    page: &mut Page,
    request: &Request,
    opening: &Opening,
    advice: &Advice,
) -> Result<(), AllocError> {
    push_front(page, request, opening, &advice.numbers)?;
    push_record(page, opening)?;
    push_end(page, request, &advice.outlook)
}
