//! `pie params`: converts options of `tc` to the record that opens a book.
ghost use Rattle.std.specs.Prelude.{◌≡◌, IfSome, None, codes, option_map};
ghost use Rattle.clap.specs.Words.{first_of, found_of, rows_of};
ghost use Rattle.pie_units.specs.Opening.{overhead_of};
ghost use Rattle.pie_units.specs.declared.layer.Layer.{Layer};
ghost use Rattle.pie_units.specs.declared.layer.Overhead.{Overhead};
ghost use Rattle.pie_units.specs.declared.options.TuningOptions.{TuningOptions};
ghost use Rattle.pie_commands.specs.Tuning.{AsksFor, AsksForLayer, IsRequested, RefusesParams, given_or, link_layer_by, number_by};

use crate::call::Call;
use crate::end::End;
use crate::files::Output;
use crate::line::Part::{Number, Text};
use crate::line::{say, say_parts, say_text};
use crate::options::{flag, number, number_or, parsed, report_nearest, text};
use crate::storm::decay_of;
use clap::ArgMatches;
use pie_book::Limits;
use pie_event::Opening;
use pie_params::{Params, RawParams};
use pie_trace::TraceFault;
use pie_units::{
    Layer, LinkLayer, OptionFault, Overhead, Quantity, TuningOptions, can_stall, default_packets,
    drops_bursts, elements_for, gain_of, is_above_a_second, is_short, opening_for, overhead_of,
    packets_of, params_for, rate_of, time_of, write_opening,
};
use std::io::Stderr;

/// Returns the number of the option `name`, which is of this kind, or `unnamed` if the option isn't given.
fn number_in(
    options: &ArgMatches<'_>,
    name: &str,
    kind: Quantity,
    unnamed: u64,
) -> Result<u64, OptionFault>
    ensures { result ≡ given_or (number_by kind) unnamed (first_of name.now (rows_of (found_of options.now))) }
{
    match text(options, name) {
        None => Ok(unnamed),
        Some(text) => match kind {
            Quantity::Rate => rate_of(text),
            Quantity::Packets => packets_of(text),
            _ => time_of(text),
        },
    }
}

/// Returns the overhead of the option `--overhead`, or none if it isn't given.
pub(crate) fn overhead_in(options: &ArgMatches<'_>) -> Result<Overhead, OptionFault>
    ensures { result ≡ given_or overhead_of (Overhead.Added 0) (first_of (codes "overhead") (rows_of (found_of options.now))) }
{
    match text(options, "overhead") {
        Some(text) => overhead_of(text),
        None => Ok(Overhead::Added(0)),
    }
}

/// Returns the link layer of this name, or Ethernet without a name. `adsl` is ATM, as for `tc`.
fn link_layer_by(name: Option<&str>) -> Option<LinkLayer>
    ensures { result ≡ link_layer_by (option_map (λ name. name.now) name.entry) }
{
    match name {
        None | Some("ethernet") => Some(LinkLayer::Ethernet),
        Some("atm" | "adsl") => Some(LinkLayer::Atm),
        Some(_) => None,
    }
}

/// Returns the options of `tc stab`. If a text is not valid, writes a line to `errors` and returns `None`.
fn layer_in(call: &Call<'_, '_>) -> Option<Layer>
    ensures requested { IfSome result (AsksForLayer (rows_of (found_of call.now.options.now))) }
    ensures none { result ≡ None → (layer : Layer) → AsksForLayer (rows_of (found_of call.now.options.now)) layer → ⊥ }
{
    let (options, errors) = (call.options, call.errors);
    let overhead = parsed(overhead_in(options), "--overhead", errors)?;
    let Some(format) = link_layer_by(text(options, "linklayer")) else {
        say(errors, &[Text("--linklayer must be ethernet, atm or adsl")]);
        report_nearest(call, "linklayer", &["ethernet", "atm", "adsl"]);
        return None;
    };
    Some(Layer {
        overhead,
        mpu: number_or(options, "mpu", 0, 65535, 0) as u16,
        format,
    })
}

/// Returns the values of all options. If a text is not a valid number of its kind or names no choice, writes a line
/// to `errors` and returns `None`.
fn tuning_in(call: &Call<'_, '_>) -> Option<TuningOptions>
    ensures requested { IfSome result (AsksFor (rows_of (found_of call.now.options.now))) }
    ensures none { result ≡ None → (asked : TuningOptions) → AsksFor (rows_of (found_of call.now.options.now)) asked → ⊥ }
{
    let (options, errors) = (call.options, call.errors);
    let rate = parsed(
        number_in(options, "rate", Quantity::Rate, 0),
        "--rate",
        errors,
    )?;
    let target = number_in(options, "target", Quantity::Time, 15_000_000);
    let target = parsed(target, "--target", errors)?;
    let t_update = number_in(options, "tupdate", Quantity::Time, 15_000_000);
    let t_update = parsed(t_update, "--tupdate", errors)?;
    let packets = number_in(options, "limit", Quantity::Packets, default_packets(rate));
    let packets = parsed(packets, "--limit", errors)?;
    let layer = layer_in(call)?;
    let Some(decay) = decay_of(options) else {
        say(errors, &[Text("--decay must be zero or half")]);
        report_nearest(call, "decay", &["zero", "half"]);
        return None;
    };
    Some(TuningOptions {
        rate,
        target,
        t_update,
        packets,
        alpha: gain_of(number_or(options, "alpha", 0, 32, 2)),
        beta: gain_of(number_or(options, "beta", 0, 32, 20)),
        ecn: flag(options, "ecn"),
        dq_rate_estimator: flag(options, "dq_rate_estimator"),
        bytemode: flag(options, "bytemode"),
        mtu: number_or(options, "mtu", 1, 65535, 1514) as u16,
        no_derandomization: flag(options, "no_derandomization"),
        no_cap_drop_adjustment: flag(options, "no_cap_drop_adjustment"),
        decay,
        layer,
    })
}

/// Warns of each gain that is rounded.
pub(crate) fn warn_rounded(options: &ArgMatches<'_>, errors: Stderr) {
    for name in ["alpha", "beta"] {
        if number(options, name).unwrap_or(0) % 2 == 1 {
            say_parts! { errors;
                Text("warning: "), Text(name), Text(" is rounded down to a whole number of thousandths per second")
            };
        }
    }
}

/// Warns if the queue is full before the delay reaches the target, if the chosen limit in packets is below a burst or above a
/// second, and if the estimator of the departure rate can stall.
fn warn(call: &Call<'_, '_>, asked: &TuningOptions, params: &RawParams) {
    let (limit, packets) = (Number(params.limit_bytes), Number(asked.packets));
    if is_short(asked.rate, params) {
        say_parts! { call.errors;
            Text("warning: limit_bytes ("), limit,
            Text(") is below rate x target: the queue is full before the delay reaches the target, and all losses are tail drops")
        };
    }
    let is_chosen = text(call.options, "limit").is_some();
    if is_chosen && drops_bursts(asked, params) {
        say_parts! { call.errors;
            Text("warning: limit ("), packets,
            Text(" packets) is below rate x (target + burst allowance) in packets of the MTU: bursts that the allowance admits fill the queue")
        };
    }
    if is_chosen && is_above_a_second(asked) {
        say_parts! { call.errors;
            Text("warning: limit ("), packets,
            Text(" packets) is above one second at the rate in packets of the MTU; limit_bytes ("), limit,
            Text(") limits the queue too")
        };
    }
    if can_stall(asked, params) {
        say_parts! { call.errors;
            Text("warning: dq_threshold ("), Number(params.dq_threshold),
            Text(") is above half of rate x target: the departure rate may not be measured for a long time")
        };
    }
}

/// Returns the opening of a book with the parameters of these options. Writes warnings to `errors`. If the options request
/// no such opening, writes a line to `errors` and returns `None`.
fn opening_in(call: &Call<'_, '_>) -> Option<Opening>
    ensures requested { IfSome result (IsRequested (rows_of (found_of call.now.options.now))) }
    ensures none { result ≡ None → RefusesParams (rows_of (found_of call.now.options.now)) }
{
    let asked = tuning_in(call)?;
    let params = match Params::check(params_for(&asked)) {
        Ok(params) => params,
        Err(why) => {
            say_text(call.errors, &[], why);
            return None;
        }
    };
    if asked.packets == 0 || u64::from(Limits::MAX_PACKETS) < asked.packets {
        say(call.errors, &[Text("--limit must be 1 to 1048576 packets")]);
        return None;
    }
    warn_rounded(call.options, call.errors);
    warn(call, &asked, &params.raw());
    Some(opening_for(asked.packets as u32, elements_for(&asked), params))
}

/// `pie params`: writes the record that opens a book with the parameters of these options.
pub(crate) fn params(call: &Call<'_, '_>, output: &mut Output) -> End {
    let Some(opening) = opening_in(call) else {
        return End::Failed;
    };
    match write_opening(&opening, output) {
        Ok(()) => End::Done,
        Err(_) => End::Fault(TraceFault::Write),
    }
}
