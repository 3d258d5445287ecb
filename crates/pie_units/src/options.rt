//! Options of `tc` (`TuningOptions`), with their parameters and optional elements.
//! Numbers of `tc`'s options, with units: `20ms`, `100mbit`, `1000p`.
//! The first record of a history, from parameters and choices.
ghost use Rattle.std.specs.Prelude.{◌≡◌, ◌≤◌, ◌*◌, nat_lt, OnOk};
ghost use Rattle.pie_units.specs.Opening.{can_stall, default_packets, drops_bursts, elements_for, gain_of, is_above_a_second, params_for, opening_for};
ghost use Rattle.pie_units.specs.Number.{packets_of, rate_of, time_of, option_number};
ghost use Rattle.std.specs.Io.KnownBytes.{Appends};
ghost use Rattle.pie_record.specs.Text.{text_of};
ghost use Rattle.pie_record.specs.Write.{opening_row};

use crate::layer::{Layer, size_on_link};
use crate::number::{Quantity, UnitFault, read};
use pie_event::{Choices, Limits, Mode, Opening, Profile};
use pie_params::{Decay, Delay, Elements, Params, Picking, RawParams, Size, Step};
use pie_record::{RowBuffer, put_opening};
use std::io::Write;
use std::{fmt, io};
use thiserror::Error;

/// The options of a queue.
#[derive(Clone, Copy)]
pub struct TuningOptions {
    /// The link's rate, in bits per second; 0 if it is unknown.
    pub rate: u64,
    /// The reference queueing delay, in nanoseconds.
    pub target: u64,
    /// The time between two updates, in nanoseconds.
    pub t_update: u64,
    /// The greatest number of waiting packets.
    pub packets: u64,
    /// The gain alpha, in thousandths per second.
    pub alpha: u64,
    /// The gain beta, in thousandths per second.
    pub beta: u64,
    /// True if packets of ECN-capable endpoints are marked.
    pub ecn: bool,
    /// True if delays come from the departure rate (RFC 8033, section 5.2), false if they come from time stamps
    /// (section 4.3).
    pub dq_rate_estimator: bool,
    /// True if smaller packets have a smaller probability.
    pub bytemode: bool,
    /// The link's MTU, in bytes. In `bytemode` a packet's probability is in proportion to its size over the MTU.
    pub mtu: u16,
    /// True if the random word alone picks packets, without de-randomization (RFC 8033, section 5.4).
    pub no_derandomization: bool,
    /// True if the rise of the probability in an update has no cap (RFC 8033, section 5.5).
    pub no_cap_drop_adjustment: bool,
    /// The delays at which the probability decays.
    pub decay: Decay,
    /// The link layer, which determines the sizes of packets on the link.
    pub layer: Layer,
}

/// Converts a gain of `tc`, in sixteenths per second, to thousandths per second, rounded down.
pub fn gain_of(gain: u64) -> u64
    requires { gain ≤ 32 }
    ensures { result ≡ gain_of gain }
{
    gain * 1000 / 16
}

/// Returns the optional elements of RFC 8033 for these options, as in `tc` and ns-3.
pub fn elements_for(tuning: &TuningOptions) -> Elements
    ensures { result ≡ elements_for tuning.now }
{
    Elements {
        delay: if tuning.dq_rate_estimator {
            Delay::Rate
        } else {
            Delay::Stamp
        },
        picking: if tuning.no_derandomization {
            Picking::Random
        } else {
            Picking::Derandomized
        },
        step: if tuning.no_cap_drop_adjustment {
            Step::Uncapped
        } else {
            Step::Capped
        },
        size: if tuning.bytemode {
            Size::Scaled
        } else {
            Size::Unscaled
        },
        decay: tuning.decay,
    }
}

/// Returns the nine parameters for these options. Parameters without an option of `tc` are the defaults at the link's
/// rate, except `mean_pkt`: the size on the link of a packet of the default mean size, or of the MTU in `bytemode`.
/// Packets are marked up to the default threshold, or never.
pub fn params_for(tuning: &TuningOptions) -> RawParams
    ensures { result ≡ params_for tuning.now }
{
    let usual = Params::for_rate(tuning.rate).raw();
    let mean_pkt = if tuning.bytemode {
        u64::from(tuning.mtu)
    } else {
        usual.mean_pkt
    };
    RawParams {
        target: tuning.target,
        t_update: tuning.t_update,
        alpha: tuning.alpha,
        beta: tuning.beta,
        mean_pkt: size_on_link(tuning.layer, mean_pkt),
        mark_ecnth: if tuning.ecn { usual.mark_ecnth } else { 0 },
        ..usual
    }
}

/// Returns the limit in packets that has no option. If `rate` is 0, it is unknown, and the limit is 1000 packets, as for
/// `tc`. Otherwise the limit is as many packets of 64 bytes as `limit_bytes` at this rate contains, at most 2^20.
pub fn default_packets(rate: u64) -> u64
    ensures { result ≡ default_packets rate }
{
    if rate == 0 {
        1000
    } else {
        (Params::for_rate(rate).raw().limit_bytes / 64).min(1 << 20)
    }
}

/// Returns true if the limit in packets of the MTU leaves at the link's rate in less than the target and the burst
/// allowance together. Then a burst that the allowance admits fills the queue.
pub fn drops_bursts(tuning: &TuningOptions, params: &RawParams) -> bool
    ensures { result ≡ drops_bursts tuning.now params.now }
{
    let longest = params.target.saturating_add(params.max_burst);
    let wanted = u128::from(tuning.rate) * u128::from(longest);
    u128::from(tuning.packets) * u128::from(tuning.mtu) * 8_000_000_000 < wanted
}

/// Returns true if the rate is known and the limit in packets of the MTU takes more than a second at this rate.
pub fn is_above_a_second(tuning: &TuningOptions) -> bool
    ensures { result ≡ is_above_a_second tuning.now }
{
    let bits = u128::from(tuning.packets) * u128::from(tuning.mtu) * 8;
    tuning.rate != 0 && u128::from(tuning.rate) < bits
}

/// Returns true if `limit_bytes` bytes leave in less than the target at `rate` bits per second. Then the queue is full
/// before its delay reaches the target, and all losses are tail drops.
pub fn is_short(rate: u64, params: &RawParams) -> bool
    ensures { result ≡ nat_lt (params.now.limit_bytes * 8_000_000_000) (rate * params.now.target) }
{
    let wanted = u128::from(rate) * u128::from(params.target);
    u128::from(params.limit_bytes) * 8_000_000_000 < wanted
}

/// Returns true if the estimator of the departure rate is chosen and can stall at this rate: `dq_threshold` is above
/// half of the bytes in the queue at the target. Then a long time can pass without a cycle, and the estimate does not
/// change (RFC 8033, section 5.2).
pub fn can_stall(tuning: &TuningOptions, params: &RawParams) -> bool
    ensures { result ≡ can_stall tuning.now params.now }
{
    let wanted = u128::from(tuning.rate) * u128::from(params.target);
    tuning.dq_rate_estimator
        && tuning.rate != 0
        && wanted < u128::from(params.dq_threshold) * 16_000_000_000
}

/// The reason why the text of an option is not a number of its kind. Its message follows the option's name.
#[derive(Clone, Copy, Debug, PartialEq, Eq, Error)]
pub enum OptionFault {
    /// The text is not a number of this kind.
    Unread(Quantity, UnitFault),
    /// The rate is 0.
    NoRate,
    /// The text is not a whole number from -65535 to 65535.
    NotBytes,
}

impl OptionFault {
    /// Returns the message of the fault.
    fn text(self) -> &'static str {
        match self {
            OptionFault::Unread(Quantity::Time, UnitFault::NotANumber) =>
                "must be a number with ns, us, ms or s, such as 20ms",
            OptionFault::Unread(Quantity::Rate, UnitFault::NotANumber) =>
                "must be a number with bit, kbit, mbit, gbit or tbit, or with bps, kbps and so on, such as 100mbit",
            OptionFault::Unread(_, UnitFault::NotANumber) =>
                "must be a number of packets, such as 1000p",
            OptionFault::Unread(Quantity::Time, UnitFault::TooPrecise) =>
                "must be a whole number of nanoseconds",
            OptionFault::Unread(Quantity::Rate, UnitFault::TooPrecise) =>
                "must be a whole number of bits per second",
            OptionFault::Unread(_, UnitFault::TooPrecise) => "must be a whole number of packets",
            OptionFault::Unread(_, UnitFault::TooGreat) =>
                "must be at most 1152921504606846975 nanoseconds, bits per second or packets",
            OptionFault::NoRate => "must be at least 1bit",
            OptionFault::NotBytes => "must be a whole number of bytes, -65535 to 65535",
        }
    }
}

impl fmt::Display for OptionFault {
    fn fmt<W: fmt::Write>(&self, f: &mut fmt::Formatter<W>) -> fmt::Result {
        f.write_str(self.text())
    }
}

/// Parses a number of this kind.
fn option_number(kind: Quantity, text: &str) -> Result<u64, OptionFault>
    ensures { result ≡ option_number kind text.now }
{
    match read(kind, text.as_bytes()) {
        Ok(number) => Ok(number),
        Err(why) => Err(OptionFault::Unread(kind, why)),
    }
}

/// Parses a time such as `20ms` or `1.5ms`, in nanoseconds, at most 2^60 - 1.
///
/// # Errors
///
/// Returns `Unread` with the fault of `read`.
pub fn time_of(text: &str) -> Result<u64, OptionFault>
    ensures { result ≡ time_of text.now }
{
    option_number(Quantity::Time, text)
}

/// Parses a rate such as `100mbit`, in bits per second, 1 to 2^60 - 1.
///
/// # Errors
///
/// Returns `Unread` with the fault of `read`, or `NoRate` if the rate is 0.
pub fn rate_of(text: &str) -> Result<u64, OptionFault>
    ensures { result ≡ rate_of text.now }
{
    match option_number(Quantity::Rate, text) {
        Ok(0) => Err(OptionFault::NoRate),
        rate => rate,
    }
}

/// Parses a number of packets such as `1000p` or `1000`, at most 2^60 - 1.
///
/// # Errors
///
/// Returns `Unread` with the fault of `read`.
pub fn packets_of(text: &str) -> Result<u64, OptionFault>
    ensures { result ≡ packets_of text.now }
{
    option_number(Quantity::Packets, text)
}

/// Returns the opening of a rolling book of profile one at moment 0 with these parameters and elements. Its ring and
/// its event log hold `packets` packets and events. The number of events is limited only by the greatest limit.
pub fn opening_for(packets: u32, elements: Elements, params: Params) -> Opening
    ensures { result ≡ opening_for packets elements params }
{
    let limits = Limits {
        packets,
        tail: packets,
        events: Limits::MAX_EVENTS,
    };
    let choices = Choices {
        mode: Mode::Rolling,
        profile: Profile::One,
        elements,
    };
    Opening {
        moment: 0,
        limits,
        params,
        choices,
    }
}

/// Writes the record of an opening, as the first of a history, and flushes the writer.
///
/// # Errors
///
/// Returns the error of the writer.
pub fn write_opening<W: Write>(opening: &Opening, output: &mut W) -> io::Result<()>
    ensures { OnOk result (Appends (W.contents output.old) (W.contents output.new) (text_of (opening_row opening.now))) }
{
    let mut row = RowBuffer::new();
    put_opening(&mut row, opening);
    output.write_all(row.as_bytes())?;
    output.flush()
}
