//! The nine parameters as plain numbers, and the names of their fields.
ghost use Rattle.std.specs.Prelude.{◌≡◌, is_none};

use std::fmt;
use thiserror::Error;

/// Parameters that are not yet checked.
#[repr(C)]
#[derive(Clone, Copy, Debug, PartialEq, Eq)]
pub struct RawParams {
    /// The reference queueing delay, in nanoseconds, 2 to 10^10 (RFC 8033, section 4.2).
    pub target: u64,
    /// The time between two updates, in nanoseconds, 1 to 10^10 (RFC 8033, section 4.2).
    pub t_update: u64,
    /// The burst allowance, in nanoseconds, 0 to 10^12 (RFC 8033, section 4.4).
    pub max_burst: u64,
    /// The gain on the difference between delay and target, in thousandths per second, 0 to 10^6 (RFC 8033, section
    /// 4.2).
    pub alpha: u64,
    /// The gain on the change of the delay, in thousandths per second, 0 to 10^6 (RFC 8033, section 4.2).
    pub beta: u64,
    /// The mean packet size, in bytes, 1 to 65535 (RFC 8033, section 4.1).
    pub mean_pkt: u64,
    /// The queue's limit, in bytes, 1 to 2^30 (RFC 8033, section 4.1).
    pub limit_bytes: u64,
    /// The probability from which on a picked packet is dropped instead of marked, in units of `10^-12`, 0 to 10^12
    /// (RFC 8033, section 5.1).
    pub mark_ecnth: u64,
    /// The number of bytes that a cycle of the departure rate counts, a power of two from 1024 to 65536 (RFC 8033,
    /// section 5.2).
    pub dq_threshold: u64,
}

/// A field of the parameters.
#[derive(Clone, Copy, Debug, PartialEq, Eq)]
pub enum Field {
    /// `target`.
    Target,
    /// `t_update`.
    TUpdate,
    /// `max_burst`.
    MaxBurst,
    /// `alpha`.
    Alpha,
    /// `beta`.
    Beta,
    /// `mean_pkt`.
    MeanPkt,
    /// `limit_bytes`.
    LimitBytes,
    /// `mark_ecnth`.
    MarkEcnth,
    /// `dq_threshold`.
    DqThreshold,
}

/// The fields, in the order of the checks.
const FIELDS: [Field; 9] = [
    Field::Target,
    Field::TUpdate,
    Field::MaxBurst,
    Field::Alpha,
    Field::Beta,
    Field::MeanPkt,
    Field::LimitBytes,
    Field::MarkEcnth,
    Field::DqThreshold,
];

/// The first parameter that is out of its range.
#[derive(Clone, Copy, Debug, PartialEq, Eq, Error)]
#[error("the parameter {0} is out of its range")]
pub struct BadParam(pub Field);

impl fmt::Display for Field {
    ghost use Rattle.std.specs.Prelude.{Some};
    ghost use Rattle.pie_params.specs.Params.{field_name};

    ghost output = { λ field. Some (field_name field) };

    fn fmt<W: fmt::Write>(&self, f: &mut fmt::Formatter<W>) -> fmt::Result {
        f.write_str(match self {
            Field::Target => "target",
            Field::TUpdate => "t_update",
            Field::MaxBurst => "max_burst",
            Field::Alpha => "alpha",
            Field::Beta => "beta",
            Field::MeanPkt => "mean_pkt",
            Field::LimitBytes => "limit_bytes",
            Field::MarkEcnth => "mark_ecnth",
            Field::DqThreshold => "dq_threshold",
        })
    }
}

impl RawParams {
    ghost use Rattle.pie_params.specs.Params.{first_bad, is_in_range};

    /// Returns true if the field `field` is in its range.
    fn is_in_range(self, field: Field) -> bool
        ensures { result ≡ is_in_range self field }
    {
        match field {
            Field::Target => 2 <= self.target && self.target <= 10_000_000_000,
            Field::TUpdate => 1 <= self.t_update && self.t_update <= 10_000_000_000,
            Field::MaxBurst => self.max_burst <= 1_000_000_000_000,
            Field::Alpha => self.alpha <= 1_000_000,
            Field::Beta => self.beta <= 1_000_000,
            Field::MeanPkt => 1 <= self.mean_pkt && self.mean_pkt <= 65535,
            Field::LimitBytes => 1 <= self.limit_bytes && self.limit_bytes <= 1 << 30,
            Field::MarkEcnth => self.mark_ecnth <= pie_fixed::ONE,
            Field::DqThreshold => matches!(
                self.dq_threshold,
                1024 | 2048 | 4096 | 8192 | 16384 | 32768 | 65536
            ),
        }
    }

    /// Returns true if each field is in its range, by one comparison after another. Equivalent to `first_bad` returning
    /// `None`.
    #[inline(always)]
    pub(crate) fn are_in_range(self) -> bool
        ensures { result ≡ is_none (first_bad self) }
    {
        self.is_in_range(Field::Target)
            && self.is_in_range(Field::TUpdate)
            && self.is_in_range(Field::MaxBurst)
            && self.is_in_range(Field::Alpha)
            && self.is_in_range(Field::Beta)
            && self.is_in_range(Field::MeanPkt)
            && self.is_in_range(Field::LimitBytes)
            && self.is_in_range(Field::MarkEcnth)
            && self.is_in_range(Field::DqThreshold)
    }

    /// Returns the first field that is out of its range, in the order of [`FIELDS`].
    pub(crate) fn first_bad(self) -> Option<Field>
        ensures { result ≡ first_bad self }
    {
        FIELDS
            .iter()
            .copied()
            .find(|&field| !self.is_in_range(field))
    }
}
