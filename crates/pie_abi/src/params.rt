//! The numbers of the parameters' fields, and their ranges.
ghost use Rattle.std.specs.Prelude.{◌≡◌};
ghost use Rattle.pie_abi.specs.Structs.{are_in_range, field_number};

use pie_params::{Field, Params, RawParams};

/// Returns the number of a field, counted from 1 in the order of the checks.
pub fn number(field: Field) -> u32
    ensures { result ≡ field_number field }
{
    match field {
        Field::Target => 1,
        Field::TUpdate => 2,
        Field::MaxBurst => 3,
        Field::Alpha => 4,
        Field::Beta => 5,
        Field::MeanPkt => 6,
        Field::LimitBytes => 7,
        Field::MarkEcnth => 8,
        Field::DqThreshold => 9,
    }
}

/// Returns true if all parameters are in their ranges.
#[inline(always)]
#[tactic(auto, unfolding(crate::specs::Structs::are_in_range))]
pub fn are_in_range(params: &RawParams) -> bool
    ensures { result ≡ are_in_range params.now }
{
    Params::from_raw(*params).is_some()
}
