//! The fields of records: their names and their contents.

use crate::diagnosis::keywords::Keywords;
use crate::diagnosis::table::U64;
use crate::diagnosis::text::Place;
use pie_record::Record;
use pie_record::field::{has_word, long_number_at};

/// A field with its name on docs/FORMATS.md, and its content.
#[derive(Clone, Copy)]
pub(crate) enum Field {
    /// A number, at most this.
    Number(&'static str, u128),
    /// A parameter: a number of 64 bits, which the rules accept from the least to the greatest.
    Parameter(&'static str, u128, u128),
    /// The parameter whose accepted numbers are powers of two.
    Threshold(&'static str),
    /// A number, at most this, or nothing.
    NumberOrNothing(&'static str, u128),
    /// A number of 64 bits of an open cycle: 0 if the field that comes so many places before it is 0.
    OfCycle(&'static str, usize),
    /// A keyword.
    Keyword(&'static str, Keywords),
}

/// The allowed contents of a field.
#[derive(Clone, Copy)]
pub(crate) enum Allowed {
    /// The numbers of this range.
    Range {
        /// The least number.
        least: u128,
        /// The greatest number.
        most: u128,
    },
    /// The numbers up to this, or nothing.
    RangeOrNothing(u128),
    /// One of these keywords.
    Keyword(Keywords),
    /// The powers of two from 1024 to 65536.
    Thresholds,
    /// No further packet.
    NoPacket,
    /// The kinds of records at this place.
    Kinds(Place),
}

impl Field {
    /// Returns the name.
    pub(crate) fn name(self) -> &'static str {
        match self {
            Field::Number(name, _)
            | Field::Parameter(name, _, _)
            | Field::Threshold(name)
            | Field::NumberOrNothing(name, _)
            | Field::OfCycle(name, _)
            | Field::Keyword(name, _) => name,
        }
    }

    /// Returns the allowed contents of the field at `place` of the record.
    pub(crate) fn allowed(self, row: &Record, place: usize) -> Allowed {
        match self {
            Field::Number(_, most) => Allowed::Range { least: 0, most },
            Field::Parameter(..) | Field::Threshold(_) => Allowed::Range {
                least: 0,
                most: U64,
            },
            Field::NumberOrNothing(_, most) => Allowed::RangeOrNothing(most),
            Field::OfCycle(_, back) if has_word(row, place.saturating_sub(back), b"0") =>
                Allowed::Range { least: 0, most: 0 },
            Field::OfCycle(_, _) => Allowed::Range {
                least: 0,
                most: U64,
            },
            Field::Keyword(_, words) => Allowed::Keyword(words),
        }
    }

    /// Returns the numbers that the rules accept, if the field is a parameter.
    pub(crate) fn accepted(self) -> Option<Allowed> {
        match self {
            Field::Parameter(_, least, most) => Some(Allowed::Range { least, most }),
            Field::Threshold(_) => Some(Allowed::Thresholds),
            _ => None,
        }
    }
}

impl Allowed {
    /// Returns true if the field at `place` of the record is allowed.
    pub(crate) fn accepts(self, row: &Record, place: usize) -> bool {
        match self {
            Allowed::Range { least, most } => match long_number_at(row, place, most) {
                Ok(number) => least <= number,
                Err(_) => false,
            },
            Allowed::RangeOrNothing(most) => {
                has_word(row, place, b"") || long_number_at(row, place, most).is_ok()
            }
            Allowed::Keyword(words) => words.has(row, place),
            Allowed::Thresholds => match long_number_at(row, place, 65536) {
                Ok(number) => number >= 1024 && number.is_power_of_two(),
                Err(_) => false,
            },
            Allowed::NoPacket | Allowed::Kinds(_) => false,
        }
    }
}
