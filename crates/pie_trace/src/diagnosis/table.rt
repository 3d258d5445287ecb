//! The table of records (docs/FORMATS.md): each form of a record with its place in a text, its kind and its fields.
//!
//! The cause of a fault, the lists of kinds and the numbers of fields in a message follow from this table.

use crate::diagnosis::field::Field;
use crate::diagnosis::keywords::Keywords;
use crate::diagnosis::text::{Place, TextKind};
use pie_record::Version;
use pie_record::words::Kind;

/// Fields in parts.
pub(crate) type Parts = &'static [&'static [Field]];

const U16: u128 = 65535;

const U32: u128 = 4_294_967_295;

pub(crate) const U64: u128 = 18_446_744_073_709_551_615;

const U128: u128 = 340_282_366_920_938_463_463_374_607_431_768_211_455;

const MAX_MOMENT: u128 = 1_152_921_504_606_846_975;

const MOMENT: Field = Field::Number("moment", U64);

const COUNT: Field = Field::Number("count", U64);

const BYTES: Field = Field::Number("bytes", U64);

const PROB: Field = Field::Number("prob", U64);

const BURST: Field = Field::Number("burst", U64);

const CALL: [Field; 2] = [Field::Number("caller", U16), MOMENT];

const PACKET: [Field; 3] = [
    Field::Number("tag", U64),
    Field::Number("size", U32),
    Field::Keyword("ecn", Keywords::Ecn),
];

const WORD: [Field; 1] = [Field::Number("word", U64)];

const SINCE: [Field; 1] = [Field::Number("since", U64)];

const FOLD: [Field; 1] = [Field::Number("n", U64)];

const CLOCK: [Field; 2] = [
    Field::Number("moment", MAX_MOMENT),
    Field::Number("unix", U64),
];

pub(crate) const NINE: [Field; 9] = [
    Field::Parameter("target", 2, 10_000_000_000),
    Field::Parameter("t_update", 1, 10_000_000_000),
    Field::Parameter("max_burst", 0, 1_000_000_000_000),
    Field::Parameter("alpha", 0, 1_000_000),
    Field::Parameter("beta", 0, 1_000_000),
    Field::Parameter("mean_pkt", 1, 65535),
    Field::Parameter("limit_bytes", 1, 1 << 30),
    Field::Parameter("mark_ecnth", 0, 1_000_000_000_000),
    Field::Threshold("dq_threshold"),
];

const VERDICT: [Field; 1] = [Field::Keyword("verdict", Keywords::Verdict)];

const EMPTY: [Field; 1] = [Field::Keyword("answer", Keywords::Empty)];

const LEFT: [Field; 1] = [Field::Keyword("answer", Keywords::Left)];

const DONE: [Field; 1] = [Field::Keyword("answer", Keywords::Done)];

const UPDATED: [Field; 3] = [Field::Number("delay", U64), PROB, BURST];

const REFUSED: [Field; 2] = [Field::Number("record", U64), Field::Number("code", U64)];

const QUEUE: [Field; 4] = [COUNT, MOMENT, Field::Number("packets", U32), BYTES];

const CONTROL: [Field; 7] = [
    PROB,
    Field::Number("old", U64),
    Field::Number("accu", U64),
    BURST,
    Field::Number("last", U64),
    Field::Number("average", U64),
    Field::Number("measuring", 1),
];

const ACTIVE: [Field; 1] = [Field::Number("active", 1)];

const STATISTICS: [Field; 15] = [
    Field::Number("arrivals", U64),
    Field::Number("enqueued", U64),
    Field::Number("marked", U64),
    Field::Number("early", U64),
    Field::Number("over_bytes", U64),
    Field::Number("over_packets", U64),
    Field::Number("left", U64),
    Field::Number("left_bytes", U64),
    Field::Number("empty", U64),
    Field::Number("updates", U64),
    Field::Number("resets", U64),
    Field::Number("changes", U64),
    Field::Number("largest_queue", U64),
    Field::Number("largest_delay", U64),
    Field::Number("waited", U128),
];

const OPENED: [Field; 4] = [
    MOMENT,
    Field::Number("packets", U32),
    Field::Number("tail", U32),
    Field::Number("events", U64),
];

const PROFILE: [Field; 1] = [Field::Keyword("profile", Keywords::Profile)];

const ELEMENTS: [Field; 4] = [
    Field::Keyword("delay", Keywords::Delay),
    Field::Keyword("picking", Keywords::Picking),
    Field::Keyword("step", Keywords::Step),
    Field::Keyword("size", Keywords::Size),
];

const DECAY: [Field; 1] = [Field::Keyword("decay", Keywords::Decay)];

const MODE: [Field; 1] = [Field::Keyword("mode", Keywords::Mode)];

const STATE: [Field; 5] = [
    COUNT,
    Field::NumberOrNothing("set_by", U64),
    Field::Number("packets", U64),
    BYTES,
    MOMENT,
];

const CYCLE: [Field; 3] = [
    Field::OfCycle("start", 1),
    Field::OfCycle("counted", 2),
    Field::Number("last_wait", U64),
];

/// A form of a record: the texts that can have it, its kind, and its fields after the kind.
#[derive(Clone, Copy)]
pub(crate) enum Form {
    /// The first record of any text.
    First(Kind, Parts),
    /// The first record of an excerpt.
    Resume(Parts),
    /// A packet of a preamble.
    Queued(Parts),
    /// A later record of a trace.
    Trace(Kind, Parts),
    /// A later record of a history.
    History(Kind, Parts),
    /// A later record of a history of version one.
    HistoryOfOne(Kind, Parts),
    /// A later record of a history of a later version.
    HistoryFromTwo(Kind, Parts),
    /// A later record of any text of version three.
    FromThree(Kind, Parts),
}

/// All forms. Forms of one kind are in the order of their numbers of fields.
pub(crate) static FORMS: [Form; 33] = [
    Form::First(Kind::Open, &[&OPENED]),
    Form::First(Kind::Open, &[&OPENED, &NINE]),
    Form::First(Kind::Rolling, &[&OPENED]),
    Form::First(Kind::Rolling, &[&OPENED, &NINE]),
    Form::First(Kind::Open2, &[&PROFILE, &MODE, &OPENED]),
    Form::First(Kind::Open2, &[&PROFILE, &MODE, &OPENED, &NINE]),
    Form::First(Kind::Open3, &[&PROFILE, &ELEMENTS, &MODE, &OPENED]),
    Form::First(Kind::Open3, &[&PROFILE, &ELEMENTS, &DECAY, &MODE, &OPENED]),
    Form::First(Kind::Open3, &[&PROFILE, &ELEMENTS, &MODE, &OPENED, &NINE]),
    Form::First(
        Kind::Open3,
        &[&PROFILE, &ELEMENTS, &DECAY, &MODE, &OPENED, &NINE],
    ),
    Form::Resume(&[
        &PROFILE,
        &ELEMENTS,
        &MODE,
        &OPENED,
        &NINE,
        &NINE,
        &STATE,
        &CONTROL,
        &CYCLE,
        &ACTIVE,
        &STATISTICS,
    ]),
    Form::Resume(&[
        &PROFILE,
        &ELEMENTS,
        &DECAY,
        &MODE,
        &OPENED,
        &NINE,
        &NINE,
        &STATE,
        &CONTROL,
        &CYCLE,
        &ACTIVE,
        &STATISTICS,
    ]),
    Form::Queued(&[&PACKET, &SINCE]),
    Form::Trace(Kind::Arrive, &[&CALL, &PACKET, &WORD]),
    Form::Trace(Kind::Depart, &[&CALL]),
    Form::Trace(Kind::Update, &[&CALL]),
    Form::Trace(Kind::Reset, &[&CALL]),
    Form::Trace(Kind::Params, &[&CALL, &NINE]),
    Form::Trace(Kind::Fold, &[&FOLD]),
    Form::Trace(Kind::Show, &[]),
    Form::Trace(Kind::Tally, &[]),
    Form::History(Kind::Arrive, &[&CALL, &PACKET, &WORD, &VERDICT]),
    Form::History(Kind::Depart, &[&CALL, &EMPTY]),
    Form::History(Kind::Depart, &[&CALL, &LEFT, &PACKET]),
    Form::History(Kind::Update, &[&CALL, &UPDATED]),
    Form::History(Kind::Reset, &[&CALL, &DONE]),
    Form::History(Kind::Params, &[&CALL, &NINE, &DONE]),
    Form::History(Kind::Refused, &[&REFUSED]),
    Form::History(Kind::Folded, &[&FOLD]),
    Form::HistoryOfOne(Kind::Shown, &[&QUEUE, &CONTROL]),
    Form::HistoryFromTwo(Kind::Shown, &[&QUEUE, &CONTROL, &ACTIVE]),
    Form::History(Kind::Tallied, &[&STATISTICS]),
    Form::FromThree(Kind::Clock, &[&CLOCK]),
];

/// A form at its place in a text.
#[derive(Clone, Copy)]
pub(crate) struct Shape {
    /// The keyword of the kind.
    pub(crate) kind: &'static [u8],
    /// The fields after the kind.
    pub(crate) parts: Parts,
}

impl Form {
    /// Returns the shape of the form, if a record at this place can have it.
    pub(crate) fn at(self, place: Place) -> Option<Shape> {
        let (kind, parts): (&'static [u8], Parts) = match (self, place) {
            (Form::Resume(_), Place::First(TextKind::WholeHistory)) => return None,
            (Form::Resume(parts), Place::First(_)) => (b"resume", parts),
            (Form::Queued(parts), Place::Preamble) => (b"queued", parts),
            (Form::First(kind, parts), Place::First(_))
            | (Form::Trace(kind, parts), Place::Later(TextKind::Trace, _))
            | (Form::FromThree(kind, parts), Place::Later(_, Version::Three)) => (
                kind.word(),
                parts,
            ),
            (_, Place::Later(TextKind::Trace, _)) => return None,
            (Form::History(kind, parts), Place::Later(_, _))
            | (Form::HistoryOfOne(kind, parts), Place::Later(_, Version::One))
            | (Form::HistoryFromTwo(kind, parts), Place::Later(_, Version::Two | Version::Three)) =>
                (kind.word(), parts),
            _ => return None,
        };
        Some(Shape { kind, parts })
    }
}

/// Returns the name of the field at `place` of a `resume` record, as on docs/FORMATS.md. Some of these records have the
/// field `decay`. The field at place 0 is the kind.
pub fn resume_field_name(has_decay: bool, place: usize) -> &'static str {
    let count = if has_decay { 61 } else { 60 };
    name_in(Place::First(TextKind::History), count, place)
}

/// Returns the name of the field at `place` of a `queued` record.
pub fn queued_field_name(place: usize) -> &'static str {
    name_in(Place::Preamble, 5, place)
}

/// Returns the name of the field at `place` of a record with `count` fields. An empty text if there is none.
fn name_in(text: Place, count: usize, place: usize) -> &'static str {
    for number in 0..FORMS.len() {
        match FORMS[number].at(text) {
            Some(shape) if shape.len() == count => {
                return match shape.field(place) {
                    Some(field) => field.name(),
                    None => "",
                };
            }
            _ => {}
        }
    }
    ""
}

impl Shape {
    /// Returns the number of fields, the kind among them.
    pub(crate) fn len(self) -> usize {
        let mut count = 1;
        for number in 0..self.parts.len() {
            count = self.parts[number].len().saturating_add(count);
        }
        count
    }

    /// Returns the field at `place` of a record, counted from 0. `None` for the kind, and after the last field.
    pub(crate) fn field(self, place: usize) -> Option<Field> {
        let mut left = place.checked_sub(1)?;
        for number in 0..self.parts.len() {
            let part = self.parts[number];
            match part.get(left) {
                Some(field) => return Some(*field),
                None => left = left.saturating_sub(part.len()),
            }
        }
        None
    }
}
