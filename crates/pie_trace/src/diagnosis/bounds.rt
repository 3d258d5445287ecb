//! The bounds that connect numbers of openings and of preambles (docs/FORMATS.md, "Checks of a preamble").
//!
//! The bounds are in the order in which readers check them, so the first violated one is the cause of the fault. If the
//! number that it allows violates another bound, and another field has a number that violates none, that field is the cause.

use crate::diagnosis::field::Allowed;
use crate::diagnosis::table::{NINE, Shape};
use crate::diagnosis::walk::{FieldCause, Problem};
use pie_record::Record;
use pie_record::field::{has_word, is_kind, long_number_at};
use pie_record::words::Kind;

/// The greatest moment, in nanoseconds.
const MAX_MOMENT: u128 = (1 << 60) - 1;

/// The statistics that count events, and the most that each of them is for one event.
const COUNTS: [(&str, u128); 13] = [
    ("arrivals", 1),
    ("enqueued", 1),
    ("marked", 1),
    ("early", 1),
    ("over_bytes", 1),
    ("over_packets", 1),
    ("left", 1),
    ("left_bytes", 65535),
    ("empty", 1),
    ("updates", 1),
    ("resets", 1),
    ("changes", 1),
    ("waited", 1 << 60),
];

/// The statistics whose sum is the number of events.
const EVENTS: &[&str] = &["arrivals", "left", "empty", "updates", "resets", "changes"];

/// The statistics whose sum is the number of packets that were queued.
const QUEUED: &[&str] = &["enqueued", "marked"];

/// The statistics whose sum is the number of packets that were dropped.
const DROPPED: &[&str] = &["early", "over_bytes", "over_packets"];

/// The sums: the numbers on both sides of each equation.
const SUMS: [(&[&str], &[&str]); 3] = [
    (&["count"], EVENTS),
    (
        &["arrivals"],
        &["enqueued", "marked", "early", "over_bytes", "over_packets"],
    ),
    (&["packets", "left"], QUEUED),
];

/// Numbers that another number of the state bounds: true for a number of the opening, its name, the other number, and the
/// greatest number if the other one is the least; 0 if the other one is the greatest.
const BOUNDS: [(bool, &str, &str, u128); 6] = [
    (true, "moment", "moment", 0),
    (true, "packets", "packets", 1 << 20),
    (true, "events", "count", 1 << 47),
    (false, "moment", "last", MAX_MOMENT),
    (false, "moment", "start", MAX_MOMENT),
    (false, "old", "largest_delay", 0),
];

/// The numbers of a record by their names, and the first of them that is out of its bounds.
#[derive(Clone, Copy)]
pub(crate) struct Numbers<'a> {
    row: &'a Record,
    shape: Shape,
    /// The first place of the search for a name.
    from: usize,
    /// A place with a number that replaces the number of its field.
    replaced: Option<(usize, u128)>,
    /// The first number that is out of its bounds.
    pub(crate) problem: Option<Problem>,
}

impl<'a> Numbers<'a> {
    /// Begins before the first field.
    pub(crate) fn new(row: &'a Record, shape: Shape) -> Numbers<'a> {
        Numbers {
            row,
            shape,
            from: 1,
            replaced: None,
            problem: None,
        }
    }

    /// Returns the first place with this name.
    fn place(&self, name: &str) -> Option<usize> {
        for place in self.from..self.row.len() {
            if self.shape.field(place)?.name() == name {
                return Some(place);
            }
        }
        None
    }

    /// Searches further names from the first place with this name on.
    pub(crate) fn go_to(&mut self, name: &str) {
        if let Some(place) = self.place(name) {
            self.from = place;
        }
    }

    /// Returns the number of this name; 0 if the record has none.
    pub(crate) fn number(&self, name: &str) -> u128 {
        match self.place(name) {
            Some(place) => self.number_in(place),
            None => 0,
        }
    }

    /// Returns the number at this place.
    fn number_in(&self, place: usize) -> u128 {
        match self.replaced {
            Some((replaced, number)) if replaced == place => number,
            _ => long_number_at(self.row, place, u128::MAX).unwrap_or(0),
        }
    }

    /// Returns true if these contents are allowed at this place.
    fn accepts(&self, place: usize, allowed: Allowed) -> bool {
        match (self.replaced, allowed) {
            (Some((replaced, number)), Allowed::Range { least, most }) if replaced == place => least
                <= number
                && number <= most,
            _ => allowed.accepts(self.row, place),
        }
    }

    /// Returns the sum of the numbers of these names.
    fn sum(&self, names: &[&str]) -> u128 {
        let mut sum: u128 = 0;
        for number in 0..names.len() {
            sum = sum.saturating_add(self.number(names[number]));
        }
        sum
    }

    /// Returns true if the field of this name is this keyword.
    fn is(&self, name: &str, word: &[u8]) -> bool {
        match self.place(name) {
            Some(place) => has_word(self.row, place, word),
            None => false,
        }
    }

    /// Allows these contents in the field of this name, if the record has one.
    pub(crate) fn allow(&mut self, name: &'static str, allowed: Allowed) {
        match self.place(name) {
            Some(place) if self.problem.is_none() && !self.accepts(place, allowed) => {
                self.problem = Some(Problem::of_field(self.row, place, name, allowed));
            }
            _ => {}
        }
    }

    /// Allows the numbers from `least` to `most` in the field of this name.
    pub(crate) fn range(&mut self, name: &'static str, least: u128, most: u128) {
        self.allow(name, Allowed::Range { least, most });
    }

    /// Allows the numbers up to `most`.
    fn up_to(&mut self, name: &'static str, most: u128) {
        self.range(name, 0, most);
    }

    /// Allows one number.
    pub(crate) fn only(&mut self, name: &'static str, number: u128) {
        self.range(name, number, number);
    }

    /// Checks the nine parameters.
    fn check_parameters(&mut self) {
        for number in 0..NINE.len() {
            if let Some(allowed) = NINE[number].accepted() {
                self.allow(NINE[number].name(), allowed);
            }
        }
    }

    /// Checks an opening, which allows greater limits in version three.
    pub(crate) fn check_opening(&mut self, is_of_version_three: bool) {
        let (packets, events) = if is_of_version_three {
            (1 << 20, 1 << 47)
        } else {
            (65536, 1 << 40)
        };
        self.check_parameters();
        self.range("packets", 1, packets);
        self.range("tail", 1, 1 << 20);
        self.range("events", 1, events);
        self.up_to("moment", MAX_MOMENT);
    }

    /// Checks a `resume` record.
    pub(crate) fn check_resume(&mut self) {
        let opened = *self;
        self.check_placed(opened);
        self.check_opening(true);
        self.go_to("dq_threshold");
        let in_force = self.from.saturating_add(1);
        self.go_to("count");
        self.up_to("count", opened.number("events"));
        self.up_to("packets", opened.number("packets"));
        self.up_to("bytes", 1 << 30);
        let state = self.from;
        self.from = in_force;
        self.check_parameters();
        let threshold = self.number("dq_threshold");
        self.from = state;
        self.check_registers(opened, threshold);
        self.check_counts();
        self.check_sums();
        self.check_values();
        self.check_elements(opened);
    }

    /// Checks the two fields that other fields of the record bound when it is read.
    fn check_placed(&mut self, opened: Numbers<'a>) {
        let (first, least) = (self.from, opened.number("moment"));
        self.go_to("count");
        let count = self.number("count");
        let is_early = self.number("moment") < least;
        if !self.is("set_by", b"") {
            self.up_to("set_by", count);
        }
        if is_early && least <= MAX_MOMENT {
            self.range("moment", least, MAX_MOMENT);
        }
        self.from = first;
        if is_early {
            self.up_to("moment", MAX_MOMENT);
        }
    }

    /// Checks that a controller can have each number of the state.
    fn check_registers(&mut self, opened: Numbers<'a>, threshold: u128) {
        let moment = self.number("moment");
        self.up_to("moment", MAX_MOMENT);
        self.up_to("prob", 1_000_000_000_000);
        self.up_to("old", 1 << 40);
        self.up_to("accu", 8_499_999_999_999);
        self.up_to("burst", 1_000_000_000_000);
        self.up_to("last", moment);
        self.up_to("average", MAX_MOMENT);
        self.up_to("start", moment);
        self.up_to("counted", threshold.saturating_sub(1));
        self.up_to("last_wait", 1 << 40);
        if opened.is("profile", b"1") {
            self.only("active", 1);
        }
    }

    /// Checks that each statistic is possible for the number of events.
    fn check_counts(&mut self) {
        let count = self.number("count");
        for number in 0..COUNTS.len() {
            let (name, most) = COUNTS[number];
            self.up_to(name, count.saturating_mul(most));
        }
    }

    /// Checks the numbers that are sums of others.
    fn check_sums(&mut self) {
        let (events, queued, dropped) = (self.sum(EVENTS), self.sum(QUEUED), self.sum(DROPPED));
        self.only("count", events);
        self.only("arrivals", queued.saturating_add(dropped));
        self.up_to("left", queued);
        let waiting = queued.saturating_sub(self.number("left"));
        self.only("packets", waiting);
    }

    /// Checks the greatest values and the waits.
    fn check_values(&mut self) {
        let most = u128::from(u64::MAX);
        let (bytes, delay, waited) = (
            self.number("bytes"),
            self.number("old"),
            self.number("waited"),
        );
        let waits = self.number("left").saturating_mul(self.number("moment"));
        self.range("largest_queue", bytes, most);
        self.range("largest_delay", delay, most);
        self.up_to("last_wait", waited);
        self.up_to("waited", waits);
    }

    /// Checks the numbers that are 0 without an update or with these elements.
    fn check_elements(&mut self, opened: Numbers<'a>) {
        if self.number("updates") == 0 {
            self.only("prob", 0);
        }
        if opened.is("delay", b"stamp") {
            self.only("average", 0);
            self.only("measuring", 0);
        } else {
            self.only("last_wait", 0);
        }
        if opened.is("picking", b"random") {
            self.only("accu", 0);
        }
    }
}

// ---- the number that removes the problem

/// Returns the numbers of a `resume` record, with a number that replaces the one of a field, and their first problem.
fn checked_resume(row: &Record, shape: Shape, replaced: Option<(usize, u128)>) -> Numbers<'_> {
    let mut numbers = Numbers::new(row, shape);
    numbers.replaced = replaced;
    numbers.check_resume();
    numbers
}

/// Returns the nearest number that the cause of a problem allows for the number `now`, and its place.
fn nearest(problem: Problem, now: u128) -> Option<(usize, u128)> {
    match problem {
        Problem::Field(
            FieldCause {
                place,
                allowed: Allowed::Range { least, most },
                ..
            },
        ) => Some((place, now.min(most).max(least))),
        _ => None,
    }
}

/// Returns the place of the field that is the cause of a problem. 0 if it is the number of fields.
fn place_of(problem: Problem) -> usize {
    match problem {
        Problem::Field(cause) => cause.place,
        Problem::Count { .. } => 0,
    }
}

impl Numbers<'_> {
    /// Returns true if no problem is left with this number at `place`.
    fn is_removed_by(&self, place: usize, number: u128) -> bool {
        checked_resume(self.row, self.shape, Some((place, number)))
            .problem
            .is_none()
    }

    /// Returns the problem of a field that is not a number from `least` to `most`.
    fn problem_at(&self, place: usize, name: &'static str, least: u128, most: u128) -> Problem {
        Problem::of_field(self.row, place, name, Allowed::Range { least, most })
    }

    /// Returns the bound of the field of this problem for which no problem is left with the nearest number in it, if there is one.
    /// Several bounds can apply to one field.
    fn removed_alone(&self, problem: Problem) -> Option<Problem> {
        let mut problem = problem;
        for _ in 0..4 {
            let place = place_of(problem);
            let Some(replaced) = nearest(problem, self.number_in(place)) else {
                return Some(problem);
            };
            match checked_resume(self.row, self.shape, Some(replaced)).problem {
                None => return Some(problem),
                Some(next) if place_of(next) == place => problem = next,
                Some(_) => return None,
            }
        }
        None
    }

    /// Returns the problem of the first of the numbers `terms` for which no problem is left if the sum of `terms` equals the
    /// sum of `others`.
    fn balanced(
        &self,
        terms: &'static [&'static str],
        others: &'static [&'static str],
    ) -> Option<Problem> {
        let (sum, other) = (self.sum(terms), self.sum(others));
        for term in 0..terms.len() {
            let name = terms[term];
            let number = self.number(name).saturating_add(other).checked_sub(sum);
            match (self.place(name), number) {
                (Some(place), Some(number)) if self.is_removed_by(place, number) => return Some(
                    self.problem_at(place, name, number, number),
                ),
                _ => {}
            }
        }
        None
    }

    /// Returns the problem of a term of a sum for which no problem is left with another number.
    fn removed_by_term(&self) -> Option<Problem> {
        for number in 0..SUMS.len() {
            let (left, right) = SUMS[number];
            let found = self.balanced(left, right).or(self.balanced(right, left));
            if found.is_some() {
                return found;
            }
        }
        None
    }

    /// Returns the problem of a number for which no problem is left if it equals the number that bounds it.
    fn removed_by_bound(&self) -> Option<Problem> {
        for number in 0..BOUNDS.len() {
            let (is_of_opening, name, other, most) = BOUNDS[number];
            let (mut opened, bound) = (*self, self.number(other));
            opened.from = if is_of_opening { 1 } else { self.from };
            let (least, most) = if most == 0 { (0, bound) } else { (bound, most) };
            match opened.place(name) {
                Some(place) if self.is_removed_by(place, bound) => return Some(self.problem_at(
                    place, name, least, most,
                )),
                _ => {}
            }
        }
        None
    }
}

/// Returns the problem of a `resume` record: the first number that is out of its bounds. If another number has to change, so
/// that no problem is left, returns the problem of that number.
fn resume_problem(row: &Record, shape: Shape) -> Option<Problem> {
    let numbers = checked_resume(row, shape, None);
    let problem = numbers.problem?;
    let found = numbers
        .removed_alone(problem)
        .or(numbers.removed_by_term())
        .or(numbers.removed_by_bound());
    Some(found.unwrap_or(problem))
}

/// Returns the problem of the bytes of a `resume` record if no problem is left with those of its packets, and these are others.
pub(crate) fn bytes_problem(row: &Record, shape: Shape, bytes: u128) -> Option<Problem> {
    let numbers = checked_resume(row, shape, None);
    let place = numbers.place("bytes")?;
    if numbers.number("bytes") != bytes && numbers.is_removed_by(place, bytes) {
        return Some(numbers.problem_at(place, "bytes", bytes, bytes));
    }
    None
}

/// Returns the first number of a first record that is out of its bounds.
pub(crate) fn bound_problem(row: &Record, shape: Shape) -> Option<Problem> {
    if has_word(row, 0, b"resume") {
        return resume_problem(row, shape);
    }
    let mut numbers = Numbers::new(row, shape);
    numbers.check_opening(is_kind(row, Kind::Open3));
    numbers.problem
}
