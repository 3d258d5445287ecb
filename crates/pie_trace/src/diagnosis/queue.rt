//! The queue of an excerpt's preamble, as far as its records were read.

use crate::diagnosis::bounds::{Numbers, bytes_problem};
use crate::diagnosis::field::Allowed;
use crate::diagnosis::table::Shape;
use crate::diagnosis::text::{Place, TextKind};
use crate::diagnosis::walk::{Problem, problem_of, shape_of};
use pie_record::Record;
use pie_record::field::has_word;

/// The packets that a `resume` record announces, and the sums of the `queued` records that were read.
#[derive(Clone, Copy, Default)]
pub(crate) struct Queue {
    announced_packets: u128,
    announced_bytes: u128,
    moment: u128,
    packets: u128,
    bytes: u128,
    newest: u128,
}

impl Queue {
    /// Returns the queue after the first record of a text. Only an excerpt announces packets.
    pub(crate) fn after(first: &Record) -> Queue {
        let mut queue = Queue::default();
        match shape_of(Place::First(TextKind::History), first) {
            Ok(shape) if has_word(first, 0, b"resume") => {
                let mut numbers = Numbers::new(first, shape);
                numbers.go_to("count");
                queue.announced_packets = numbers.number("packets");
                queue.announced_bytes = numbers.number("bytes");
                queue.moment = numbers.number("moment");
            }
            _ => {}
        }
        queue
    }

    /// Returns true if further packets are announced.
    pub(crate) fn is_open(&self) -> bool {
        self.packets < self.announced_packets
    }

    /// Adds the packet of a `queued` record.
    pub(crate) fn add(&mut self, row: &Record) {
        if let Ok(shape) = shape_of(Place::Preamble, row) {
            let numbers = Numbers::new(row, shape);
            self.packets = self.packets.saturating_add(1);
            self.bytes = self.bytes.saturating_add(numbers.number("size"));
            self.newest = numbers.number("since");
        }
    }

    /// Returns the problem of a record that is not of the next packet in the queue.
    pub(crate) fn problem_of_next(&self, row: &Record) -> Option<Problem> {
        if let Some(problem) = problem_of(Place::Preamble, row) {
            return Some(problem);
        }
        let mut numbers = Numbers::new(row, shape_of(Place::Preamble, row).ok()?);
        let left = self.announced_bytes.saturating_sub(self.bytes);
        numbers.range("size", 1, 65535);
        if left == 0 {
            numbers.allow("size", Allowed::NoPacket);
        } else {
            numbers.range("size", 1, left);
        }
        numbers.range("since", self.newest, self.moment);
        numbers.problem
    }

    /// Returns the problem of a `resume` record, whose numbers have this problem. If they have none, or if it is due to the
    /// announced bytes, returns the problem of an announcement of more than the `queued` records contain.
    pub(crate) fn problem_of_end(
        &self,
        first: &Record,
        shape: Shape,
        problem: Option<Problem>,
    ) -> Option<Problem> {
        if problem.is_some() {
            let is_whole = 0 < self.packets && self.packets == self.announced_packets;
            return match bytes_problem(first, shape, self.bytes) {
                Some(found) if is_whole => Some(found),
                _ => problem,
            };
        }
        let mut numbers = Numbers::new(first, shape);
        numbers.go_to("count");
        numbers.only("packets", self.packets);
        numbers.only("bytes", self.bytes);
        numbers.problem
    }
}
