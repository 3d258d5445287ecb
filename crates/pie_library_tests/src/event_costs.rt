//! The cost of an event, decided alone and decided and recorded, on a link with 8 per cent more arrivals than
//! departures.

use crate::books::packet;
use crate::report::Report;
use pie_book::{Answer, Book, Choices, Command, Core, Limits, Mode, Opening};
use pie_params::Params;
use std::alloc::Global;
use std::rt::Clock;

/// Number of events of a measurement: about 230 seconds of the link's time.
const EVENTS: u64 = 4_000_000;

/// Capacity of the event log.
const TAIL: u32 = 4096;

/// The nanoseconds between two arrivals of 1500 bytes, some 108 megabits a second.
const BETWEEN_ARRIVALS: u64 = 111_111;

/// The nanoseconds between two departures, 100 megabits a second.
const BETWEEN_DEPARTURES: u64 = 120_000;

/// The nanoseconds between two updates, the default `t_update`.
const BETWEEN_UPDATES: u64 = 15_000_000;

/// The commands of the link's callers, in the order of their moments.
#[derive(Drop)]
struct Stream {
    arrival: u64,
    departure: u64,
    update: u64,
    tag: u64,
    random: u64,
}

impl Stream {
    fn new() -> Stream {
        Stream {
            arrival: BETWEEN_ARRIVALS,
            departure: BETWEEN_DEPARTURES,
            update: BETWEEN_UPDATES,
            tag: 0,
            random: 1,
        }
    }

    /// Returns the next command: at one moment an arrival comes before a departure, and a departure before an update.
    fn next(&mut self) -> Command {
        if self.arrival <= self.departure && self.arrival <= self.update {
            let moment = self.arrival;
            self.arrival = moment.wrapping_add(BETWEEN_ARRIVALS);
            self.tag = self.tag.wrapping_add(1);
            // A linear congruential generator modulo 2^64, by Knuth's factor.
            self.random = self
                .random
                .wrapping_mul(6_364_136_223_846_793_005)
                .wrapping_add(1_442_695_040_888_963_407);
            return Command::Arrive {
                moment,
                packet: packet(self.tag, 1500),
                word: self.random ^ (self.random >> 32),
            };
        }
        if self.departure <= self.update {
            let moment = self.departure;
            self.departure = moment.wrapping_add(BETWEEN_DEPARTURES);
            return Command::Depart { moment };
        }
        let moment = self.update;
        self.update = moment.wrapping_add(BETWEEN_UPDATES);
        Command::Update { moment }
    }
}

/// A type that decides one command after another.
trait Decides {
    fn decide(&mut self, alloc: Global, command: Command) -> Option<Answer>;
}

/// Decides only.
impl Decides for Core {
    fn decide(&mut self, _alloc: Global, command: Command) -> Option<Answer> {
        self.step(1, command).ok()
    }
}

/// Decides and records. The book is folded whenever its event log is full, unless it is rolling.
impl Decides for Book {
    fn decide(&mut self, alloc: Global, command: Command) -> Option<Answer> {
        if self.tail_len() >= TAIL as usize && self.opening().choices.mode != Mode::Rolling {
            let _ = self.fold(alloc, u64::from(TAIL));
        }
        self.apply(1, command).ok()
    }
}

/// Returns a number that represents an answer in a checksum.
fn digest(answer: Answer) -> u64 {
    match answer {
        Answer::Enqueued => 1,
        Answer::Marked => 2,
        Answer::DroppedEarly => 3,
        Answer::DroppedBytes => 4,
        Answer::DroppedPackets => 5,
        Answer::Empty => 6,
        Answer::Left(packet) => packet.tag,
        Answer::Updated { delay, prob, .. } => delay.wrapping_add(prob),
        Answer::Done => 7,
    }
}

/// Decides all events; the number is that of the answers.
#[inline(never)]
fn decide_all<D: Decides>(alloc: Global, place: &mut D) -> u64 {
    let mut stream = Stream::new();
    let mut sum: u64 = 0;
    for _ in 0..EVENTS {
        if let Some(answer) = place.decide(alloc, stream.next()) {
            sum = sum.wrapping_mul(31).wrapping_add(digest(answer));
        }
    }
    sum
}

/// Prints the time of one event.
fn time<R: Clock + Print, D: Decides>(
    report: &mut Report<R>,
    alloc: Global,
    name: &'static str,
    place: &mut D,
) {
    let start = report.start();
    let sum = decide_all(alloc, place);
    report.nanos("book", name, start, EVENTS);
    report.checksum("book", name, sum);
}

/// The openings of the measured types.
const LIMITS: Limits = Limits {
    packets: 1024,
    tail: TAIL,
    events: 1 << 40,
};

/// Prints it of a book.
fn time_book<R: Clock + Print>(to: &mut Report<R>, alloc: Global, name: &'static str, mode: Mode) {
    let usual = Opening::usual(LIMITS, Params::default_profile(), 0);
    let choices = Choices {
        mode,
        ..usual.choices
    };
    if let Ok(mut book) = Book::open_with(alloc, Opening { choices, ..usual }) {
        time(to, alloc, name, &mut book);
    }
}

/// Prints the time of one event that is decided only (`Core::step`), and of one that is decided and recorded (`Book::apply`): in a bounded book that
/// is folded whenever its event log is full, and in a rolling one.
pub fn measure<R: Clock + Print>(report: &mut Report<R>, alloc: Global) {
    if let Ok(mut core) = Core::open(alloc, LIMITS, Params::default_profile(), 0) {
        time(report, alloc, "decided", &mut core);
    }
    time_book(report, alloc, "recorded_bounded", Mode::Bounded);
    time_book(report, alloc, "recorded_rolling", Mode::Rolling);
}
