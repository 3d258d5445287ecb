//! Worked rows: histories, whose events a core and a book decide again; the rules over checked numbers; the results of
//! runs; texts without an end; a queue. All numbers were computed by hand.

use crate::books::packet;
use pie_book::{Answer, Book, Core, Event, Opening, Profile, Registers, Stats};
use pie_control::{Control, delay, next_probability};
use pie_early::{Choice, Early, Offered};
use pie_fixed::{Nanos, Prob};
use pie_params::{Elements, Params, Step};
use pie_queue::{ByteQueue, Ecn};
use pie_rate::Rate;
use pie_record::{Record, Records};
use pie_trace::{HistoryLines, Line, RunEnd, TraceFault, run_trace, run_trace_within};
use std::alloc::Global;
use std::io;
use std::io::{Read, Write};

/// One packet comes and leaves, and the next departure finds none.
const EMPTIED: &[u8] = b"open,0,4,16,100
arrive,1,10,7,1500,ect0,0,enqueue
depart,2,25,left,7,1500,ect0
depart,2,30,empty
";

/// The trace of the worked history.
const TRACE: &[u8] = b"open,0,4,16,100
arrive,1,10,7,1500,ect0,0
depart,2,25
depart,2,30
";

/// A queue under load: of three packets one is marked, one is dropped, and one is queued by its random word; then come new parameters and a reset.
const LOADED: &[u8] = b"open,0,8,32,100,2,1,0,850000,0,1,100000,1000000000000,1024
arrive,1,0,1,1024,not,0,enqueue
arrive,1,0,2,1024,not,0,enqueue
arrive,1,0,3,1024,not,0,enqueue
arrive,1,0,4,1024,not,0,enqueue
depart,3,1000,left,1,1024,not
depart,3,1001000,left,2,1024,not
update,4,1001000,2000000,830077294,0
update,4,1001001,2000000,53955024169,0
update,4,1001002,2000000,903954174169,0
arrive,1,1001003,5,500,ect0,0,mark
arrive,2,1001003,6,500,not,0,early
arrive,2,1001003,7,500,not,18446744073709551615,enqueue
params,5,1001004,2,1,50,850000,0,1,100000,1000000000000,1024,done
reset,5,1001005,done
";

/// Profile two: the fourth packet turns the controller on, and a calm update turns it off.
const TURNED_OFF: &[u8] = b"open2,2,bounded,0,8,32,100,2,1,5,850000,0,1,9000,1000000000000,1024
arrive,1,0,1,1024,not,0,enqueue
arrive,1,0,1,1024,not,0,enqueue
depart,1,1,left,1,1024,not
arrive,1,1,1,1024,not,0,enqueue
arrive,1,1,1,1024,not,0,enqueue
depart,1,2,left,1,1024,not
depart,1,1002,left,1,1024,not
update,1,1002,1000,414208,4
reset,1,1003,done
update,1,1004,0,0,5
update,1,1005,0,0,5
";

/// Profile two: a packet that is dropped turns the controller on again.
const TURNED_ON: &[u8] = b"open2,2,bounded,0,8,32,100,2,1,5,850000,0,1,9000,1000000000000,1024
arrive,1,0,1,1024,not,0,enqueue
arrive,1,0,1,1024,not,0,enqueue
arrive,1,0,1,1024,not,0,enqueue
update,1,1,0,0,5
arrive,1,1,1,65535,not,0,bytes
";

/// A type that decides one event after another.
trait Decides {
    /// Opens it.
    fn open(alloc: Global, opening: &Opening) -> Option<Self>;

    /// Decides an event's command.
    fn decide(&mut self, alloc: Global, event: &Event) -> Option<Answer>;

    /// Returns the registers.
    fn registers(&self) -> Registers;
}

impl Decides for Core {
    fn open(alloc: Global, opening: &Opening) -> Option<Core> {
        if opening.choices.profile == Profile::One {
            Core::open(alloc, opening.limits, opening.params, opening.moment).ok()
        } else {
            Core::open_with(alloc, opening).ok()
        }
    }

    fn decide(&mut self, _alloc: Global, event: &Event) -> Option<Answer> {
        self.step(event.caller, event.command).ok()
    }

    fn registers(&self) -> Registers {
        self.registers()
    }
}

/// Folds the event log after each event, and tests that the checkpoint is the state of the book.
impl Decides for Book {
    fn open(alloc: Global, opening: &Opening) -> Option<Book> {
        Book::open_with(alloc, *opening).ok()
    }

    fn decide(&mut self, alloc: Global, event: &Event) -> Option<Answer> {
        let answer = self.apply(event.caller, event.command).ok();
        let is_folded = self.fold(alloc, 1).is_ok();
        let is_same = self.checkpoint() == self.registers();
        if is_folded && is_same && self.checkpoint_stats() == self.stats() {
            answer
        } else {
            None
        }
    }

    fn registers(&self) -> Registers {
        self.registers()
    }
}

/// Returns true if the next lines are these events, each with the given answer, and then the text ends for good.
fn agree<D: Decides>(
    alloc: Global,
    lines: &mut HistoryLines<&[u8]>,
    place: &mut D,
    events: u64,
) -> bool {
    for _ in 0..events {
        match lines.next_line() {
            Ok(Some(Line::Valid(event))) => {
                if place.decide(alloc, &event) != Some(event.answer) {
                    return false;
                }
            }
            _ => return false,
        }
    }
    matches!(lines.next_line(), Ok(None)) && matches!(lines.next_line(), Ok(None))
}

/// Returns the registers after a history of this many events, each with the answer in the history.
fn decided<D: Decides + Drop>(alloc: Global, text: &[u8], events: u64) -> Option<Registers> {
    let (mut records, mut row) = (Records::new(alloc, text), Record::new(alloc));
    if !matches!(records.next(&mut row), Ok(true)) {
        return None;
    }
    let (mut lines, opening) = HistoryLines::opened(records, row).ok()?;
    let mut place = D::open(alloc, &opening)?;
    if agree(alloc, &mut lines, &mut place, events) {
        Some(place.registers())
    } else {
        None
    }
}

/// Returns true if these are the registers after `LOADED`.
fn are_as_loaded(held: Registers) -> bool {
    held.count == 14
        && held.moment == 1_001_005
        && held.packets == 4
        && held.bytes == 3048
        && (held.prob, held.old, held.accu) == (0, 0, 0)
        && (held.burst, held.last, held.average) == (50, 1_001_002, 0)
        && !held.measuring
}

/// Returns true if all worked histories are decided again.
fn are_decided<D: Decides + Drop>(alloc: Global) -> bool {
    let loaded = decided::<D>(alloc, LOADED, 14);
    let emptied = decided::<D>(alloc, EMPTIED, 3);
    let off = decided::<D>(alloc, TURNED_OFF, 11);
    let on = decided::<D>(alloc, TURNED_ON, 5);
    loaded.is_some_and(are_as_loaded)
        && emptied.is_some()
        && off.is_some_and(|held| !held.active)
        && on.is_some_and(|held| held.active)
}

/// Returns true if a core decides each event of the worked histories as recorded.
pub(crate) fn core_decides(alloc: Global) -> bool {
    are_decided::<Core>(alloc)
}

/// Returns true if a book does so too, and if the checkpoint after a fold of each event is the book's state.
pub(crate) fn book_decides(alloc: Global) -> bool {
    are_decided::<Book>(alloc)
}

/// Returns true if the second record of the history has this fault, which each later call returns again.
fn is_repeated(alloc: Global, history: &'static [u8], wanted: TraceFault) -> bool {
    let Ok((mut lines, _)) = HistoryLines::open(alloc, history) else {
        return false;
    };
    for _ in 0..3 {
        match lines.next_line() {
            Err(fault) if fault == wanted => {}
            _ => return false,
        }
    }
    true
}

/// Tests that a reader of a history repeats the fault of a record, although a valid record follows it.
pub(crate) fn faults_are_repeated(alloc: Global) -> bool {
    let row = 2;
    let histories: [(&[u8], TraceFault); 4] = [
        (
            b"open,0,4,16,100\ndep\ndepart,1,1,empty\n",
            TraceFault::Kind { row },
        ),
        (
            b"open,0,4,16,100\ndepart,1,1\ndepart,1,1,empty\n",
            TraceFault::Fields { row },
        ),
        (
            b"open,0,4,16,100\ndepart,1,x,empty\ndepart,1,1,empty\n",
            TraceFault::Number { row },
        ),
        (
            b"open,0,4,16,100\ndepart,1,1,full\ndepart,1,1,empty\n",
            TraceFault::Word { row },
        ),
    ];
    for (history, wanted) in histories {
        if !is_repeated(alloc, history, wanted) {
            return false;
        }
    }
    true
}

/// Returns true if the text of a record of this many fields, one of them in quotes, is the text without quotes.
fn is_copied(alloc: Global, fields: u64) -> io::Result<bool> {
    let mut text = String::from_str(alloc, "\"1\"")?;
    let mut wanted = String::from_str(alloc, "1")?;
    for _ in 1..fields {
        text.push_str(",1")?;
        wanted.push_str(",1")?;
    }
    text.push('\n')?;
    wanted.push('\n')?;
    let mut records = Records::new(alloc, text.as_bytes());
    let mut row = Record::new(alloc);
    let is_read = matches!(records.next(&mut row), Ok(true));
    match row.text(alloc) {
        Ok(copied) => Ok(is_read && copied.as_slice() == wanted.as_bytes()),
        Err(_) => Ok(false),
    }
}

/// Tests that records with quotes have a text, whatever their number of fields.
pub(crate) fn quoted_records_are_copied(alloc: Global) -> bool {
    for fields in [1, 2, 64, 65, 97, 128, 129, 1000] {
        if !matches!(is_copied(alloc, fields), Ok(true)) {
            return false;
        }
    }
    true
}

// ---- runs

/// Returns true if a run of these records with the default parameters ends with these registers and statistics.
fn is_ended(end: &RunEnd, events: u64, moment: u64, stats: Stats) -> bool {
    let held = end.registers;
    let is_new = (held.prob, held.old, held.accu, held.burst) == (0, 0, 0, 150_000_000);
    let is_empty = (held.packets, held.bytes, held.last, held.average) == (0, 0, 0, 0);
    (end.events, end.refused, held.count, held.moment) == (events, 0, events, moment)
        && is_new
        && is_empty
        && !held.measuring
        && end.stats == stats
}

/// Tests the result of a run at its end, over an opening alone and over a packet that arrives and departs.
pub(crate) fn runs_end(alloc: Global) -> bool {
    let none = Stats {
        arrivals: 0,
        enqueued: 0,
        marked: 0,
        early: 0,
        over_bytes: 0,
        over_packets: 0,
        left: 0,
        left_bytes: 0,
        empty: 0,
        updates: 0,
        resets: 0,
        changes: 0,
        largest_queue: 0,
        largest_delay: 0,
        waited: 0,
    };
    let one = Stats {
        arrivals: 1,
        enqueued: 1,
        left: 1,
        left_bytes: 1500,
        empty: 1,
        largest_queue: 1500,
        waited: 15,
        ..none
    };
    let opened = run_trace(alloc, &TRACE[..16], &mut Compared::with(&TRACE[..16]));
    let emptied = run_trace(alloc, TRACE, &mut Compared::with(EMPTIED));
    opened.is_ok_and(|end| is_ended(&end, 0, 0, none))
        && emptied.is_ok_and(|end| is_ended(&end, 3, 30, one))
}

/// Returns true if a run of at most this many records meets one more, and writes this text.
fn is_too_long<R: Read + Drop>(alloc: Global, trace: R, max_records: u64, wanted: &[u8]) -> bool {
    let mut writer = Compared::with(wanted);
    let fault = run_trace_within(alloc, trace, &mut writer, max_records).err();
    fault == Some(TraceFault::TooLong) && writer.is_all()
}

/// A trace behind a preamble of three records: the state after two arrivals, and two packets.
const EXCERPT: &[u8] =
    b"resume,1,rate,derandomized,capped,unscaled,bounded,0,4,16,100,15000000,15000000,150000000,125,1250,1024,262144,100000000000,16384,15000000,15000000,150000000,125,1250,1024,262144,100000000000,16384,2,0,2,3000,10,0,0,0,150000000,0,0,0,0,0,0,1,2,2,0,0,0,0,0,0,0,0,0,0,3000,0,0\nqueued,7,1500,ect0,10\nqueued,8,1500,ect0,10\ndepart,2,25\n";

/// Runs of three records, of a thousand of a trace without an end, and of fewer records than a preamble has.
pub(crate) fn runs_are_bounded(alloc: Global) -> bool {
    let (trace, wanted) = (
        b"open,0,4,4,2\ndepart,1,1\ndepart,1,1\ndepart,1,1\n",
        b"open,0,4,4,2\ndepart,1,1,empty\ndepart,1,1,empty\n",
    );
    let endless = Endless::of(b"depart,1,1\n");
    match departures(alloc) {
        Ok(history) => {
            is_too_long(alloc, trace.as_slice(), 3, wanted)
                && is_too_long(alloc, endless, 1000, history.as_bytes())
                && is_too_long(alloc, EXCERPT, 2, b"")
        }
        Err(_) => false,
    }
}

// ---- a queue

/// Returns true if a queue of two packets accepts two, returns the third one, and gives the first.
pub(crate) fn queue_is_first_in_first_out(alloc: Global) -> bool {
    match (ByteQueue::new(alloc, 2), Nanos::from_units(5)) {
        (Ok(mut queue), Some(since)) => {
            let are_in = queue.admit(packet(1, 100), since).is_ok()
                && queue.admit(packet(2, 200), since).is_ok();
            let back = queue.admit(packet(3, 300), since).err();
            let first = queue.take();
            are_in
                && back.is_some_and(|back| back.tag == 3)
                && first.is_some_and(|first| first.packet.tag == 1 && first.since == since)
                && queue.bytes() == 200
        }
        _ => false,
    }
}

// ---- texts without an end

/// Gives a first record with the default parameters, a ring of four packets and an event log of 16 events, and then one record
/// without end.
#[derive(Drop)]
struct Endless {
    /// The bytes that are left of the record that it gives now.
    rest: &'static [u8],
    /// The record that it gives then.
    again: &'static [u8],
}

impl Endless {
    fn of(again: &'static [u8]) -> Endless {
        let rest = b"open,0,4,16,100\n";
        Endless { rest, again }
    }
}

impl Read for Endless {
    fn read(&mut self, buf: &mut [u8]) -> io::Result<usize> {
        if self.rest.is_empty() {
            self.rest = self.again;
        }
        let count = self.rest.len().min(buf.len());
        buf[..count].copy_from_slice(&self.rest[..count]);
        self.rest = &self.rest[count..];
        Ok(count)
    }
}

/// A writer that accepts all bytes, and compares them with the expected ones.
#[derive(Drop)]
struct Compared<'a> {
    /// The expected bytes that have not been written yet.
    rest: &'a [u8],
    /// True if another byte than the expected one was written.
    differs: bool,
}

impl<'a> Compared<'a> {
    fn with(wanted: &'a [u8]) -> Compared<'a> {
        Compared {
            rest: wanted,
            differs: false,
        }
    }

    /// Returns true if exactly the expected bytes were written.
    fn is_all(&self) -> bool {
        self.rest.is_empty() && !self.differs
    }
}

impl Write for Compared<'_> {
    fn write(&mut self, buf: &[u8]) -> io::Result<usize> {
        let seen = buf.len().min(self.rest.len());
        self.differs |= !self.rest.starts_with(buf);
        self.rest = &self.rest[seen..];
        Ok(buf.len())
    }

    fn flush(&mut self) -> io::Result<()> {
        Ok(())
    }
}

/// Returns the history of 999 departures in a book whose event log has room for 16.
fn departures(alloc: Global) -> io::Result<String> {
    let mut history = String::from_str(alloc, "open,0,4,16,100\n")?;
    for _ in 0..16 {
        history.push_str("depart,1,1,empty\n")?;
    }
    for record in 18..1001 {
        writeln!(history, "refused,{record},5")?;
    }
    Ok(history)
}

/// Tests that a history without an end has its opening and a thousand events.
pub(crate) fn lines_come(alloc: Global) -> bool {
    let Ok((mut lines, opening)) = HistoryLines::open(alloc, Endless::of(b"depart,2,1,empty\n"))
    else {
        return false;
    };
    for _ in 0..1000 {
        match lines.next_line() {
            Ok(Some(Line::Valid(event))) => {
                if event.caller != 2 || event.answer != Answer::Empty {
                    return false;
                }
            }
            _ => return false,
        }
    }
    opening.limits.tail == 16
}

// ---- the rules, which a controller calls over plain numbers alone

/// The size of departures, the bytes that they leave, and their moments: the first opens a cycle, the second closes it after 12 milliseconds and
/// opens the next, and the third closes that one after 20.
const DEPARTURES: [(u32, u64, u64); 3] = [
    (1500, 20_000, 1000),
    (16_384, 16_384, 12_001_000),
    (16_384, 0, 32_001_000),
];

/// Returns true if the average of both cycles is 14 milliseconds, and none is open then.
fn are_cycles_averaged() -> bool {
    let mut rate = Rate::cleared();
    for place in 0..DEPARTURES.len() {
        let (size, left, moment) = DEPARTURES[place];
        if let Some(moment) = Nanos::from_units(moment) {
            rate.departed(size, left, moment, 16_384);
        }
    }
    rate.average() == 14_000_000 && !rate.is_measuring()
}

/// Returns true if three packets of 16,384 bytes are a delay of 42 milliseconds then, and two updates at 30 lead to
/// these registers.
fn are_updates_made(params: &Params, start: Nanos) -> bool {
    let mut control = Control::opened(params, start);
    let _ = control.update(params, Elements::usual(), 30_000_000, start);
    let first = control.prob();
    let _ = control.update(params, Elements::usual(), 30_000_000, start);
    let next = next_probability(params, Step::Capped, first, 30_000_000, 30_000_000).units();
    let is_next = first.units() == 19_226_074
        && next == 33_874_511
        && control.prob().units() == next;
    let are_kept = control.old() == 30_000_000 && control.burst() == 120_000_000;
    is_next && are_kept && delay(49_152, 14_000_000, params.dq_threshold()) == 42_000_000
}

/// Returns true if, of arrivals at a probability of a tenth with the greatest word, the 85th is the first that is
/// dropped.
fn is_last_dropped(params: &Params, tenth: Prob, start: Nanos) -> bool {
    let control = Control::from_parts(tenth, 15_000_000, 0, start);
    let mut early = Early::opened();
    let offered = Offered {
        bytes: 3000,
        size: 1500,
        ecn: Ecn::NotEct,
        word: u64::MAX,
    };
    for _ in 0..84 {
        let _ = early.consider(params, Elements::usual(), &control, offered);
    }
    let accumulated = early.accu().units();
    let choice = early.consider(params, Elements::usual(), &control, offered);
    accumulated == 8_400_000_000_000 && choice == Choice::Drop && early.accu().units() == 0
}

pub(crate) fn are_rules_followed() -> bool {
    let params = Params::default_profile();
    match (Prob::from_units(100_000_000_000), Nanos::from_units(0)) {
        (Some(tenth), Some(start)) => {
            are_cycles_averaged()
                && are_updates_made(&params, start)
                && is_last_dropped(&params, tenth, start)
        }
        _ => false,
    }
}
