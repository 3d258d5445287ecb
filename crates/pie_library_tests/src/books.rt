//! Folds and excerpts of a book.
ghost use Rattle.std.specs.Prelude.{◌≡◌};

use crate::flushes::Sink;
use crate::report::{Seen, begin};
use pie_book::{Book, Command, Excerpt, FoldRefusal, Limits, OpenRefusal};
use pie_excerpt::write_excerpt;
use pie_link::Arrival;
use pie_params::Params;
use pie_queue::{Ecn, Packet};
use pie_record::TraceFault;
use std::alloc::Global;

/// Returns an opening with a ring of four packets and a log of this many events.
pub(crate) fn limits(tail: u32) -> Limits {
    Limits {
        packets: 4,
        tail,
        events: 1000,
    }
}

/// Returns a packet whose endpoints do not understand a mark.
pub(crate) fn packet(tag: u64, size: u32) -> Packet
    ensures { result.size ≡ size }
{
    Packet {
        tag,
        size,
        ecn: Ecn::NotEct,
    }
}

/// Returns the arrival of a packet of 100 bytes with this tag.
pub(crate) fn arrive(moment: u64, tag: u64) -> Command {
    Command::Arrive {
        moment,
        packet: packet(tag, 100),
        word: 0,
    }
}

/// Tests this for a burst.
pub(crate) fn arrival(moment: u64, tag: u64) -> Arrival {
    let packet = packet(tag, 100);
    let word = 0;
    Arrival {
        moment,
        packet,
        word,
    }
}

/// Returns a bounded book whose log is filled by this many arrivals, each of a packet with its moment as tag.
fn full(alloc: Global, tail: u32) -> Option<Book> {
    match Book::open(alloc, limits(tail), Params::default_profile(), 0) {
        Ok(mut book) => {
            for moment in 0..u64::from(tail) {
                let _ = book.apply(1, arrive(moment, moment));
            }
            Some(book)
        }
        Err(_) => None,
    }
}

/// Returns true if one event is before the log, and its packet was queued there.
fn has_one_before(book: &mut Book) -> bool {
    let (arrivals, count) = (
        book.checkpoint_stats().arrivals,
        book.checkpoint_snapshot().count,
    );
    match book.checkpoint_waiting(0) {
        Some(waiting) => arrivals == 1 && count == 1 && waiting.packet.tag == 0,
        None => false,
    }
}

/// Returns the number of events of a fold of one, and 1 if one event is before the log then, otherwise 0. If the fold
/// was refused, returns the number of events in the log.
fn fold_one(alloc: Global, book: &mut Book) -> Seen {
    let folded = match book.fold(alloc, 1) {
        Ok(events) => Ok(events.len() as u64),
        Err(why) => Err(why),
    };
    match folded {
        Ok(count) => Seen::done(count, u64::from(has_one_before(book))),
        Err(why) => Seen::refused(matches!(why, FoldRefusal::Memory), book.tail_len() as u64),
    }
}

/// Folds one event from a full event log of a thousand, which requests memory for one.
pub(crate) fn fold(rt: &impl Print, alloc: Global, name: &str) -> Seen {
    match full(alloc, 1000) {
        Some(mut book) => {
            begin(rt, name);
            fold_one(alloc, &mut book)
        }
        None => Seen::NOTHING,
    }
}

/// Returns 1 if a book fills an excerpt, otherwise 0, and the number of the excerpt's events if its text is then written.
fn fill_out(alloc: Global, book: &Book, excerpt: &mut Excerpt) -> Seen {
    let is_filled = book.excerpt(excerpt).is_ok();
    match write_excerpt(alloc, &mut Sink::new(false), excerpt) {
        Ok(()) => Seen::done(u64::from(is_filled), excerpt.tail().len() as u64),
        Err(why) => Seen::refused(matches!(why, TraceFault::Memory), 0),
    }
}

/// Makes an excerpt of a book and writes its text: the excerpt takes its room as it is made, and the text its memory.
fn take_out(alloc: Global, book: &Book) -> Seen {
    match Excerpt::with_room(alloc, book.opening()) {
        Ok(mut excerpt) => fill_out(alloc, book, &mut excerpt),
        Err(why) => Seen::refused(matches!(why, OpenRefusal::Memory), 0),
    }
}

/// Writes the text of an excerpt of a full event log of eight.
pub(crate) fn excerpt(rt: &impl Print, alloc: Global, name: &str) -> Seen {
    match full(alloc, 8) {
        Some(book) => {
            begin(rt, name);
            take_out(alloc, &book)
        }
        None => Seen::NOTHING,
    }
}
