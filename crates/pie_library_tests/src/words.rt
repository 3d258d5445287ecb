//! Properties that no clause states and no program shows: texts, that memory suffices for the largest ring, and
//! calls without another caller.

use crate::books::limits;
use crate::flushes::HISTORY;
use pie_book::{Book, EndRefusal, FoldRefusal, OpenRefusal, QueueRefusal, Refusal, ResumeRefusal};
use pie_fixed::{Accu, Gain, Prob};
use pie_lock::{LockRefusal, OneNumber};
use pie_params::{BadParam, Field, Params};
use pie_queue::{ByteQueue, Ecn, Memory};
use pie_record::{HistoryLines, Line, TraceFault};
use std::alloc::Global;
use std::fmt::Display;

/// Returns true if each of these has this text.
fn say<T: Display>(alloc: Global, texts: &[(T, &'static str)]) -> bool {
    let mut are_said = true;
    for (it, want) in texts {
        match format!(in alloc; "{it}") {
            Ok(text) => are_said &= text.as_str() == *want,
            Err(_) => return false,
        }
    }
    are_said
}

/// Returns true if the refusals of a command, an opening, a fold, and numbers that no core can continue from have their
/// texts.
fn are_refusals_of_books_said(alloc: Global) -> bool {
    let commands = [
        (Refusal::Moment, "moment out of range"),
        (Refusal::Size, "packet size out of range"),
        (Refusal::TooSoon { due: 5 }, "the update is due at 5"),
        (Refusal::Exhausted, "no more events"),
        (Refusal::HistoryFull, "the tail is full"),
    ];
    let openings = [
        (OpenRefusal::BadLimits, "limits out of range"),
        (OpenRefusal::Moment, "moment out of range"),
        (OpenRefusal::Memory, "out of memory"),
    ];
    let folds = [
        (FoldRefusal::TooMany { held: 4 }, "the tail holds 4 events"),
        (FoldRefusal::Memory, "out of memory"),
    ];
    let resumings = [
        (ResumeRefusal::Count, "more events than the limits allow"),
        (ResumeRefusal::Statistics, "statistics out of range"),
    ];
    say(alloc, &commands) & say(alloc, &openings) & say(alloc, &folds) & say(alloc, &resumings)
}

/// Returns true if these and the other refusals have their texts: of a lock and a pass, of a queue and its packets, of
/// parameters, and of a trace longer than a test can run.
pub(crate) fn refusals_in_words(alloc: Global) -> bool {
    let locks = [
        (LockRefusal::NoNumbers, "a lock needs one number at least"),
        (LockRefusal::Memory, "no memory for the lock"),
    ];
    let passes = [(OneNumber, "a pass with one number can't be shared")];
    let queues = [(Memory, "out of memory")];
    let orders = [(
        QueueRefusal::Order,
        "a packet that arrived before its predecessor",
    )];
    let ends = [(EndRefusal::Missing, "fewer packets than were announced")];
    let params = [(
        BadParam(Field::DqThreshold),
        "the parameter dq_threshold is out of its range",
    )];
    let traces = [(TraceFault::TooLong, "too many records")];
    let of_queues = say(alloc, &queues) & say(alloc, &orders) & say(alloc, &ends);
    let of_others = say(alloc, &params) & say(alloc, &traces);
    let of_locks = say(alloc, &locks) & say(alloc, &passes);
    are_refusals_of_books_said(alloc) & of_queues & of_others & of_locks
}

/// Returns true if memory suffices for a ring of the greatest size.
pub(crate) fn the_largest_ring(alloc: Global) -> bool {
    match ByteQueue::new(alloc, 1_048_576) {
        Ok(queue) => queue.capacity() == 1_048_576,
        Err(Memory) => false,
    }
}

/// Returns true if a book has no event, and this opening moment.
fn is_as_opened(book: &mut Book) -> bool {
    let checkpoint = book.checkpoint();
    book.event(0).is_none() && book.opening().moment == 3 && checkpoint == book.registers()
}

/// Returns true for a new book.
fn shows_its_opening(alloc: Global) -> bool {
    match Book::open(alloc, limits(16), Params::default_profile(), 3) {
        Ok(mut book) => is_as_opened(&mut book),
        Err(_) => false,
    }
}

/// Returns true if the default parameters have section 4.2's gains and interval, and the other numbers that checked
/// parameters return.
fn are_defaults_read() -> bool {
    let params = Params::default_profile();
    let (alpha, beta) = (params.alpha().units(), params.beta().units());
    let are_steps = alpha == 125 && beta == 1250 && params.t_update().units() == 15_000_000;
    let (packet, all) = (params.mean_pkt(), params.limit_bytes());
    let (marks, cycle) = (params.mark_ecnth().units(), params.dq_threshold());
    are_steps && packet == 1024 && all == 262_144 && marks == 100_000_000_000 && cycle == 16_384
}

/// Returns the accumulated probability after one arrival that was considered at a tenth.
fn accumulated() -> Option<u64> {
    let tenth = Prob::from_units(100_000_000_000)?;
    Some(Accu::zero().plus(tenth).units())
}

/// Returns true if a gain of a thousand per second exists, and none above.
fn are_gains_bounded() -> bool {
    match Gain::from_units(1_000_000) {
        Some(gain) => gain.units() == 1_000_000 && Gain::from_units(1_000_001).is_none(),
        None => false,
    }
}

/// Returns true if a history's opening and its first event are read.
fn is_history_read(alloc: Global) -> bool {
    match HistoryLines::open(alloc, HISTORY) {
        Ok((mut lines, opening)) => {
            let is_made = matches!(lines.next_line(), Ok(Some(Line::Valid(_))));
            is_made & (opening.limits.packets == 4)
        }
        Err(_) => false,
    }
}

pub(crate) fn calls_that_nothing_else_makes(alloc: Global) -> bool {
    let is_shown = shows_its_opening(alloc);
    let is_added = accumulated() == Some(100_000_000_000);
    let are_read = are_defaults_read() && Ecn::Ect0.bits() == 0b10;
    is_shown && is_added && are_gains_bounded() && are_read && is_history_read(alloc)
}
