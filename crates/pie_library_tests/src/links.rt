//! Links: calls that may run out of memory, and the answers to a caller without all numbers at a free link, because
//! no clause states that it is not busy. Of the contracts the tests use only that the caller stays one of the
//! link's.
ghost use Rattle.std.specs.Prelude.{◌≡◌, IfOk};

use crate::books::{arrival, arrive, limits};
use crate::report::{Seen, begin};
use pie_book::{Answer, Command, Excerpt, FoldRefusal, Limits, OpenRefusal, Opening, Refusal};
use pie_link::{Caller, Link, LinkRefusal, Told, Tried};
use pie_params::Params;
use std::alloc::Global;
use std::sync::Wait;

/// Returns true if the non-blocking call accepts a command. (The answer of the waiting call is proved.)
fn tries(link: &Link, caller: &mut Caller, command: Command) -> bool
    requires own { caller.old.lock ≡ link.now }
    ensures { caller.new.lock ≡ link.now }
{
    match command {
        Command::Arrive {
            moment,
            packet,
            word,
        } => link.try_arrive(caller, moment, packet, word).is_ok(),
        Command::Depart { moment } => link.try_depart(caller, moment).is_ok(),
        Command::Update { moment } => link.try_update(caller, moment).is_ok(),
        Command::Reset { moment } => link.try_reset(caller, moment).is_ok(),
        Command::SetParams { moment, params } => {
            link.try_set_params(caller, moment, params).is_ok()
        }
    }
}

/// Returns the number of events of a non-blocking fold of two, and the number of the last event; or, as an error, true
/// if it ran out of memory.
fn try_two(link: &Link, caller: &mut Caller) -> Result<(u64, u64), bool>
    requires own { caller.old.lock ≡ link.now }
    ensures { caller.new.lock ≡ link.now }
{
    match link.try_fold(caller, 2) {
        Ok(reply) => Ok((reply.answer.len() as u64, reply.number)),
        Err(why) => Err(matches!(why, Tried::Refused(FoldRefusal::Memory))),
    }
}

/// Returns this for the waiting fold.
fn fold_two<R: Wait>(rt: &R, link: &Link, caller: &mut Caller) -> Result<(u64, u64), bool>
    requires own { caller.old.lock ≡ link.now }
    ensures { caller.new.lock ≡ link.now }
{
    match link.fold(rt, caller, 2) {
        Ok(reply) => Ok((reply.answer.len() as u64, reply.number)),
        Err(why) => Err(matches!(why, FoldRefusal::Memory)),
    }
}

/// Returns the number of events of a link's book, as a caller reads it; 0 if the lock is not free.
fn count(link: &Link, caller: &mut Caller) -> u64
    requires own { caller.old.lock ≡ link.now }
    ensures { caller.new.lock ≡ link.now }
{
    match link.try_registers(caller) {
        Ok(reply) => reply.answer.count,
        Err(_) => 0,
    }
}

// ---- calls that need memory

/// Returns the result of a link that was not opened.
fn refused(why: LinkRefusal) -> Seen {
    let is_memory = matches!(
        why,
        LinkRefusal::Memory | LinkRefusal::Book(OpenRefusal::Memory)
    );
    Seen::refused(is_memory, 0)
}

/// Opens a link, and makes an arrival at it.
pub(crate) fn open<R: Wait + Print>(rt: &R, alloc: Global, name: &str) -> Seen {
    let opening = Opening::usual(limits(8), Params::default_profile(), 0);
    begin(rt, name);
    match Link::open_with(alloc, opening, 3) {
        Ok((link, mut caller)) => {
            Seen::done(u64::from(tries(&link, &mut caller, arrive(10, 1))), 0)
        }
        Err(why) => refused(why),
    }
}

/// Makes three events and folds two. If the fold was refused, the lock is free, and the book has the same events.
fn fold_at<R: Wait + Print>(
    rt: &R,
    link: &Link,
    caller: &mut Caller,
    waits: bool,
    name: &str,
) -> Seen
    requires own { caller.old.lock ≡ link.now }
{
    let _ = tries(link, caller, arrive(1, 1));
    let _ = tries(link, caller, Command::Depart { moment: 2 });
    let _ = tries(link, caller, Command::Depart { moment: 3 });
    begin(rt, name);
    let folded = if waits {
        fold_two(rt, link, caller)
    } else {
        try_two(link, caller)
    };
    match folded {
        Ok((many, number)) => Seen::done(many, number),
        Err(is_memory) => Seen::refused(is_memory, count(link, caller)),
    }
}

/// Folds by the call that waits for the book, or by the one that never blocks.
pub(crate) fn fold<R: Wait + Print>(rt: &R, alloc: Global, waits: bool, name: &str) -> Seen {
    match Link::open(alloc, limits(8), Params::default_profile(), 0, 2) {
        Ok((link, mut one)) => fold_at(rt, &link, &mut one, waits, name),
        Err(_) => Seen::NOTHING,
    }
}

// ---- a caller that lacks numbers, of the highest one that there can be

/// Returns true if one of each command is accepted.
fn takes_each(link: &Link, caller: &mut Caller) -> bool
    requires own { caller.old.lock ≡ link.now }
    ensures { caller.new.lock ≡ link.now }
{
    let (moment, params) = (15_000_000, Params::default_profile());
    tries(link, caller, arrive(10, 1))
        & tries(link, caller, Command::Depart { moment: 20 })
        & tries(link, caller, Command::Update { moment })
        & tries(link, caller, Command::Reset { moment })
        & tries(link, caller, Command::SetParams { moment, params })
}

/// Returns the number of answers to a burst of two packets, and to departures until none is left.
fn burst<R: Wait>(rt: &R, alloc: Global, link: &Link, caller: &mut Caller) -> u64
    requires own { caller.old.lock ≡ link.now }
    ensures { caller.new.lock ≡ link.now }
{
    let one = arrival(15_000_000, 1);
    let mut answers: Vec<Result<Told<Answer>, Refusal>> = Vec::new(alloc);
    let _ = answers.reserve(5);
    let _ = link.try_arrive_all(caller, &[one, one], &mut answers);
    let _ = link.depart_all(rt, caller, 15_000_000, 3, &mut answers);
    answers.len() as u64
}

/// Returns the sum of the waiting times of packets, as a caller reads it; 0 if the lock is not free.
fn waited(link: &Link, caller: &mut Caller) -> u128
    requires own { caller.old.lock ≡ link.now }
    ensures { caller.new.lock ≡ link.now }
{
    match link.try_stats(caller) {
        Ok(reply) => reply.answer.waited,
        Err(_) => 0,
    }
}

/// Returns the number of the book's last events that a caller receives.
fn received(alloc: Global, link: &Link, caller: &mut Caller) -> usize
    requires own { caller.old.lock ≡ link.now }
    ensures { caller.new.lock ≡ link.now }
{
    let opening = Opening::usual(limits(16), Params::default_profile(), 0);
    let Ok(mut excerpt) = Excerpt::with_room(alloc, opening) else {
        return 0;
    };
    let _ = link.try_excerpt(caller, &mut excerpt);
    excerpt.tail().len()
}

/// Returns true if ten events are made, read and folded.
fn is_done<R: Wait>(rt: &R, alloc: Global, link: &Link, caller: &mut Caller) -> bool
    requires own { caller.old.lock ≡ link.now }
    ensures { caller.new.lock ≡ link.now }
{
    let are_taken = takes_each(link, caller);
    let answers = burst(rt, alloc, link, caller);
    let count = count(link, caller);
    let waited = waited(link, caller);
    let received = received(alloc, link, caller);
    let is_folded = matches!(try_two(link, caller), Ok((2, 2)));
    are_taken && answers == 5 && count == 10 && waited == 10 && received == 10 && is_folded
}

/// Returns true if this caller closes the link, with a book that has the other eight events.
fn closes(link: Link, caller: Caller) -> bool
    requires own { caller.lock ≡ link }
{
    match link.close(caller) {
        Ok(book) => (book.count() == 10) & (book.tail_len() == 8),
        Err(_) => false,
    }
}

/// Returns true if the caller with the highest number receives an answer, and closes the link.
fn shares<R: Wait>(rt: &R, alloc: Global, link: Link, mut caller: Caller) -> bool
    requires own { caller.lock ≡ link }
{
    match link.share(&mut caller) {
        Ok(mut upper) => is_done(rt, alloc, &link, &mut upper) & closes(link, upper),
        Err(_) => false,
    }
}

pub(crate) fn is_answered<R: Wait>(rt: &R, alloc: Global) -> bool {
    match Link::open(alloc, limits(16), Params::default_profile(), 0, 65535) {
        Ok((link, caller)) => shares(rt, alloc, link, caller),
        Err(_) => false,
    }
}
