//! The link: opening, sharing and closing.
ghost use Rattle.std.specs.Prelude.{◌≡◌, ◌+◌, ◌<◌, ◌≤◌, ◌↔◌, [], All, Some, None, IsOk, IsErr, IfOk, IfErr, IfSome, OnOk, OnErr, List};
ghost use Rattle.pie_params.specs.Params.{first_bad, usual};
ghost use Rattle.pie_event.specs.Event.{opening_refusal};
ghost use Rattle.pie_event.specs.declared.opening.Mode.TheVariants.{Bounded};
ghost use Rattle.pie_event.specs.declared.opening.Profile.TheVariants.{One};
ghost use Rattle.pie_link.specs.declared.entry.Entry.{Entry};

use crate::caller::Caller;
use crate::entry::{Entry, LinkRefusal};
use crate::kept_book::KeptBook;
use atomic_table::TableRule;
use pie_book::{Book, Limits, OpenRefusal, Opening};
use pie_lock::{LockOpening, LockRule, OneNumber, Pass, RuledLock, SeatKnowledge, StillHeld};
use pie_params::Params;
use std::alloc::Global;
use std::marker::Model;

/// A book that several callers share.
#[derive(Drop)]
pub struct Link {
    pub(crate) lock: RuledLock<KeptBook>,
    pub(crate) alloc: Global,
}

impl Model for Link {
    ghost use Rattle.pie_link.specs.Callers.{LinkView};

    ghost Value = { LinkView };

    ghost view = { λ l. l.lock };
}

impl Link {
    ghost use Rattle.pie_book.specs.Book.{BookRepresents};
    ghost use Rattle.pie_lock.specs.Rule.{HasAllNumbers, first_pass, without_highest, highest_alone, IsBeside, IsBothOf};
    ghost use Rattle.pie_link.specs.Entries.{number_of, RepresentsEntries};
    ghost use Rattle.pie_link.specs.Callers.{IsHistoryFor};
    ghost use Rattle.pie_link.specs.Headline.{KeepsOneHistory, link_refusal, IsRefusedFor};

    /// Opens a link around a bounded book of profile one with the usual elements: `open_with` at `Opening::usual`.
    ///
    /// # Errors
    ///
    /// Those of `open_with`.
    pub fn open(
        alloc: Global,
        limits: Limits,
        params: Params,
        moment: u64,
        callers: u16,
    ) -> Result<(Link, Caller), LinkRefusal>
        ensures refused { IfErr result (IsRefusedFor (link_refusal limits moment callers)) }
        ensures allowed { OnOk result (link_refusal limits moment callers ≡ None) }
        ensures opening { IfOk result (λ opened. opened.0.origin
            ≡ Some (record { moment = moment; limits = limits; params = params; choices = record { mode = Bounded; profile = One; elements = usual } })) }
        ensures callers { IfOk result (λ opened. opened.0.numbers ≡ callers) }
        ensures caller { IfOk result (λ opened. opened.1 ≡ first_pass opened.0 callers) }
        ensures headline { IfOk result (λ opened. KeepsOneHistory
            ⟦<LockRule as TableRule<Option<KeptBook>, SeatKnowledge<Entry, Opening>, LockOpening<KeptBook>>>⟧.holds opened.0) }
    {
        Link::open_with(alloc, Opening::usual(limits, params, moment), callers)
    }

    /// Opens a link around a book with this opening and an empty queue, and a caller with the numbers `0..callers` and
    /// an empty front. After this call only folds allocate.
    ///
    /// # Errors
    ///
    /// In this order: `Book` with `BadLimits` if a limit is out of its range, or with `Moment` if the moment is above
    /// `2^60 - 1`; `NoCallers` if `callers` is 0; `Book` with `Memory`, or `Memory`.
    pub fn open_with(
        alloc: Global,
        opening: Opening,
        callers: u16,
    ) -> Result<(Link, Caller), LinkRefusal>
        ensures refused { IfErr result (IsRefusedFor (link_refusal opening.limits opening.moment callers)) }
        ensures allowed { OnOk result (link_refusal opening.limits opening.moment callers ≡ None) }
        ensures opening { IfOk result (λ opened. opened.0.origin ≡ Some opening) }
        ensures callers { IfOk result (λ opened. opened.0.numbers ≡ callers) }
        ensures caller { IfOk result (λ opened. opened.1 ≡ first_pass opened.0 callers) }
        ensures headline { IfOk result (λ opened. KeepsOneHistory
            ⟦<LockRule as TableRule<Option<KeptBook>, SeatKnowledge<Entry, Opening>, LockOpening<KeptBook>>>⟧.holds opened.0) }
    {
        are_in_range(&opening);
        let book = match Book::open_with(alloc, opening) {
            Ok(book) => book,
            Err(OpenRefusal::Memory) if callers == 0 => return Err(LinkRefusal::NoCallers),
            Err(why) => return Err(LinkRefusal::Book(why)),
        };
        if callers == 0 {
            return Err(LinkRefusal::NoCallers);
        }
        pie_book::law::registers_look_back();
        match Link::lock_over(alloc, book, callers) {
            Some((lock, pass)) => Ok((Link { lock, alloc }, Caller { pass })),
            None => Err(LinkRefusal::Memory),
        }
    }

    // Returns the lock around a new book, and the pass with all its numbers, if there is memory for them. It is apart
    // from `open_with`, because each way out drops the book.
    fn lock_over(
        alloc: Global,
        book: Book,
        callers: u16,
    ) -> Option<(RuledLock<KeptBook>, Pass<KeptBook>)>
        requires new { BookRepresents book [] }
        requires tail { book.tail ≡ [] }
        requires room { 1 ≤ book.opening.limits.tail }
        requires accepted { opening_refusal book.opening.limits book.opening.moment ≡ None }
        requires in_range { first_bad book.opening.params ≡ None }
        ensures origin { IfSome result (λ opened. opened.0.origin ≡ Some book.opening) }
        ensures numbers { IfSome result (λ opened. opened.0.numbers ≡ callers) }
        ensures pass { IfSome result (λ opened. opened.1 ≡ first_pass opened.0 callers) }
    {
        let Ok(book) = Box::new(alloc, book) else {
            return None;
        };
        match RuledLock::new(alloc, KeptBook::new(book), callers) {
            Ok(opened) => Some(opened),
            Err(_) => None,
        }
    }

    /// Returns a new caller with the highest number of `caller` and the same front.
    ///
    /// # Errors
    ///
    /// `OneNumber` if `caller` has one number. It is unchanged then.
    pub fn share(&self, caller: &mut Caller) -> Result<Caller, OneNumber>
        requires own { caller.old.lock ≡ self.now }
        ensures rest { OnOk result (caller.new ≡ without_highest caller.old) }
        ensures shared { IfOk result (λ new. new ≡ highest_alone caller.old) }
        ensures one_number { IsErr result ↔ (caller.old.limit ≡ caller.old.first + 1) }
        ensures unchanged { OnErr result (caller.new ≡ caller.old) }
    {
        match self.lock.share(&mut caller.pass) {
            Ok(pass) => Ok(Caller { pass }),
            Err(one) => Err(one),
        }
    }

    /// Joins `other` to `caller`, which then has both ranges and the longer front.
    ///
    /// # Errors
    ///
    /// Returns `other` if the ranges are not adjacent: neither's `limit()` is the other's `first()`. Both are unchanged
    /// then.
    pub fn gather(&self, caller: &mut Caller, other: Caller) -> Result<(), Caller>
        requires own { (caller.old.lock ≡ self.now) × (other.lock ≡ self.now) }
        ensures both { OnOk result (IsBothOf number_of caller.old other caller.new) }
        ensures beside { IsOk result ↔ IsBeside caller.old other }
        ensures back { IfErr result (λ back. back ≡ other) }
        ensures unchanged { OnErr result (caller.new ≡ caller.old) }
    {
        match self.lock.gather(&mut caller.pass, other.pass) {
            Ok(()) => Ok(()),
            Err(pass) => Err(Caller { pass }),
        }
    }

    /// Closes the link and returns the book. It never blocks. A caller with all numbers always closes the link.
    ///
    /// # Errors
    ///
    /// If another caller has the book, returns the link and the caller unchanged.
    pub fn close(self, caller: Caller) -> Result<Book, (Link, Caller)>
        requires own { caller.lock ≡ self }
        ensures opening { IfOk result (λ book. caller.lock.origin ≡ Some book.opening) }
        ensures kept { IfOk result (λ book. (history : List Entry) × IsHistoryFor book.opening caller history × RepresentsEntries book history) }
        ensures alone { HasAllNumbers caller → IsOk result }
        ensures same { HasAllNumbers caller → IfOk result (λ book. RepresentsEntries book caller.front) }
        ensures numbered { HasAllNumbers caller → IfOk result (λ _. All (λ entry. number_of entry < caller.lock.numbers) caller.front) }
        ensures still_held { IfErr result (λ back. (back.0 ≡ self) × (back.1 ≡ caller)) }
    {
        let alloc = self.alloc;
        match self.lock.close(caller.pass) {
            Ok(kept) => Ok(kept.into_book()),
            Err(StillHeld { lock, pass }) => Err((Link { lock, alloc }, Caller { pass })),
        }
    }
}

// Does nothing. Its contract: the parameters of an opening are in their ranges, by their type.
fn are_in_range(opening: &Opening)
    ensures { first_bad opening.now.params ≡ None }
{
    let _ = opening.params.raw();
}
