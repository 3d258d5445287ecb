//! The rule of the lock's table, and the facts that its steps give.
ghost use Rattle.std.specs.Prelude.{List, []};
ghost use Rattle.pie_lock.specs.Rule.{looked, taken, freed, merged, all_but_highest, highest, meeting};
ghost use Rattle.pie_lock.specs.declared.entries.SeatKnowledge.TheVariants.{Spent};

use crate::entries::{Kept, LockOpening, SeatKnowledge};
use atomic_table::{Join, Play, Split, TableRule};
use std::marker::{Brand, PhantomData};

/// The rule of the lock's table.
pub struct LockRule;

impl<S: Kept> TableRule<Option<S>, SeatKnowledge<S::Entry, S::Origin>, LockOpening<S>>
    for LockRule {
    ghost use Rattle.pie_lock.specs.Rule.{Ruled, opened};

    ghost holds = { λ key. Ruled S.number_of S.origin_of S.represents_list (S.origin_of key.state.value) key.numbers };

    ghost first = { λ key. opened (S.origin_of key.state.value) key.numbers };
}

/// A load of the word.
pub(crate) struct LookStep;

impl<S: Kept> Play<Option<S>, SeatKnowledge<S::Entry, S::Origin>> for LookStep {
    ghost then = { looked };
}

/// The exchange of FREE for HELD, which takes the lock.
pub(crate) struct TakeStep;

impl<S: Kept> Play<Option<S>, SeatKnowledge<S::Entry, S::Origin>> for TakeStep {
    ghost then = { taken S.number_of S.origin_of S.represents_list };
}

/// The entries that a put appends to the history, for the prover alone. Each put names its own.
pub(crate) trait Adding<E> {
    ghost added: { List E };
}

impl<E> Adding<E> for Brand {
    ghost added = { [] };
}

/// The store of FREE by a put with these entries.
pub(crate) struct FreeStep<J>(PhantomData<J>);

impl<S: Kept, J: Adding<S::Entry>> Play<Option<S>, SeatKnowledge<S::Entry, S::Origin>>
    for FreeStep<J> {
    ghost then = { freed J.added };
}

/// A load that makes one pass of the two passes of a seat.
pub(crate) struct MergeStep;

impl<S: Kept> Play<Option<S>, SeatKnowledge<S::Entry, S::Origin>> for MergeStep {
    ghost then = { merged S.number_of };
}

/// The split of a seat: the highest number of its pass goes to a new seat.
pub(crate) struct SplitHighest;

impl<E, O> Split<SeatKnowledge<E, O>> for SplitHighest {
    ghost left = { all_but_highest };

    ghost right = { highest };
}

/// The join of two seats: one has both passes then, and the other none.
pub(crate) struct JoinTwo;

impl<E, O> Join<SeatKnowledge<E, O>> for JoinTwo {
    ghost both = { meeting };

    ghost spent = { Spent };
}
