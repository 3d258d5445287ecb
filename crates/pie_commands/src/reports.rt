//! Reports for which the loops over the events of a text are compiled once.
ghost use Rattle.either.specs.Either.{IsLeftAnd, IsRightAnd, MatchEither};

use either::{Either, Left, Right};
use pie_explain::{Digest, Explained, Report, Words};
use pie_record::Page;
use std::alloc::AllocError;

/// One of two reports.
#[derive(Drop)]
pub(crate) struct OneOf<A: Report, B: Report>(Either<A, B>);

impl<A: Report, B: Report> Report for OneOf<A, B> {
    type State = Either<A::State, B::State>;

    ghost shows = { λ it state all. MatchEither it.0 (λ one. IsLeftAnd state (λ its. A.shows one its all))
        (λ other. IsRightAnd state (λ its. B.shows other its all)) };

    ghost so_far = { λ it all text. MatchEither it.0 (λ one. A.so_far one all text) (λ other. B.so_far other all text) };

    ghost whole = { λ it all text. MatchEither it.0 (λ one. A.whole one all text) (λ other. B.whole other all text) };

    fn is_by_kind(&self) -> bool {
        false
    }

    fn begin(&self, page: &mut Page) -> Result<Either<A::State, B::State>, AllocError> {
        match &self.0 {
            Left(one) => match one.begin(page) {
                Ok(state) => Ok(Left(state)),
                Err(why) => Err(why),
            },
            Right(other) => match other.begin(page) {
                Ok(state) => Ok(Right(state)),
                Err(why) => Err(why),
            },
        }
    }

    fn report_event(
        &self,
        state: &mut Either<A::State, B::State>,
        explained: &Explained,
        page: &mut Page,
    ) -> Result<(), AllocError> {
        match (&self.0, state) {
            (Left(one), Left(its)) => one.report_event(its, explained, page),
            (Right(other), Right(its)) => other.report_event(its, explained, page),
            _ => Ok(()),
        }
    }

    fn end(&self, state: &Either<A::State, B::State>, page: &mut Page) -> Result<(), AllocError> {
        match (&self.0, state) {
            (Left(one), Left(its)) => one.end(its, page),
            (Right(other), Right(its)) => other.end(its, page),
            _ => Ok(()),
        }
    }
}

/// A report that people read. (Records, and sums of many events, have loops of their own: in a loop with words, all numbers
/// of an explanation are computed.)
pub(crate) type OtherReport = OneOf<Words, Digest>;

/// Returns the report of each event in words.
pub(crate) fn in_words(words: Words) -> OtherReport {
    OneOf(Left(words))
}

/// Returns the report of summaries with the words for lost and marked packets.
pub(crate) fn as_digest(digest: Digest) -> OtherReport {
    OneOf(Right(digest))
}
