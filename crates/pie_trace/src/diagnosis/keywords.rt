//! The keywords that a field allows.

use pie_event::{Mode, Profile};
use pie_params::{Decay, Delay, Picking, Size, Step};
use pie_queue::Ecn;
use pie_record::Record;
use pie_record::field::has_word;
use pie_record::words::{
    AnswerKeyword, decay_word, delay_word, ecn_text, mode_word, picking_word, profile_number,
    size_word, step_word,
};

/// A set of keywords, one of which is the content of a field.
#[derive(Clone, Copy)]
pub(crate) enum Keywords {
    /// The ECN field of a packet (RFC 3168).
    Ecn,
    /// The verdict on an arrival.
    Verdict,
    /// The answer of a departure that found no packet.
    Empty,
    /// The answer of a departure with a packet.
    Left,
    /// The answer of a reset, and of new parameters.
    Done,
    /// The number of a profile.
    Profile,
    /// The source of the delay.
    Delay,
    /// The picking of packets.
    Picking,
    /// The bound on an update's step.
    Step,
    /// The scaling by packet size.
    Size,
    /// The decay of the probability.
    Decay,
    /// The mode of a book.
    Mode,
}

/// The greatest number of keywords of a set.
pub(crate) const MAX_KEYWORDS: usize = 5;

impl Keywords {
    /// Returns the keyword with this number, counted from 0. `None` after the last.
    pub(crate) fn word(self, number: usize) -> Option<&'static [u8]> {
        let word = match (self, number) {
            (Keywords::Ecn, 0) => ecn_text(Ecn::NotEct).as_bytes(),
            (Keywords::Ecn, 1) => ecn_text(Ecn::Ect0).as_bytes(),
            (Keywords::Ecn, 2) => ecn_text(Ecn::Ect1).as_bytes(),
            (Keywords::Ecn, 3) => ecn_text(Ecn::Ce).as_bytes(),
            (Keywords::Verdict, 0) => AnswerKeyword::Enqueue.text().as_bytes(),
            (Keywords::Verdict, 1) => AnswerKeyword::Mark.text().as_bytes(),
            (Keywords::Verdict, 2) => AnswerKeyword::Early.text().as_bytes(),
            (Keywords::Verdict, 3) => AnswerKeyword::Bytes.text().as_bytes(),
            (Keywords::Verdict, 4) => AnswerKeyword::Packets.text().as_bytes(),
            (Keywords::Empty, 0) => AnswerKeyword::Empty.text().as_bytes(),
            (Keywords::Left, 0) => AnswerKeyword::Left.text().as_bytes(),
            (Keywords::Done, 0) => AnswerKeyword::Done.text().as_bytes(),
            (Keywords::Profile, 0) => profile_number(Profile::One),
            (Keywords::Profile, 1) => profile_number(Profile::Two),
            (Keywords::Delay, 0) => delay_word(Delay::Rate),
            (Keywords::Delay, 1) => delay_word(Delay::Stamp),
            (Keywords::Picking, 0) => picking_word(Picking::Derandomized),
            (Keywords::Picking, 1) => picking_word(Picking::Random),
            (Keywords::Step, 0) => step_word(Step::Capped),
            (Keywords::Step, 1) => step_word(Step::Uncapped),
            (Keywords::Size, 0) => size_word(Size::Unscaled),
            (Keywords::Size, 1) => size_word(Size::Scaled),
            (Keywords::Decay, 0) => decay_word(Decay::Zero),
            (Keywords::Decay, 1) => decay_word(Decay::Half),
            (Keywords::Mode, 0) => mode_word(Mode::Bounded),
            (Keywords::Mode, 1) => mode_word(Mode::Rolling),
            _ => return None,
        };
        Some(word)
    }

    /// Returns true if the field at `place` of the record is one of the keywords.
    pub(crate) fn has(self, row: &Record, place: usize) -> bool {
        for number in 0..MAX_KEYWORDS {
            match self.word(number) {
                Some(word) if has_word(row, place, word) => return true,
                _ => {}
            }
        }
        false
    }
}
