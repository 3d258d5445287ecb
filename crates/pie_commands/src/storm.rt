//! `pie storm`: generates the storm that the options request, and writes its history.
ghost use Rattle.std.specs.Prelude.{◌≡◌, option_map};
ghost use Rattle.clap.specs.Words.{found_of, rows_of};
ghost use Rattle.pie_commands.specs.Storms.{choice_by, decay_in, elements_in, numbers_in};
ghost use Rattle.pie_storm.specs.Plans.{HasStormRange};

use crate::call::Call;
use crate::end::{End, end_failed, end_with_fault};
use crate::files::Output;
use crate::line::Part::{Number, Text};
use crate::line::{say_parts, say_text};
use crate::options::{flag, number_or, report_nearest, text};
use clap::ArgMatches;
use pie_book::{Event, Profile};
use pie_params::{Decay, Delay, Elements, Picking, Size, Step};
use pie_record::first_record::one_of_two;
use pie_record::words::{decay_word, delay_word, picking_word, size_word, step_word};
use pie_storm::{StormNumbers, write_storm};
use pie_trace::TraceFault;
use std::io::Stderr;
use std::marker::Sync;
use std::sync::Wait;
use std::thread::Threads;
use std::time::Clock;

/// The message for an option whose text names none of its choices.
const NO_CHOICE: &str =
    "storm: --delay must be rate or stamp, --picking derandomized or random, --step capped or uncapped, --size unscaled or scaled, \
and --decay zero or half";

/// The options that choose elements, with the keywords of each.
const KEYWORDS: [(&str, [&str; 2]); 5] = [
    ("delay", ["rate", "stamp"]),
    ("picking", ["derandomized", "random"]),
    ("step", ["capped", "uncapped"]),
    ("size", ["unscaled", "scaled"]),
    ("decay", ["zero", "half"]),
];

/// Returns the choice that a word names, of two choices with their keywords: the first without a word, none for another word.
fn choice<T: Copy>(word: Option<&str>, first: &[u8], one: T, second: &[u8], other: T) -> Option<T>
    ensures { result ≡ choice_by first.now one second.now other (option_map (λ word. word.now) word.entry) }
{
    match word {
        Some(word) => one_of_two(first, one, second, other, word.as_bytes()),
        None => Some(one),
    }
}

/// The choice that an option names, of two choices whose keywords the function `$word` returns.
macro_rules! chosen {
    ($name:literal in $options:ident: $word:ident, $one:expr, $other:expr) => {
        choice(text($options, $name), $word($one), $one, $word($other), $other)
    };
}

/// Returns the decay of the probability.
pub(crate) fn decay_of(options: &ArgMatches<'_>) -> Option<Decay>
    ensures { result ≡ decay_in (rows_of (found_of options.now)) }
{
    chosen!("decay" in options: decay_word, Decay::Zero, Decay::Half)
}

/// Returns RFC 8033's optional elements that these options choose, or `None` if a word names no choice.
#[tactic(auto, unfolding(crate::specs::Storms::elements_in))]
fn elements_of(options: &ArgMatches<'_>) -> Option<Elements>
    ensures { result ≡ elements_in (rows_of (found_of options.now)) }
{
    let delay = chosen!("delay" in options: delay_word, Delay::Rate, Delay::Stamp)?;
    let picking =
        chosen!("picking" in options: picking_word, Picking::Derandomized, Picking::Random)?;
    let step = chosen!("step" in options: step_word, Step::Capped, Step::Uncapped)?;
    let size = chosen!("size" in options: size_word, Size::Unscaled, Size::Scaled)?;
    let decay = decay_of(options)?;
    Some(Elements {
        delay,
        picking,
        step,
        size,
        decay,
    })
}

/// Returns the numbers of the plan that these options request, with these elements. Each number has a default for a command line without it.
fn numbers_of(options: &ArgMatches<'_>, elements: Elements) -> StormNumbers
    ensures requested { result ≡ numbers_in elements (rows_of (found_of options.now)) }
    ensures ranges { HasStormRange result }
{
    StormNumbers {
        senders: number_or(options, "senders", 2, 8, 2) as u16,
        packets: number_or(options, "packets", 1, 10_000, 100) as u32,
        burst: number_or(options, "burst", 1, 1024, 1) as u16,
        seed: number_or(options, "seed", 0, u64::MAX, 1),
        load: number_or(options, "load", 50, 200, 100),
        changes: number_or(options, "changes", 0, 100, 0),
        folds: number_or(options, "folds", 0, 100, 0),
        profile: if number_or(options, "profile", 1, 2, 1) == 1 {
            Profile::One
        } else {
            Profile::Two
        },
        elements,
    }
}

/// `pie storm`: runs the storm of these options, audits its events and writes their history. If a text names no
/// choice, the end is `Failed`; if memory or a thread is missing, `CannotStart`; if the writer fails or memory is short
/// meanwhile, a fault; otherwise `Done`.
pub(crate) fn storm<H: Threads + Wait + Clock + Sync>(
    threads: &H,
    call: &Call<'_, '_>,
    output: &mut Output,
) -> End {
    let (alloc, errors) = (call.alloc, call.errors);
    let Some(elements) = elements_of(call.options) else {
        let end = end_failed(errors, NO_CHOICE);
        for (name, keywords) in KEYWORDS {
            report_nearest(call, name, &keywords);
        }
        return end;
    };
    let made = match pie_storm::make_storm(threads, alloc, numbers_of(call.options, elements)) {
        Ok(made) => made,
        Err(why) => {
            say_text(errors, &[], why);
            return End::CannotStart;
        }
    };
    let events = made.end.events.as_slice();
    report_counts(call.options, events, errors);
    let written = write_storm(alloc, &made.plan, events, output);
    drop(made);
    match written {
        Ok(()) => End::Done,
        Err(TraceFault::Memory) => end_with_fault(errors, TraceFault::Memory),
        Err(_) => End::Fault(TraceFault::Write),
    }
}

/// Returns the number of events whose caller is not the caller of the event before.
fn changes_of_caller(events: &[Event]) -> u64 {
    let mut changes = 0;
    for place in 1..events.len() {
        let is_change = events[place].caller != events[place - 1].caller;
        changes = u64::saturating_add(changes, u64::from(is_change));
    }
    changes
}

/// If the options request it, writes the number of events and of changes of caller to `errors`.
fn report_counts(options: &ArgMatches<'_>, events: &[Event], errors: Stderr) {
    if flag(options, "count") {
        say_parts! { errors;
            Number(events.len() as u64), Text(" events, "), Number(changes_of_caller(events)),
            Text(" changes of caller")
        };
    }
}
