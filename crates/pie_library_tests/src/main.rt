//! `pie_library_tests`: tests of properties that no clause states and no script can observe, and the cost of an event.
//! Its argument names the part; without an argument it runs all tests.
//!
//! `calls` makes calls that may run out of memory, one after another, and prints their answers and effects;
//! `tests/libraries/refused_memory.py` makes each request for memory of each call fail in turn. `tests` prints
//! the result of each test, and `sleepers` that of the test whose system calls `bench/pie_lock_calls.sh` counts.
//! `pace` prints the result of a test for a storm with a thread that starts late.
//! `book` measures (bench/README.md).
#![tactic(auto)]

mod books;
mod event_costs;
mod flushes;
mod links;
mod lock;
mod report;
mod rows;
mod storms;
mod words;

use crate::flushes::WRITES;
use crate::report::{Report, print_numbers, say};
use std::alloc::Global;
use std::rt::Clock;
use std::sync::Wait;
use std::thread::Threads;
use std::{env, io};

fn main(rt: HostRuntime) -> io::Result<()> {
    let mut words = env::args(&rt)?;
    let _program = words.next();
    run(&rt, rt.alloc(), words.next())
}

/// Runs the part with this name; without a name, every test.
fn run<R: Threads + Wait + Clock + Print + Sync>(
    rt: &R,
    alloc: Global,
    name: Option<String>,
) -> io::Result<()> {
    let mut report = Report::new(rt);
    match name {
        Some(name) => part(&mut report, alloc, name.as_str()),
        None => {
            calls(&mut report, alloc);
            tests(&mut report, alloc);
        }
    }
    report.end()
}

fn part<R: Threads + Wait + Clock + Print + Sync>(to: &mut Report<R>, alloc: Global, name: &str) {
    match name {
        "calls" => calls(to, alloc),
        "sleepers" => sleepers(to, alloc),
        "pace" => pace(to, alloc),
        "book" => event_costs::measure(to, alloc),
        _ => tests(to, alloc),
    }
}

/// Prints the result of each of these calls.
macro_rules! print_calls {
    ($to:ident, $alloc:ident: $($name:literal $call:path $(, $waits:literal)?;)*) => {
        $(let seen = $call($to.rt, $alloc, $($waits,)? $name);
        print_numbers($to, $name, seen);)*
    };
}

/// Prints the result of each of these tests.
macro_rules! print_tests {
    ($to:ident: $($name:literal $test:expr;)*) => { $(let holds = $test; say($to, $name, holds);)* };
}

/// Makes each call that can run out of memory and that no program makes so, and prints its result.
fn calls<R: Wait + Clock + Print>(to: &mut Report<R>, alloc: Global) {
    print_calls!(to, alloc:
        "Book::fold" books::fold;
        "write_excerpt" books::excerpt;
        "Link::open_with" links::open;
        "Link::try_fold" links::fold, false;
        "Link::fold" links::fold, true;
    );
}

/// Prints the result of each test.
fn tests<R: Threads + Wait + Clock + Print + Sync>(to: &mut Report<R>, alloc: Global) {
    for place in 0..WRITES.len() {
        let (writes, name) = WRITES[place];
        say(to, name, writes.reports_its_flush(alloc));
    }
    print_tests!(to:
        "rules_by_worked_rows" rows::are_rules_followed();
        "refusals_in_words" words::refusals_in_words(alloc);
        "the_largest_ring" words::the_largest_ring(alloc);
        "a_core_decides_worked_histories" rows::core_decides(alloc);
        "a_book_decides_worked_histories_and_folds" rows::book_decides(alloc);
        "a_fault_of_a_history_is_repeated" rows::faults_are_repeated(alloc);
        "quoted_records_are_copied" rows::quoted_records_are_copied(alloc);
        "a_failed_write_is_followed_by_a_flush" flushes::failed_writes_are_flushed(alloc);
        "an_explanation_without_memory_is_flushed" flushes::explanations_are_flushed(alloc);
        "runs_end_with_registers_and_statistics" rows::runs_end(alloc);
        "runs_are_bounded_by_records" rows::runs_are_bounded(alloc);
        "a_history_without_an_end_is_read" rows::lines_come(alloc);
        "a_queue_of_two_packets" rows::queue_is_first_in_first_out(alloc);
        "calls_that_nothing_else_makes" words::calls_that_nothing_else_makes(alloc);
        "a_caller_of_65535_is_answered_and_closes" links::is_answered(to.rt, alloc);
        "a_held_sender_comes_last" storms::held_comes_last(to.rt, alloc);
        "senders_see_the_flags_of_all_others" storms::flags_are_seen(to.rt, alloc);
        "folds_and_a_change_take_part" storms::folds_take_part(to.rt, alloc);
        "folds_that_come_too_early_are_passed_over" storms::early_folds_are_passed_over(to.rt, alloc);
        "plans_of_storms_are_checked" storms::plans_are_checked(to.rt, alloc);
        "a_storm_keeps_its_pace" storms::pace_is_kept(to.rt, alloc);
    );
    sleepers(to, alloc);
}

/// Runs the test that threads which sleep at a held lock wake.
fn sleepers<R: Threads + Wait + Clock + Print + Sync>(to: &mut Report<R>, alloc: Global) {
    let wake = lock::all_wake(to.rt, alloc);
    say(to, "those_that_sleep_at_a_held_lock_all_wake", wake);
}

/// Runs the test that a storm reports a lost pace.
fn pace<R: Threads + Wait + Clock + Print + Sync>(to: &mut Report<R>, alloc: Global) {
    let lost = storms::pace_is_lost(to.rt, alloc);
    say(to, "a_storm_reports_a_lost_pace", lost);
}
