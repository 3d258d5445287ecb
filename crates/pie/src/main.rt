//! `pie`: runs traces of a PIE queue controller (RFC 8033), writes their histories, audits them and explains their events.
#![tactic(auto)]

use pie_commands::{Output, command, word_of_bytes};
use std::env::{Env, FillError};
use std::io::ErrorKind;
use std::process::ExitCode;
use std::{env, io};

fn main(rt: HostRuntime) -> ExitCode {
    let words: Vec<String> = match words(&rt) {
        Some(words) => words,
        None => return ExitCode::from(1),
    };
    let mut output = Output::standard(rt.stdout());
    let (input, errors) = (rt.stdin(), rt.stderr());
    let end = command(&rt, &rt, words.as_slice(), input, &mut output, errors);
    let is_closed = output.is_closed();
    end.report(output.reason(), is_closed, errors);
    ExitCode::from(end.status(is_closed))
}

/// The room for a word of the command line, in bytes. Linux accepts no longer word.
const MAX_WORD: usize = 1 << 17;

/// Returns the words of the command line, one of which is not UTF-8.
fn words_of_bytes(rt: &HostRuntime) -> io::Result<Vec<String>> {
    let mut words = Vec::new(rt.alloc());
    let mut bytes = vec![in rt.alloc(); 0u8; MAX_WORD]?;
    for place in 0..usize::MAX {
        match rt.arg(place, bytes.as_mut_slice()) {
            Ok(len) => words.push(word_of_bytes(rt.alloc(), &bytes[..len])?)?,
            Err(FillError::NotPresent) => break,
            Err(FillError::TooLong) => return Err(io::Error::from(ErrorKind::InvalidInput)),
        }
    }
    Ok(words)
}

/// Returns the words of the command line.
fn all_words(rt: &HostRuntime) -> io::Result<Vec<String>> {
    match env::args(rt) {
        Ok(args) => Ok(args.collect(rt.alloc())?),
        Err(why) => match why.kind() {
            ErrorKind::InvalidData => words_of_bytes(rt),
            _ => Err(why),
        },
    }
}

/// Returns the words of the command line. If memory is short, writes a line to standard error and returns `None`.
fn words(rt: &HostRuntime) -> Option<Vec<String>> {
    match all_words(rt) {
        Ok(words) => Some(words),
        Err(_) => {
            let _ = eprintln!(rt; "pie: out of memory");
            None
        }
    }
}
