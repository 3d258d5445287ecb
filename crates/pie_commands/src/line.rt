//! Lines on the error stream and on the output, as lists of their parts.

use crate::name::{write_hex, write_name, write_word};
use itoa::Buffer;
use std::fmt::Display;
use std::io;
use std::io::{Stderr, Write};

/// A part of a line.
#[derive(Clone, Copy)]
pub(crate) enum Part<'a> {
    Text(&'a str),
    /// Bytes of which each that is not a printable character of ASCII is escaped, as in a byte string of Rust.
    Ascii(&'a [u8]),
    Number(u64),
    Wide(u128),
    /// Two hexadecimal digits.
    Hex(u8),
    /// The name of a file (`write_name`).
    Name(&'a str),
    /// The name of a file in a command for a shell (`write_word`).
    Word(&'a str),
}

/// Writes a line as `say` does, or the parts of a line as `write_parts` does, to a stream before a semicolon. `parts!` is a list of parts.
/// (The formatter leaves several parts on a line.)
macro_rules! say_parts {
    ($errors:expr; $($part:expr),+) => { $crate::line::say($errors, &[$($part),+]) };
}

macro_rules! put_parts {
    ($output:expr; $($part:expr),+) => { $crate::line::write_parts($output, &[$($part),+]) };
}

macro_rules! parts {
    ($($part:expr),+) => { &[$($part),+] };
}

pub(crate) use parts;
pub(crate) use put_parts;
pub(crate) use say_parts;

impl Part<'_> {
    /// Writes the part.
    fn write<W: Write>(self, output: &mut W) -> io::Result<()> {
        match self {
            Part::Text(text) => output.write_all(text.as_bytes()),
            Part::Ascii(bytes) => write_ascii(bytes, output),
            Part::Number(number) => output.write_all(Buffer::new().format(number).as_bytes()),
            Part::Wide(number) => output.write_all(Buffer::new().format(number).as_bytes()),
            Part::Hex(byte) => write_hex(byte, output),
            Part::Name(name) => write_name(name, output),
            Part::Word(name) => write_word(name, output),
        }
    }
}

/// Writes bytes with escapes.
fn write_ascii<W: Write>(bytes: &[u8], output: &mut W) -> io::Result<()> {
    for byte in bytes.escape_ascii() {
        output.write_all(&[byte])?;
    }
    Ok(())
}

/// Writes the parts of a line.
///
/// # Errors
///
/// Returns the error of the writer.
pub(crate) fn write_parts<W: Write>(output: &mut W, parts: &[Part<'_>]) -> io::Result<()> {
    for part in parts {
        part.write(output)?;
    }
    Ok(())
}

/// Writes a line on the error stream. Ignores a failed write.
pub(crate) fn say(errors: Stderr, parts: &[Part<'_>]) {
    let mut errors = errors;
    let _ = errors.write_all(b"pie: ");
    let _ = write_parts(&mut errors, parts);
    let _ = errors.write_all(b"\n");
}

/// Writes a line of these parts and a text on the error stream. Ignores a failed write.
#[inline(never)]
pub(crate) fn say_text<D: Display + Drop>(errors: Stderr, parts: &[Part<'_>], text: D) {
    let mut errors = errors;
    let _ = errors.write_all(b"pie: ");
    let _ = write_parts(&mut errors, parts);
    let _ = writeln!(errors, "{text}");
}

/// Returns the beginning of a line about the file `name`, if it has a name.
pub(crate) fn lead(name: Option<&str>) -> [Part<'_>; 2] {
    match name {
        Some(name) => [Part::Name(name), Part::Text(": ")],
        None => [Part::Text(""), Part::Text("")],
    }
}
