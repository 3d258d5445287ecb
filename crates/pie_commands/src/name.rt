//! Names of files in lines for a reader, and in commands for a shell.

use std::io;
use std::io::Write;

/// The digits of hexadecimal numbers.
const DIGITS: &[u8; 16] = b"0123456789abcdef";

/// Writes a byte as two digits.
pub(crate) fn write_hex<W: Write>(byte: u8, output: &mut W) -> io::Result<()> {
    let (high, low) = (usize::from(byte >> 4), usize::from(byte & 15));
    output.write_all(&[DIGITS[high], DIGITS[low]])
}

/// Returns the name without the NUL behind a name that is not UTF-8.
fn without_mark(name: &str) -> &str {
    name.strip_suffix('\0').unwrap_or(name)
}

/// Writes a name in a line. A control character is written with a backslash, as in a string of Rust.
pub(crate) fn write_name<W: Write>(name: &str, output: &mut W) -> io::Result<()> {
    for character in without_mark(name).chars() {
        write_character(character, output)?;
    }
    Ok(())
}

/// Writes a character; a control character has a backslash.
fn write_character<W: Write>(character: char, output: &mut W) -> io::Result<()> {
    if !character.is_control() {
        let mut bytes = [0; 4];
        return output.write_all(character.encode_utf8(&mut bytes).as_bytes());
    }
    let escape = match character {
        '\n' => "\\n",
        '\t' => "\\t",
        '\r' => "\\r",
        '\0'..='\x7f' => "\\x",
        _ => "\\u00",
    };
    output.write_all(escape.as_bytes())?;
    match (character, u8::try_from(u32::from(character))) {
        ('\n' | '\t' | '\r', _) | (_, Err(_)) => Ok(()),
        (_, Ok(code)) => write_hex(code, output),
    }
}

/// Returns true if the character has no meaning for a shell.
fn is_plain(character: char) -> bool {
    let is_sign = matches!(
        character,
        '/' | '.' | '_' | '-' | '+' | ',' | ':' | '=' | '@' | '%'
    );
    is_sign
        || character.is_ascii_alphanumeric()
        || !(character.is_ascii() || character.is_control())
}

/// Writes a name in a command, as a word of a shell: itself, or in quotes if a character has a meaning for a shell.
pub(crate) fn write_word<W: Write>(name: &str, output: &mut W) -> io::Result<()> {
    let name = without_mark(name);
    if name.starts_with('-') && name != "-" {
        output.write_all(b"./")?;
    }
    if !name.is_empty() && name.chars().all(is_plain) {
        return output.write_all(name.as_bytes());
    }
    write_quoted(name, name.chars().any(char::is_control), output)
}

/// Writes a text within single quotes of a shell. If it `is_escaped`, a dollar precedes them, and a control character has a
/// backslash.
fn write_quoted<W: Write>(text: &str, is_escaped: bool, output: &mut W) -> io::Result<()> {
    output.write_all(if is_escaped { b"$'" } else { b"'" })?;
    for character in text.chars() {
        let written = match character {
            '\'' if is_escaped => output.write_all(b"\\'"),
            '\\' if is_escaped => output.write_all(b"\\\\"),
            '\'' => output.write_all(b"'\\''"),
            _ => write_character(character, output),
        };
        written?;
    }
    output.write_all(b"'")
}
