//! The line in which a record begins, and the first bytes of the text.
ghost use Rattle.std.specs.Prelude.{◌≤◌, IfOk};

use std::io;
use std::io::Read;

/// The number of bytes that are read together.
const CHUNK: usize = 8192;

/// The result of a search.
#[derive(Clone, Copy)]
pub(crate) struct Located {
    /// The number of the line in which the record begins, counted from 1. `None` if the text has no such record.
    pub(crate) line: Option<u64>,
    /// The first bytes of the text, with zeros behind a shorter text.
    pub(crate) head: [u8; 4],
    /// True if the text has no byte.
    pub(crate) is_empty: bool,
}

/// The place of a byte in a text of records, as csv reads it.
#[derive(Clone, Copy)]
enum Position {
    /// Before a record, or an empty line.
    RecordStart,
    /// Before a field.
    FieldStart,
    /// In a field without quotes.
    InField,
    /// In a field with quotes.
    InQuotes,
    /// After a quote in such a field.
    AfterQuote,
}

/// Returns the position after a byte of a field without quotes, and true if the byte ends the record.
fn after_plain_byte(byte: u8) -> (Position, bool) {
    match byte {
        b',' => (Position::FieldStart, false),
        b'\r' | b'\n' => (Position::RecordStart, true),
        _ => (Position::InField, false),
    }
}

impl Position {
    /// Returns the position after a byte, and true if the byte ends the record.
    fn after(self, byte: u8) -> (Position, bool) {
        match (self, byte) {
            (Position::InQuotes, b'"') => (Position::AfterQuote, false),
            (Position::InQuotes, _) | (Position::AfterQuote, b'"') => (Position::InQuotes, false),
            (Position::RecordStart | Position::FieldStart, b'"') => (Position::InQuotes, false),
            (Position::RecordStart, b'\r' | b'\n') => (Position::RecordStart, false),
            _ => after_plain_byte(byte),
        }
    }
}

/// A search for the first line of a record.
#[derive(Clone, Copy)]
struct LineFinder {
    /// The number of records before it that are not yet read to their ends.
    left: u64,
    /// The position of the next byte, if there is such a record.
    position: Position,
    /// The number of the present line.
    line: u64,
    /// The byte before the next one.
    before: u8,
}

impl LineFinder {
    /// Takes the next byte. Returns true if the searched record begins with it.
    fn take(&mut self, byte: u8) -> bool {
        let is_end = byte == b'\r' || byte == b'\n';
        if self.left == 0 && !is_end {
            return true;
        }
        let (position, ends) = self.position.after(byte);
        self.position = position;
        if ends {
            self.left = self.left.saturating_sub(1);
        }
        // A line feed after a carriage return belongs to the end of line before it.
        if byte == b'\r' || (byte == b'\n' && self.before != b'\r') {
            self.line = self.line.saturating_add(1);
        }
        self.before = byte;
        false
    }

    /// Takes the next bytes up to the searched record. Returns its line if it begins there.
    fn take_all(&mut self, bytes: &[u8]) -> Option<u64> {
        for place in 0..bytes.len() {
            let byte = bytes[place];
            // Within a field, the quote, the comma and the ends of lines alone have a meaning: the others are above the comma.
            if byte > b',' && matches!(self.position, Position::InField) {
                self.before = byte;
            } else if self.take(byte) {
                return Some(self.line);
            }
        }
        None
    }

    /// Reads up to the searched record. Returns its line, or `None` if the text has no such record.
    fn find<R: Read>(&mut self, reader: &mut R) -> io::Result<Option<u64>> {
        let mut chunk = [0; CHUNK];
        for _ in 0..u64::MAX {
            let count = reader.read(&mut chunk)?;
            let found = self.take_all(&chunk[..count]);
            if found.is_some() || count == 0 {
                return Ok(found);
            }
        }
        Ok(None)
    }
}

/// Reads the first bytes of a text. Returns their number.
fn read_head<R: Read>(reader: &mut R, head: &mut [u8; 4]) -> io::Result<usize>
    ensures { IfOk result (λ count. count ≤ 4) }
{
    for place in 0..4 {
        let mut one = [0];
        if reader.read(&mut one)? == 0 {
            return Ok(place);
        }
        head[place] = one[0];
    }
    Ok(4)
}

/// Finds the line in which a record of a text begins. `records` records come before it.
///
/// # Errors
///
/// Returns the error of the reader.
pub(crate) fn locate<R: Read>(reader: &mut R, records: u64) -> io::Result<Located> {
    let mut head = [0; 4];
    let count = read_head(reader, &mut head)?;
    let mut finder = LineFinder {
        left: records,
        position: Position::RecordStart,
        line: 1,
        before: 0,
    };
    // The byte order mark of UTF-8 is no part of a record.
    let start = if head[0] == 0xef && head[1] == 0xbb && head[2] == 0xbf {
        3
    } else {
        0
    };
    let line = match finder.take_all(&head[start.min(count)..count]) {
        Some(line) => Some(line),
        None => finder.find(reader)?,
    };
    Ok(Located {
        line,
        head,
        is_empty: count == 0,
    })
}
