//! The beginning of a field's text.

use pie_record::Record;
use std::io;
use std::io::Write;

/// The greatest number of bytes of a field that a message repeats.
const MAX_QUOTED: usize = 40;

/// The first bytes of a field, and the number of its bytes.
#[derive(Clone, Copy)]
pub(crate) struct Quoted {
    bytes: [u8; MAX_QUOTED],
    length: usize,
}

impl Quoted {
    /// Copies the beginning of the field at `place` of the record, or of no field.
    pub(crate) fn of(row: &Record, place: usize) -> Quoted {
        let field = row.get(place).unwrap_or(b"");
        let mut bytes = [0; MAX_QUOTED];
        let count = field.len().min(MAX_QUOTED);
        bytes[..count].copy_from_slice(&field[..count]);
        Quoted {
            bytes,
            length: field.len(),
        }
    }

    /// Writes the bytes in double quotes, with escapes as in Rust's byte strings. If the field is longer, writes the
    /// number of its other bytes.
    pub(crate) fn write<W: Write>(&self, writer: &mut W) -> io::Result<()> {
        writer.write_all(b"\"")?;
        for place in 0..self.length.min(MAX_QUOTED) {
            write_byte(self.bytes[place], writer)?;
        }
        writer.write_all(b"\"")?;
        if self.length > MAX_QUOTED {
            let others = self.length - MAX_QUOTED;
            write!(writer, " and {others} more bytes")?;
        }
        Ok(())
    }
}

/// Writes a byte: a letter, digit or sign of ASCII as it is, a quote or backslash after a backslash, a line feed,
/// carriage return or tab as in Rust's byte strings, and any other byte as a backslash, the letter x and two
/// hexadecimal digits.
fn write_byte<W: Write>(byte: u8, writer: &mut W) -> io::Result<()> {
    match byte {
        b'"' | b'\\' => writer.write_all(&[b'\\', byte]),
        b' '..=b'~' => writer.write_all(&[byte]),
        b'\n' => writer.write_all(b"\\n"),
        b'\r' => writer.write_all(b"\\r"),
        b'\t' => writer.write_all(b"\\t"),
        _ => write!(writer, "\\x{byte:02x}"),
    }
}
