//! CSV text as objects of JSON.
use crate::files::Output;
use crate::line::Part::{Hex, Text};
use crate::line::write_parts;
use pie_trace::TraceFault;
use std::alloc::Global;
use std::io;
use std::io::Write;
use std::str::from_utf8;

/// Writes a byte of a string of JSON. Quotes, backslashes and control characters are escaped.
fn write_byte<W: Write>(writer: &mut W, byte: u8) -> io::Result<()> {
    match byte {
        b'"' => writer.write_all(b"\\\""),
        b'\\' => writer.write_all(b"\\\\"),
        0..=31 => write_parts(writer, &[Text("\\u00"), Hex(byte)]),
        _ => writer.write_all(&[byte]),
    }
}

/// Returns true if a string of JSON has no escape for these bytes.
fn is_plain(bytes: &[u8]) -> bool {
    for byte in bytes {
        if matches!(*byte, 0..=31 | b'"' | b'\\') {
            return false;
        }
    }
    true
}

/// Writes a string of JSON with these bytes, in quotes.
///
/// # Errors
///
/// Returns the error of the writer.
pub(crate) fn write_string<W: Write>(writer: &mut W, bytes: &[u8]) -> io::Result<()> {
    writer.write_all(b"\"")?;
    if is_plain(bytes) {
        writer.write_all(bytes)?;
    } else {
        for byte in bytes {
            write_byte(writer, *byte)?;
        }
    }
    writer.write_all(b"\"")
}

/// Returns true if the field is a decimal number below 2^64 without leading zeros.
fn is_number(field: &[u8]) -> bool {
    let is_canonical = field.len() == 1 || !(field.starts_with(b"0") || field.starts_with(b"+"));
    let text = from_utf8(field).unwrap_or("");
    is_canonical && text.parse::<u64>().is_ok()
}

/// Writes the value of a field: `null` if the field is empty, the field itself if it is a decimal number below 2^64
/// without leading zeros, otherwise a string. The value of `queue` is always a string.
fn write_value<W: Write>(writer: &mut W, name: &[u8], field: &[u8]) -> io::Result<()> {
    if name == b"queue".as_slice() {
        return write_string(writer, field);
    }
    if field.is_empty() {
        return writer.write_all(b"null");
    }
    if is_number(field) {
        return writer.write_all(field);
    }
    write_string(writer, field)
}

/// A writer of CSV text in which only the field `queue` may have quotes. The first line has the names of the fields. If it `is_json`, it writes an object
/// of JSON and a line feed (NDJSON) for each further line, with these names; otherwise the text itself. One type for both
/// has one copy of the code that writes to it.
#[derive(Drop)]
pub(crate) struct JsonWriter<'a> {
    output: &'a mut Output,
    is_json: bool,
    /// The first line, with its line feed.
    names: Vec<u8>,
    /// The place of the next field's name in it.
    next: usize,
    /// The bytes of the field under way, without the quotes around it.
    field: Vec<u8>,
    /// The number of quotes in it, modulo 256.
    quotes: u8,
    /// Objects, or withheld text, on their way to the writer.
    objects: Vec<u8>,
    /// True after a write for which there was no memory.
    is_short: bool,
    /// The number of bytes that are withheld at most. 0 after they are released.
    most: usize,
}

impl<'a> JsonWriter<'a> {
    /// Returns a writer of objects, or unless it `is_json` of the text itself. At most `most` bytes of its output are withheld,
    /// until they are released or taken. Takes no memory.
    pub(crate) fn new(
        alloc: Global,
        output: &'a mut Output,
        is_json: bool,
        most: usize,
    ) -> JsonWriter<'a> {
        JsonWriter {
            output,
            is_json,
            names: Vec::new(alloc),
            next: 0,
            field: Vec::new(alloc),
            quotes: 0,
            objects: Vec::new(alloc),
            is_short: false,
            most,
        }
    }

    /// Writes the output that was withheld. Later output is not withheld.
    pub(crate) fn release(&mut self) -> io::Result<()> {
        self.most = 0;
        self.output.write_all(self.objects.as_slice())?;
        self.objects.clear();
        Ok(())
    }

    /// Returns the output that was withheld.
    pub(crate) fn into_withheld(self) -> Vec<u8> {
        let JsonWriter { objects, .. } = self;
        objects
    }

    /// Returns the fault of a text that is written here: if memory was short, a failed write is a lack of memory.
    pub(crate) fn fault_of(&self, why: TraceFault) -> TraceFault {
        match why {
            TraceFault::Write if self.is_short => TraceFault::Memory,
            _ => why,
        }
    }

    /// Writes the member of the field that ends. Writes nothing if it has no name.
    fn end_field(&mut self) -> io::Result<()> {
        let names = self.names.as_slice().get(self.next..).unwrap_or(&[]);
        let Some(end) = names.iter().position(|byte| matches!(*byte, b',' | b'\n')) else {
            return Ok(());
        };
        let lead = if self.next == 0 { b'{' } else { b',' };
        self.objects.push(lead)?;
        let name = names.get(..end).unwrap_or(&[]);
        write_string(&mut self.objects, name)?;
        self.objects.push(b':')?;
        write_value(&mut self.objects, name, self.field.as_slice())?;
        self.next = self.next.saturating_add(end).saturating_add(1);
        self.field.clear();
        self.quotes = 0;
        Ok(())
    }

    /// Adds the objects of a text, or the text itself, to those on their way.
    fn keep(&mut self, text: &[u8]) -> io::Result<()> {
        if !self.is_json {
            return self.objects.write_all(text);
        }
        for byte in text {
            self.read(*byte)?;
        }
        Ok(())
    }

    /// Reads one more byte.
    #[inline(always)]
    fn read(&mut self, byte: u8) -> io::Result<()> {
        if self.names.last() != Some(&b'\n') {
            return Ok(self.names.push(byte)?);
        }
        match (byte, self.quotes % 2) {
            (b'"', _) => {
                // The second one of two quotes within quotes is a byte of the field.
                self.quotes = self.quotes.wrapping_add(1);
                if self.quotes > 1 && self.quotes % 2 == 1 {
                    self.field.push(byte)?;
                }
                Ok(())
            }
            (b',', 0) => self.end_field(),
            (b'\n', 0) => {
                self.end_field()?;
                self.next = 0;
                self.objects.write_all(b"}\n")
            }
            _ => Ok(self.field.push(byte)?),
        }
    }
}

impl Write for JsonWriter<'_> {
    fn write(&mut self, text: &[u8]) -> io::Result<usize> {
        if !self.is_json && self.most == 0 {
            return self.output.write(text);
        }
        if let Err(why) = self.keep(text) {
            self.is_short = true;
            return Err(why);
        }
        if self.objects.len() > self.most {
            self.release()?;
        }
        Ok(text.len())
    }

    fn flush(&mut self) -> io::Result<()> {
        if self.most > 0 {
            return Ok(());
        }
        self.output.flush()
    }
}
