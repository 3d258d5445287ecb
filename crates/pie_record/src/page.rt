//! A page: text that waits to be written out, rows or words, many at a time.
ghost use Rattle.std.specs.Prelude.{◌<◌, ◌≡◌, ◌++◌, ◌∷◌, [], ℕ, IfErr, List, OnOk, Option, length, string_bytes, true};
ghost use Rattle.std.specs.Io.KnownBytes.{Appends, append_known};
ghost use Rattle.pie_record.specs.Field.{IsWriteOrMemory};
ghost use Rattle.pie_record.specs.Text.{text_of};
ghost use Rattle.pie_record.specs.declared.fault.TraceFault.{TraceFault};

use crate::{Record, TraceFault};
use std::alloc::{AllocError, Global};
use std::io::Write;
use std::marker::Model;
use std::mem;

/// The number of bytes that are written at a time, at least. At most these bytes and the longest row wait.
const CHUNK: usize = 32000;

/// Text that waits to be written out.
#[derive(Drop)]
pub struct Page {
    bytes: Vec<u8>,
    // The memory of words on their way onto the page.
    words: String,
    alloc: Global,
}

impl Model for Page {
    ghost use Rattle.std.specs.Prelude.{ℕ, List};

    ghost Value = { List ℕ };

    ghost view = { λ page. page.bytes.items };
}

/// Flushes the writer, even if the last write failed. Returns the failure of that write, `written`, if it failed,
/// otherwise that of the flush.
fn flushed<W: Write>(written: Result<(), TraceFault>, writer: &mut W) -> Result<(), TraceFault>
    ensures written { (before : Option (List ℕ)) (bytes : List ℕ) → OnOk written (Appends before (W.contents writer.old) bytes)
        → OnOk result (Appends before (W.contents writer.new) bytes) }
    ensures io { IfErr written IsWriteOrMemory → IfErr result IsWriteOrMemory }
{
    let flushed = writer.flush();
    match written {
        Ok(()) => match flushed {
            Ok(()) => Ok(()),
            Err(_) => Err(TraceFault::Write),
        },
        Err(why) => Err(why),
    }
}

impl Page {
    /// Returns an empty page. Takes no memory.
    pub fn new(alloc: Global) -> Page
        ensures { result ≡ [] }
    {
        Page {
            bytes: Vec::new(alloc),
            words: String::new(alloc),
            alloc,
        }
    }

    /// Returns the allocator of the page's memory.
    pub fn allocator(&self) -> Global {
        self.alloc
    }

    /// Adds bytes.
    ///
    /// # Errors
    ///
    /// `AllocError` if there is no memory for them.
    #[inline(always)]
    pub fn push(&mut self, bytes: &[u8]) -> Result<(), AllocError>
        ensures { OnOk result (self.new ≡ self.old ++ bytes.now) }
    {
        self.bytes.extend_from_slice(bytes)
    }

    /// Returns an empty text for the next words, with the memory of the last ones.
    pub fn words(&mut self) -> String
        ensures empty { string_bytes result ≡ [] }
        ensures kept { self.new ≡ self.old }
    {
        let mut words = mem::replace(&mut self.words, String::new(self.alloc));
        words.clear();
        words
    }

    /// Adds the words, and keeps their memory for later words.
    ///
    /// # Errors
    ///
    /// `AllocError` if there is no memory for them on the page.
    pub fn put(&mut self, words: String) -> Result<(), AllocError>
        ensures { OnOk result (self.new ≡ self.old ++ string_bytes words) }
    {
        let put = self.push(words.as_bytes());
        self.words = words;
        put
    }

    /// Adds the text of rows.
    ///
    /// # Errors
    ///
    /// `Memory`.
    #[inline(always)]
    pub fn text(&mut self, text: &[u8]) -> Result<(), TraceFault>
        ensures added { OnOk result (self.new ≡ self.old ++ text.now) }
        ensures memory { IfErr result (λ why. why ≡ TraceFault.Memory) }
    {
        match self.push(text) {
            Ok(()) => Ok(()),
            Err(_) => Err(TraceFault::Memory),
        }
    }

    /// Adds two texts, one after the other.
    ///
    /// # Errors
    ///
    /// `Memory`.
    #[inline(always)]
    pub fn texts(&mut self, first: &[u8], second: &[u8]) -> Result<(), TraceFault>
        ensures added { OnOk result (self.new ≡ self.old ++ (first.now ++ second.now)) }
        ensures memory { IfErr result (λ why. why ≡ TraceFault.Memory) }
    {
        self.text(first)?;
        self.text(second)
    }

    /// Adds a line and its line feed.
    fn plain(&mut self, line: &[u8]) -> Result<(), TraceFault>
        ensures added { OnOk result (self.new ≡ self.old ++ (line.now ++ 10 ∷ [])) }
        ensures memory { IfErr result (λ why. why ≡ TraceFault.Memory) }
    {
        self.text(line)?;
        match self.bytes.push(b'\n') {
            Ok(()) => Ok(()),
            Err(_) => Err(TraceFault::Memory),
        }
    }

    /// Adds a row of these fields. A plain record is copied as it was read.
    ///
    /// # Errors
    ///
    /// `Memory`.
    pub fn row(&mut self, fields: &Record) -> Result<(), TraceFault>
        ensures added { OnOk result (self.new ≡ self.old ++ text_of fields.now) }
        ensures memory { IfErr result (λ why. why ≡ TraceFault.Memory) }
    {
        if let Some(line) = fields.line() {
            return self.plain(line);
        }
        let text = fields.text(self.alloc)?;
        self.text(text.as_slice())
    }

    /// Returns the bytes of the page.
    pub fn as_bytes(&self) -> &[u8]
        ensures { result.now ≡ self.now }
    {
        self.bytes.as_slice()
    }

    /// Leaves nothing on it.
    pub fn clear(&mut self)
        ensures { self.new ≡ [] }
    {
        self.bytes.clear();
    }

    /// Writes the page out, and leaves it empty. Returns true if that succeeded.
    #[inline(never)]
    fn try_drain<W: Write>(&mut self, writer: &mut W) -> bool
        ensures written { result ≡ true → Appends (W.contents writer.old) (W.contents writer.new) self.old }
        ensures empty { self.new ≡ [] }
    {
        let written = writer.write_all(self.as_bytes());
        self.clear();
        written.is_ok()
    }

    /// Writes the page out, and leaves it empty.
    fn drain<W: Write>(&mut self, writer: &mut W) -> Result<(), TraceFault>
        ensures written { OnOk result (Appends (W.contents writer.old) (W.contents writer.new) self.old) }
        ensures empty { self.new ≡ [] }
        ensures io { IfErr result IsWriteOrMemory }
    {
        if self.try_drain(writer) {
            Ok(())
        } else {
            Err(TraceFault::Write)
        }
    }

    /// Writes the page out if it has at least `CHUNK` bytes.
    ///
    /// # Errors
    ///
    /// `Write`.
    #[tactic(auto, using(crate::proofs::TextFacts::moved_ok, crate::proofs::TextFacts::unmoved))]
    pub fn write_if_full<W: Write>(&mut self, writer: &mut W) -> Result<(), TraceFault>
        ensures moved { OnOk result (Appends (append_known (W.contents writer.old) self.old) (append_known (W.contents writer.new) self.new) []) }
        ensures waits { OnOk result (length self.new < 32000) }
        ensures io { IfErr result IsWriteOrMemory }
    {
        if self.bytes.len() < CHUNK {
            return Ok(());
        }
        self.drain(writer)
    }

    /// Writes the page out, leaves it empty, and flushes the writer, even if the page could not be written. All text
    /// that was added since the page was last empty is then in the writer's bytes.
    ///
    /// # Errors
    ///
    /// `Write`, of the write or of the flush.
    pub fn finish<W: Write>(&mut self, writer: &mut W) -> Result<(), TraceFault>
        ensures written { OnOk result (Appends (W.contents writer.old) (W.contents writer.new) self.old) }
        ensures all { (before : Option (List ℕ)) (text : List ℕ) → Appends (append_known before []) (append_known (W.contents writer.old) self.old) text
            → OnOk result (Appends before (W.contents writer.new) text) }
        ensures empty { self.new ≡ [] }
        ensures io { IfErr result IsWriteOrMemory }
    {
        let written = self.drain(writer);
        flushed(written, writer)
    }
}
