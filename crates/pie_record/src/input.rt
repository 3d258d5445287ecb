//! The bytes of a reader, read many at a time.
ghost use Rattle.std.specs.Prelude.{◌≡◌, ◌+◌, ◌-◌, ◌∷◌, ◌≤◌, ◌<◌, slice_range, take};
ghost use Rattle.pie_record.specs.{[], IfOk, OnOk, length, Keeps, IsAtEnd, Consumes, prepend_known, TakesLine};

use crate::fault::ReadFailure;
use crate::record::Found;
use crate::scan::{BLOCK, MAX_FIELDS, MAX_LINE, Stop, scan};
use std::alloc::Global;
use std::io;
use std::io::Read;
use std::marker::Model;

/// The number of bytes that are read at a time.
const CHUNK: usize = 1 << 18;

/// A reader, and the bytes that were read ahead. A contract sees the bytes that are left, if the reader's are known.
#[derive(Drop)]
pub(crate) struct Input<R: Read> {
    reader: R,
    // The buffer. Its bytes from `at` to `end` were read and are left.
    bytes: Vec<u8>,
    at: usize,
    end: usize,
}

impl<R: Read> Model for Input<R> {
    ghost use Rattle.std.specs.Prelude.{ℕ, List, ◌≤◌, length};
    ghost use Rattle.std.specs.List.{slice_range};
    ghost use Rattle.pie_record.specs.{Option, prepend_known};

    ghost Value = { Option (List ℕ) };

    ghost view = { λ input. prepend_known (slice_range input.bytes.items input.at input.end) (R.remaining input.reader) };

    ghost invariant = { λ input. (input.at ≤ input.end) × (input.end ≤ length input.bytes.items) };
}

// Reads once, behind the first `kept` bytes. Returns the number of bytes read. The last bytes are left out, so that a scan of a line before them does
// not end with the buffer.
#[inline(never)]
fn read_behind<R: Read>(reader: &mut R, bytes: &mut [u8], kept: usize) -> io::Result<usize>
    requires { kept ≤ length bytes.old }
    ensures len { length bytes.new ≡ length bytes.old }
    ensures bound { IfOk result (λ count. kept + count ≤ length bytes.new) }
    ensures kept { take kept bytes.new ≡ take kept bytes.old }
    ensures taken { IfOk result (λ count. Consumes (R.remaining reader.old) (R.remaining reader.new) (slice_range bytes.new kept (kept + count))) }
    ensures end { IfOk result (λ count. count ≡ 0 → kept + 32 < length bytes.new → IsAtEnd (R.remaining reader.new)) }
{
    let last = bytes.len().saturating_sub(BLOCK).max(kept);
    reader.read(&mut bytes[kept..last])
}

// Makes room for one read.
fn allocate_if_empty(bytes: &mut Vec<u8>) -> Result<(), ReadFailure>
    ensures long { length bytes.old.items ≤ length bytes.new.items }
    ensures same { 0 < length bytes.old.items → bytes.new.items ≡ bytes.old.items }
{
    if !bytes.is_empty() {
        return Ok(());
    }
    match bytes.resize(CHUNK, 0) {
        Ok(()) => Ok(()),
        Err(_) => Err(ReadFailure::Memory),
    }
}

// Moves the bytes from `at` to `end` to the front, and reads more behind them, as `Input::fill` does.
fn read_more<R: Read>(
    reader: &mut R,
    bytes: &mut Vec<u8>,
    at: &mut usize,
    end: &mut usize,
) -> Result<Found, ReadFailure>
    requires order { at.old ≤ end.old }
    requires inside { end.old ≤ length bytes.old.items }
    ensures order { at.new ≤ end.new }
    ensures inside { end.new ≤ length bytes.new.items }
    ensures keeps { OnOk result (Keeps (prepend_known (slice_range bytes.old.items at.old end.old) (R.remaining reader.old))
        (prepend_known (slice_range bytes.new.items at.new end.new) (R.remaining reader.new))) }
    ensures more { IfOk result (λ found. found ≡ Found.More → end.old - at.old < end.new - at.new) }
    ensures end { IfOk result (λ found. found ≡ Found.Nothing
        → IsAtEnd (prepend_known (slice_range bytes.new.items at.new end.new) (R.remaining reader.new))) }
{
    match allocate_if_empty(bytes) {
        Ok(()) => {}
        Err(why) => return Err(why),
    }
    let kept = *end - *at;
    bytes.copy_within(*at..*end, 0);
    *at = 0;
    *end = kept;
    match read_behind(reader, bytes, kept) {
        Ok(count) => {
            *end = kept + count;
            if count > 0 {
                return Ok(Found::More);
            }
            if kept > 0 || bytes.len() <= BLOCK {
                return Ok(Found::Odd);
            }
            Ok(Found::Nothing)
        }
        Err(_) => Err(ReadFailure::Device),
    }
}

impl<R: Read> Input<R> {
    /// Begins with all bytes of the reader. Takes no memory.
    pub(crate) fn new(alloc: Global, reader: R) -> Input<R>
        ensures { result ≡ R.remaining reader }
    {
        Input {
            reader,
            bytes: Vec::new(alloc),
            at: 0,
            end: 0,
        }
    }

    /// Reads more bytes behind those that are ahead. Returns `More` if there were some, `Nothing` if no byte is left, and otherwise `Odd`.
    #[cold]
    #[inline(never)]
    pub(crate) fn fill(&mut self) -> Result<Found, ReadFailure>
        ensures keeps { OnOk result (Keeps self.old self.new) }
        ensures end { IfOk result (λ found. found ≡ Found.Nothing → IsAtEnd self.new) }
    {
        read_more(
            &mut self.reader,
            &mut self.bytes,
            &mut self.at,
            &mut self.end,
        )
    }

    /// Reads a line up to its line feed from the bytes that are ahead: its bytes, and the places of its commas. Returns the number of both, and `Feed`.
    /// Returns `End` if more bytes are needed, and `Odd` if csv has to read the line, or if it may begin with a byte order mark.
    #[inline(always)]
    pub(crate) fn take_line(
        &mut self,
        line: &mut [u8; MAX_LINE],
        ends: &mut [usize; MAX_FIELDS],
    ) -> (usize, usize, Stop)
        ensures few { result.1 < 128 }
        ensures takes { TakesLine result.2 self.old (take result.0 line.new) (take result.1 ends.new) result.0 self.new }
    {
        let (place, count, stop) = scan(&self.bytes[self.at..], line, ends);
        if place >= self.end - self.at {
            return (place, count, Stop::End);
        }
        match stop {
            Stop::Feed => {}
            Stop::Odd | Stop::End => return (place, count, Stop::Odd),
        }
        if line[0] == 0xEF {
            return (place, count, Stop::Odd);
        }
        self.at += place + 1;
        (place, count, Stop::Feed)
    }

    /// Puts a line feed back before the bytes that are left.
    pub(crate) fn put_feed_back(&mut self, alloc: Global) -> Result<(), ReadFailure>
        ensures { OnOk result (self.new ≡ prepend_known (10 ∷ []) self.old) }
    {
        let mut bytes = Vec::new(alloc);
        match bytes.push(b'\n') {
            Ok(()) => {}
            Err(_) => return Err(ReadFailure::Memory),
        }
        match bytes.extend_from_slice(&self.bytes[self.at..self.end]) {
            Ok(()) => {}
            Err(_) => return Err(ReadFailure::Memory),
        }
        self.at = 0;
        self.end = bytes.len();
        self.bytes = bytes;
        Ok(())
    }
}

impl<R: Read> Read for Input<R> {
    ghost remaining = { λ input. input };

    #[tactic(auto, using(crate::proofs::InputFacts::read_ahead))]
    fn read(&mut self, buf: &mut [u8]) -> io::Result<usize> {
        if self.at >= self.end {
            return self.reader.read(buf);
        }
        let count = buf.len().min(self.end - self.at);
        buf[..count].copy_from_slice(&self.bytes[self.at..self.at + count]);
        self.at += count;
        Ok(count)
    }
}
