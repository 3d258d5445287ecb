//! One record of a text.
ghost use Rattle.std.specs.Prelude.{◌≡◌, ◌≤◌, ◌<◌, ◌+◌, ◌-◌, ◌^◌, ◌++◌, ◌∷◌, get_or};
ghost use Rattle.pie_record.specs.{[], ℕ, IfSome, Some, drop, length, number, option_and_then, option_map, field_at, text_of, IsLine, Row, split_line, start_of, IfOk, IfErr, ReadsPlain, TraceFault, IsReading, rows_left, fields_of};
ghost use Rattle.pie_record.specs.Source.{StepsBy};

use crate::TraceFault;
use crate::fault::ReadFailure;
use crate::input::Input;
use crate::number::{number, number_from};
use crate::records::ReadStep;
use crate::scan::{MAX_FIELDS, MAX_LINE, Stop};
use csv::{ByteRecord, ErrorKind, WriterBuilder};
use std::alloc::Global;
use std::io::Read;
use std::marker::Model;

/// The result of a read of one line.
#[derive(Clone, Copy)]
pub(crate) enum Found {
    /// A plain record.
    Plain,
    /// An empty line, which is no record.
    Empty,
    /// No line yet, but more bytes.
    More,
    /// No byte: there is no further record.
    Nothing,
    /// Bytes that csv has to read. They are the beginning of a text.
    Odd,
}

/// The fields of one record, each a list of bytes. A contract sees the list of the fields.
#[derive(Drop)]
pub struct Record {
    // The line of a plain record, without its line feed: the first `len` bytes.
    line: [u8; MAX_LINE],
    len: usize,
    // The place behind each field of the line: the first `count` places; none if csv read the record.
    ends: [usize; MAX_FIELDS],
    count: usize,
    // A record as csv read it.
    csv_record: ByteRecord,
}

impl Model for Record {
    ghost use Rattle.std.specs.Prelude.{◌≡◌, ◌≤◌, ◌<◌, if◌then◌else◌, length, take};
    ghost use Rattle.pie_record.specs.{Row, IsLine, fields_of, nat_lt, split_line};

    ghost Value = { Row };

    ghost view = { λ r. if nat_lt 0 r.count then split_line (take r.len r.line) else fields_of r.csv_record };

    ghost invariant = { λ r. (r.len ≤ 2048) × (r.count ≤ 128)
        × (0 < r.count → IsLine (take r.len r.line) (take r.count r.ends) × (length (take r.count r.ends) ≡ r.count)) };
}

/// Returns the place at which the field at `place` begins, by the `ends` of the fields before it.
fn start_of(ends: &[usize], place: usize) -> usize
    requires within { place < length ends.now }
    requires fits { (i : ℕ) → i < length ends.now → get_or ends.now i 0 < 2 ^ 64 - 1 }
    ensures { result ≡ start_of 0 ends.now place }
{
    if place == 0 {
        return 0;
    }
    ends[place - 1] + 1
}

/// Returns a plain line up to the end of the field at `place`, and the place at which this field begins, by the `ends` of its fields.
fn field_in<'a>(line: &'a [u8], ends: &[usize], place: usize) -> (&'a [u8], usize)
    requires plain { IsLine line.now ends.now }
    requires within { place < length ends.now }
    ensures within { result.1 ≤ length result.0.now }
    ensures field { Some (drop result.1 result.0.now) ≡ field_at (split_line line.now) place }
{
    let start = start_of(ends, place);
    (&line[..ends[place]], start)
}

/// Leaves the bytes to csv, as the beginning of a text with the same records.
#[cold]
#[inline(never)]
#[tactic(auto, using(crate::proofs::InputFacts::later_left))]
fn leave_to_csv<R: Read>(
    alloc: Global,
    input: &mut Input<R>,
    is_first: bool,
) -> Result<Found, ReadFailure>
    ensures { (row : Row) → IfOk result (λ what. ReadsPlain what is_first input.old row input.new) }
{
    if is_first {
        return Ok(Found::Odd);
    }
    input.put_feed_back(alloc)?;
    Ok(Found::Odd)
}

/// Reads more bytes of a line, or finds that there are none.
#[cold]
#[inline(never)]
#[tactic(auto, using(crate::proofs::InputFacts::nothing_found))]
fn read_on<R: Read>(
    alloc: Global,
    input: &mut Input<R>,
    is_first: bool,
) -> Result<Found, ReadFailure>
    ensures { (row : Row) → IfOk result (λ what. ReadsPlain what is_first input.old row input.new) }
{
    match input.fill() {
        Ok(Found::More) => Ok(Found::More),
        Ok(Found::Nothing) => Ok(Found::Nothing),
        Ok(_) => leave_to_csv(alloc, input, is_first),
        Err(why) => Err(why),
    }
}

/// Returns csv's text of these fields, with free lengths.
fn quoted_text(alloc: Global, fields: &ByteRecord) -> Result<Vec<u8>, TraceFault>
    ensures text { IfOk result (λ bytes. bytes.items ≡ text_of (fields_of fields.now)) }
    ensures memory { IfErr result (λ why. why ≡ TraceFault.Memory) }
{
    let mut writer = WriterBuilder::new()
        .flexible(true)
        .from_writer(Vec::new(alloc));
    match writer.write_byte_record(fields) {
        Ok(()) => {}
        Err(_) => return Err(TraceFault::Memory),
    }
    match writer.into_inner() {
        Ok(bytes) => Ok(bytes),
        Err(_) => Err(TraceFault::Memory),
    }
}

impl Record {
    /// Returns a record without fields. Takes no memory.
    pub fn new(alloc: Global) -> Record
        ensures { result ≡ [] }
    {
        Record {
            line: [0; MAX_LINE],
            len: 0,
            ends: [0; MAX_FIELDS],
            count: 0,
            csv_record: ByteRecord::new(alloc),
        }
    }

    /// Returns the number of fields.
    #[tactic(auto, using(crate::proofs::InputFacts::line_long, crate::proofs::InputFacts::some_fields))]
    pub fn len(&self) -> usize
        ensures { result ≡ length self.now }
    {
        if self.count > 0 {
            self.count
        } else {
            self.csv_record.len()
        }
    }

    /// Returns the field at `place`, counted from 0, or `None` if there are fewer fields.
    #[inline(always)]
    #[tactic(auto, using(crate::proofs::InputFacts::line_past, crate::proofs::InputFacts::some_fields))]
    pub fn get(&self, place: usize) -> Option<&[u8]>
        ensures { option_map (λ field. field.now) result ≡ field_at self.now place }
    {
        if place < self.count {
            let (text, start) = field_in(&self.line[..self.len], &self.ends[..self.count], place);
            return Some(&text[start..]);
        }
        if self.count > 0 {
            return None;
        }
        self.csv_record.get(place)
    }

    /// Returns the number in the field at `place`, if it is at most `most`.
    #[inline(always)]
    pub(crate) fn number(&self, place: usize, most: u64) -> Option<u64>
        ensures { result ≡ option_and_then (number most) (field_at self.now place) }
    {
        if place < self.count {
            let (text, start) = field_in(&self.line[..self.len], &self.ends[..self.count], place);
            return number_from(text, start, most);
        }
        number(self.get(place)?, most)
    }

    /// Returns the text of the record: its line and a line feed, or csv's text of its fields.
    ///
    /// # Errors
    ///
    /// `Memory`.
    #[tactic(auto, using(crate::proofs::InputFacts::line_text, crate::proofs::InputFacts::some_fields))]
    pub fn text(&self, alloc: Global) -> Result<Vec<u8>, TraceFault>
        ensures text { IfOk result (λ bytes. bytes.items ≡ text_of self.now) }
        ensures memory { IfErr result (λ why. why ≡ TraceFault.Memory) }
    {
        if self.count == 0 {
            return quoted_text(alloc, &self.csv_record);
        }
        let mut bytes = Vec::new(alloc);
        match bytes.extend_from_slice(&self.line[..self.len]) {
            Ok(()) => {}
            Err(_) => return Err(TraceFault::Memory),
        }
        match bytes.push(b'\n') {
            Ok(()) => Ok(bytes),
            Err(_) => Err(TraceFault::Memory),
        }
    }

    /// Returns the line of a plain record, without its line feed: the text of the record as csv writes it. `None` if csv read the
    /// record: it reads all records from the first line on that is not plain.
    #[tactic(auto, using(crate::proofs::InputFacts::line_text, crate::proofs::InputFacts::some_fields))]
    pub fn line(&self) -> Option<&[u8]>
        ensures { IfSome result (λ line. text_of self.now ≡ line.now ++ 10 ∷ []) }
    {
        if self.count > 0 {
            Some(&self.line[..self.len])
        } else {
            None
        }
    }

    /// Reads a line into the record.
    #[inline(always)]
    pub(crate) fn read_line<R: Read>(
        &mut self,
        alloc: Global,
        input: &mut Input<R>,
        is_first: bool,
    ) -> Result<Found, ReadFailure>
        ensures { IfOk result (λ what. ReadsPlain what is_first input.old self.new input.new) }
    {
        self.count = 0;
        let (len, count, stop) = input.take_line(&mut self.line, &mut self.ends);
        match stop {
            Stop::Feed => {}
            Stop::Odd => return leave_to_csv(alloc, input, is_first),
            Stop::End => return read_on(alloc, input, is_first),
        }
        if len == 0 {
            return Ok(Found::Empty);
        }
        self.ends[count] = len;
        self.len = len;
        self.count = count + 1;
        Ok(Found::Plain)
    }

    /// Lets csv read a record. After a failure no record is left.
    #[inline(never)]
    #[tactic(auto, using(crate::proofs::HistoryFacts::takes_row))]
    pub(crate) fn read_csv_record<R: Read>(
        &mut self,
        reader: &mut csv::Reader<R>,
    ) -> Result<ReadStep, ReadFailure>
        requires { IsReading reader.old }
        ensures reading { IsReading reader.new }
        ensures stepped { IfOk result (λ how. StepsBy how (rows_left R.remaining reader.old) self.new (rows_left R.remaining reader.new)) }
    {
        self.count = 0;
        match reader.read_byte_record(&mut self.csv_record) {
            Ok(true) => Ok(ReadStep::Taken),
            Ok(false) => Ok(ReadStep::Over),
            Err(failed) => match failed.kind() {
                ErrorKind::Io(_) => Err(ReadFailure::Device),
                _ => Err(ReadFailure::Memory),
            },
        }
    }
}
