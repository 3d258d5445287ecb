//! A row of CSV, built from its last field to its first. Digits are written at their final place, and the whole row is written out at once.
ghost use Rattle.std.specs.Prelude.{◌≡◌, ◌+◌, ◌-◌, ◌≤◌, ◌++◌, ◌∷◌, [], decimal, drop, length};

use itoa::write_digits;
use std::marker::Model;

/// The capacity of a row in bytes: above the longest row.
const ROOM: usize = 512;

/// The fields of a row from some field on.
#[derive(Drop)]
pub struct RowBuffer {
    bytes: [u8; ROOM],
    // The beginning of the written bytes, which extend to the end of the array.
    start: usize,
}

impl Model for RowBuffer {
    ghost use Rattle.std.specs.Prelude.{ℕ, ◌≡◌, ◌+◌, List, drop, length};

    ghost Value = { List ℕ };

    ghost view = { λ row. drop row.start row.bytes };

    ghost invariant = { λ row. row.start + length (drop row.start row.bytes) ≡ 512 };
}

impl RowBuffer {
    /// Returns an empty row.
    pub fn new() -> RowBuffer
        ensures { result ≡ [] }
    {
        RowBuffer {
            bytes: [0; ROOM],
            start: ROOM,
        }
    }

    /// Begins another row.
    pub fn clear(&mut self)
        ensures { self.new ≡ [] }
    {
        self.start = ROOM;
    }

    /// Removes all bytes except the last `len`.
    pub fn keep_last(&mut self, len: usize)
        requires { len ≤ length self.old }
        ensures { self.new ≡ drop (length self.old - len) self.old }
    {
        self.start += self.len() - len;
    }

    /// Returns the number of bytes.
    pub fn len(&self) -> usize
        ensures { result ≡ length self.now }
    {
        ROOM - self.start
    }

    /// Puts a byte before the rest.
    pub fn prepend_byte(&mut self, byte: u8)
        requires { length self.old + 1 ≤ 512 }
        ensures text { self.new ≡ byte ∷ self.old }
        ensures long { length self.new ≡ length self.old + 1 }
    {
        self.start -= 1;
        self.bytes[self.start] = byte;
    }

    /// Puts a number before the rest, with nothing between them.
    pub(crate) fn prepend_digits(&mut self, number: u64)
        requires { length self.old + 20 ≤ 512 }
        ensures text { self.new ≡ decimal number ++ self.old }
        ensures long { length self.new ≤ length self.old + 20 }
    {
        self.start = write_digits(number, &mut self.bytes, self.start);
    }

    /// Puts a number before the rest, and a comma between them.
    pub fn prepend_number(&mut self, number: u64)
        requires { length self.old + 21 ≤ 512 }
        ensures text { self.new ≡ decimal number ++ (44 ∷ self.old) }
        ensures long { length self.new ≤ length self.old + 21 }
    {
        let comma = self.start - 1;
        self.bytes[comma] = b',';
        self.start = write_digits(number, &mut self.bytes, comma);
    }

    /// Puts bytes before the rest.
    #[inline(always)]
    pub fn prepend_text(&mut self, text: &[u8])
        requires { length self.old + length text.now ≤ 512 }
        ensures text { self.new ≡ text.now ++ self.old }
        ensures long { length self.new ≡ length self.old + length text.now }
    {
        let end = self.start;
        self.start -= text.len();
        self.bytes[self.start..end].copy_from_slice(text);
    }

    /// Puts a keyword before the rest, and a comma between them.
    #[inline(always)]
    pub fn prepend_keyword(&mut self, keyword: &str)
        requires { length self.old + length keyword.now + 1 ≤ 512 }
        ensures text { self.new ≡ keyword.now ++ (44 ∷ self.old) }
        ensures long { length self.new ≡ length self.old + length keyword.now + 1 }
    {
        self.prepend_byte(b',');
        self.prepend_text(keyword.as_bytes());
    }

    /// Returns the bytes of the row.
    pub fn as_bytes(&self) -> &[u8]
        ensures { result.now ≡ self.now }
    {
        &self.bytes[self.start..]
    }
}
