//! The first bytes of a text. A text of recorded steps of Linux begins with the column `qid`; no trace, history or excerpt
//! begins so.
ghost use Rattle.std.specs.Prelude.{◌≡◌, [], IfOk, IfSome, Some};
ghost use Rattle.pie_commands.specs.TextKinds.{head_bytes};
ghost use Rattle.pie_commands.specs.TextKinds.{IsAhead, TakesByte, is_linux_text};

use std::io;
use std::io::Read;

/// The first bytes of a text of recorded steps of Linux.
const HEADER: &[u8] = b"qid,";

/// The bytes of a text that were read to recognize it.
#[derive(Drop)]
pub(crate) struct Head {
    /// The first of them, which are those of `HEADER`.
    header: &'static [u8],
    /// The byte after them.
    other: Option<u8>,
}

impl Head {
    /// Returns a head without bytes.
    pub(crate) fn none() -> Head
        ensures { head_bytes result ≡ [] }
    {
        Head {
            header: &[],
            other: None,
        }
    }
}

impl Read for Head {
    ghost remaining = { λ head. Some (head_bytes head) };

    fn read(&mut self, buf: &mut [u8]) -> io::Result<usize> {
        if !self.header.is_empty() {
            return self.header.read(buf);
        }
        let (Some(byte), Some(first)) = (self.other, buf.first_mut()) else {
            return Ok(0);
        };
        *first = byte;
        self.other = None;
        Ok(1)
    }
}

/// Reads a byte. Returns `None` at the end of the text.
fn next_byte<R: Read>(reader: &mut R) -> io::Result<Option<u8>>
    ensures { TakesByte (R.remaining reader.old) result (R.remaining reader.new) }
{
    let mut byte = [0; 1];
    match reader.read(&mut byte) {
        Ok(0) => Ok(None),
        Ok(_) => Ok(Some(byte[0])),
        Err(why) => Err(why),
    }
}

/// Reads the first bytes of a text, up to the first that is not the one of `HEADER`. Returns them, and true if the text
/// is one of recorded steps of Linux, or the reader's error.
#[inline(never)]
pub(crate) fn recognize<R: Read>(reader: &mut R) -> (Head, io::Result<bool>)
    ensures kept { IsAhead (R.remaining reader.old) (head_bytes result.0) (R.remaining reader.new) }
    ensures recognized { IfOk result.1 (λ is_steps. IfSome (R.remaining reader.old) (λ text. is_steps ≡ is_linux_text text)) }
{
    for place in 0..HEADER.len() {
        let header = &HEADER[..place];
        match next_byte(reader) {
            Ok(Some(byte)) => {
                if byte != HEADER[place] {
                    let other = Some(byte);
                    return (Head { header, other }, Ok(false));
                }
            }
            Ok(None) => return (
                Head {
                    header,
                    other: None,
                },
                Ok(false),
            ),
            Err(why) => return (
                Head {
                    header,
                    other: None,
                },
                Err(why),
            ),
        }
    }
    let head = Head {
        header: HEADER,
        other: None,
    };
    (head, Ok(true))
}
