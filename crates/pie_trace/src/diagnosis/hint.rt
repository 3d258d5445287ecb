//! Files that are no trace and no history, by their first bytes.

use crate::diagnosis::line_finder::Located;

/// A property of a whole file.
#[derive(Clone, Copy)]
pub(crate) enum Hint {
    /// The file is empty.
    Empty,
    /// The file has only empty lines.
    NoRecord,
    /// The file is compressed in this format, which this command reads.
    Packed(&'static str, &'static str),
    /// The file is a packet capture, in the format pcap or pcapng.
    Capture,
    /// The file is a text in this encoding, and not in UTF-8.
    Encoded(&'static str),
    /// The file has recorded steps of Linux, as `pie-watch` writes them: its first row begins with the column `qid`.
    Steps,
}

impl Hint {
    /// Returns the property of a file in which the first record was searched, if it is certain.
    pub(crate) fn of(located: &Located) -> Option<Hint> {
        match located.head {
            [0x1f, 0x8b, _, _] => Some(Hint::Packed("gzip", "zcat")),
            [0xfd, b'7', b'z', b'X'] => Some(Hint::Packed("xz", "xzcat")),
            [0x28, 0xb5, 0x2f, 0xfd] => Some(Hint::Packed("zstd", "zstdcat")),
            [b'B', b'Z', b'h', _] => Some(Hint::Packed("bzip2", "bzcat")),
            [0xa1, 0xb2, 0xc3, 0xd4]
            | [0xd4, 0xc3, 0xb2, 0xa1]
            | [0xa1, 0xb2, 0x3c, 0x4d]
            | [0x4d, 0x3c, 0xb2, 0xa1]
            | [0x0a, 0x0d, 0x0d, 0x0a] => Some(Hint::Capture),
            [0xff, 0xfe, 0, 0] | [0, 0, 0xfe, 0xff] => Some(Hint::Encoded("UTF-32")),
            [0xff, 0xfe, _, _] | [0xfe, 0xff, _, _] => Some(Hint::Encoded("UTF-16")),
            [1..=127, 0, 1..=127, 0] => Some(Hint::Encoded("UTF-16LE")),
            [0, 1..=127, 0, 1..=127] => Some(Hint::Encoded("UTF-16BE")),
            [b'q', b'i', b'd', b','] => Some(Hint::Steps),
            _ if located.is_empty => Some(Hint::Empty),
            _ if located.line.is_none() => Some(Hint::NoRecord),
            _ => None,
        }
    }
}
