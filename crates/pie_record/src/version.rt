//! The versions of traces and histories.

/// The version of a trace or a history (this project's own), which its first record names.
#[derive(Clone, Copy, PartialEq, Eq)]
pub enum Version {
    /// The first record is `open` or `rolling`: the book is of profile one, and `shown` has no `<active>`.
    One,
    /// The first record is `open2`: it names the profile and the mode, and `shown` ends with `<active>`.
    Two,
    /// The first record is `open3`: it names RFC 8033's optional elements as well, and its limits may be greater. All other records are
    /// those of version two.
    Three,
}
