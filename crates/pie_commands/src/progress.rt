//! A reader that reports its progress and why a read failed, and the choice to report progress.
ghost use Rattle.std.specs.Prelude.{◌≡◌, IfErr, IfOk, IfSome, Some};
ghost use Rattle.std.specs.Io.KnownBytes.{prepend_known};
ghost use Rattle.pie_commands.specs.TextKinds.{head_bytes, remaining_of};
ghost use Rattle.pie_commands.specs.TextKinds.{is_linux_text};
ghost use Rattle.pie_record.specs.declared.fault.TraceFault.{TraceFault};

use crate::call::Call;
use crate::head::{Head, recognize};
use crate::line::Part::{Number, Text};
use crate::line::{put_parts, say_text, write_parts};
use crate::options::{flag, output};
use pie_trace::TraceFault;
use std::env::{Env, FillError};
use std::io;
use std::io::{Chain, Error, ErrorKind, IsTerminal, Read, Stderr, Write};
use std::time::Instant;

/// The number of bytes between two reports.
const STEP: u64 = 8_000_000;

/// The terminal sequence that clears a line: return to its beginning and erase from there.
const WIPE: &[u8] = b"\r\x1b[K";

/// The progress of a reader, and where it is reported.
#[derive(Clone, Copy)]
struct Progress<'s> {
    system: &'s HostRuntime,
    errors: Stderr,
    /// The moment at which reading began, if reports are requested and the clock could be read.
    begun: Option<Instant>,
    /// Reports are requested.
    is_shown: bool,
    bytes: u64,
    records: u64,
    next: u64,
}

/// A wrapper of a reader. It returns the bytes of the inner reader. On the error stream it reports the system's reason for a
/// failed read and, if requested, the progress.
pub(crate) struct ProgressReader<'s, R: Drop> {
    /// The inner reader, after the bytes that were read to recognize the text.
    inner: Chain<Head, R>,
    progress: Progress<'s>,
}

/// Returns the number of line ends in these bytes.
fn ends(bytes: &[u8]) -> u64 {
    let mut count: u64 = 0;
    for byte in bytes {
        if *byte == b'\n' {
            count = count.saturating_add(1);
        }
    }
    count
}

impl Progress<'_> {
    /// Returns the progress before the first byte.
    fn new<'s>(call: &Call<'s, '_>, is_shown: bool) -> Progress<'s> {
        let begun = if is_shown {
            Instant::now(call.system).ok()
        } else {
            None
        };
        Progress {
            system: call.system,
            errors: call.errors,
            begun,
            is_shown,
            bytes: 0,
            records: 0,
            next: STEP,
        }
    }

    /// Returns the milliseconds since the beginning, if the clock can be read.
    fn milliseconds(&self) -> Option<u64> {
        match self.begun?.elapsed(self.system) {
            Ok(elapsed) => u64::try_from(elapsed.as_millis()).ok(),
            Err(_) => None,
        }
    }

    /// Returns the rate in megabytes per second.
    fn rate(&self) -> Option<u64> {
        (self.bytes / 1000).checked_div(self.milliseconds()?)
    }

    /// Writes the progress over the line before.
    fn write(&mut self) {
        let (tenths, megabytes) = (self.records / 100_000, self.bytes / 1_000_000);
        let _ = self.errors.write_all(WIPE);
        let _ = put_parts! { &mut self.errors;
            Number(tenths / 10), Text("."), Number(tenths % 10), Text(" million records, "), Number(megabytes),
            Text(" MB")
        };
        if let Some(rate) = self.rate() {
            let _ = write_parts(&mut self.errors, &[Text(", "), Number(rate), Text(" MB/s")]);
        }
        let _ = self.errors.flush();
    }

    /// Counts bytes that were read, and reports the progress if a report is due.
    fn count(&mut self, bytes: &[u8]) {
        self.bytes = self.bytes.saturating_add(bytes.len() as u64);
        self.records = self.records.saturating_add(ends(bytes));
        if self.bytes >= self.next {
            self.next = self.bytes.saturating_add(STEP);
            self.write();
        }
    }

    /// Clears the report if there is one.
    fn wipe(&mut self) {
        if self.next > STEP {
            self.next = STEP;
            let _ = self.errors.write_all(WIPE);
            let _ = self.errors.flush();
        }
    }

    /// Writes the reason of a failed read, unless the read was only interrupted, and returns it.
    fn report(&mut self, why: Error) -> Error
        ensures { result ≡ why }
    {
        if !matches!(why.kind(), ErrorKind::Interrupted) {
            self.wipe();
            say_text(self.errors, &[], why);
        }
        why
    }
}

impl<'s, R: Read + Drop> ProgressReader<'s, R> {
    /// Wraps a reader. The wrapper reports its progress if it `is_shown`.
    pub(crate) fn new(inner: R, call: &Call<'s, '_>, is_shown: bool) -> ProgressReader<'s, R>
        ensures { remaining_of R.remaining result ≡ R.remaining inner }
    {
        ProgressReader::with_head(Head::none(), inner, Progress::new(call, is_shown))
    }

    /// Wraps a reader, and recognizes its text: the result is true for a text of recorded steps of Linux. The wrapper
    /// returns all bytes of the text.
    ///
    /// # Errors
    ///
    /// `Read` if the reader fails before the text is recognized. The system's reason is then written to the error stream.
    pub(crate) fn recognizing(
        inner: R,
        call: &Call<'s, '_>,
        is_shown: bool,
    ) -> (ProgressReader<'s, R>, Result<bool, TraceFault>)
        ensures kept { IfSome (R.remaining inner) (λ text. remaining_of R.remaining result.0 ≡ Some text) }
        ensures recognized { IfOk result.1 (λ is_steps. IfSome (R.remaining inner) (λ text. is_steps ≡ is_linux_text text)) }
        ensures fault { IfErr result.1 (λ why. why ≡ TraceFault.Read) }
    {
        let mut inner = inner;
        let mut progress = Progress::new(call, is_shown);
        let (head, found) = recognize(&mut inner);
        let kind = match found {
            Ok(is_steps) => Ok(is_steps),
            Err(why) => {
                let _ = progress.report(why);
                Err(TraceFault::Read)
            }
        };
        (ProgressReader::with_head(head, inner, progress), kind)
    }

    /// Wraps a reader whose first bytes, those of `head`, were read.
    fn with_head(head: Head, inner: R, progress: Progress<'s>) -> ProgressReader<'s, R>
        ensures { remaining_of R.remaining result ≡ prepend_known (head_bytes head) (R.remaining inner) }
    {
        ProgressReader {
            inner: head.chain(inner),
            progress,
        }
    }
}

impl<R: Read + Drop> Read for ProgressReader<'_, R> {
    ghost remaining = { remaining_of R.remaining };

    fn read(&mut self, buf: &mut [u8]) -> io::Result<usize> {
        let count = match self.inner.read(buf) {
            Ok(count) => count,
            Err(why) => return Err(self.progress.report(why)),
        };
        if self.progress.is_shown {
            self.progress.count(&buf[..count]);
        }
        if count == 0 && !buf.is_empty() {
            self.progress.wipe();
        }
        Ok(count)
    }
}

impl<R: Drop> Drop for ProgressReader<'_, R> {
    fn drop(self) {
        let ProgressReader {
            inner: _,
            mut progress,
        } = self;
        progress.wipe();
    }
}

// ---- the terminal

/// Returns true if the output is written to standard output, and that is a terminal.
pub(crate) fn writes_to_terminal(call: &Call<'_, '_>) -> bool {
    output(call.options).is_none() && call.system.stdout().is_terminal()
}

/// Returns true if the user allows colours on a terminal: unless the environment variable `NO_COLOR` is set and not empty, or
/// `TERM` is `dumb`.
pub(crate) fn allows_colours(system: &HostRuntime) -> bool {
    let mut term = [0; 4];
    let is_dumb = matches!(system.var("TERM", &mut term), Ok(4)) && term == *b"dumb";
    let is_unset = matches!(
        system.var("NO_COLOR", &mut [0; 1]),
        Ok(0) | Err(FillError::NotPresent)
    );
    is_unset && !is_dumb
}

/// Returns true if `--progress` is given or standard error is a terminal. A terminal alone is not enough if output
/// `is_written` meanwhile to standard output and that is a terminal too: the lines would mix.
pub(crate) fn shows_progress(call: &Call<'_, '_>, is_written: bool) -> bool {
    let is_mixed = is_written && writes_to_terminal(call);
    flag(call.options, "progress") || (call.errors.is_terminal() && !is_mixed)
}
