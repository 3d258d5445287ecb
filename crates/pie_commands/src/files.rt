//! Files by their names: the texts that are read, and an output file that is created beside its name, and then moved onto
//! the name or left.
ghost use Rattle.std.specs.Prelude.{◌≡◌, ◌⊎◌, IsSome, None, false, true};

use crate::call::Call;
use crate::line::Part::{Name, Text};
use crate::line::{lead, say, say_text};
use crate::options::file_of;
use either::{Either, Left, Right};
use std::alloc::Global;
use std::fs::{File, Metadata, OpenOptions};
use std::io::{Error, ErrorKind, Read, Stderr, Stdin, Stdout, Write};
use std::os::unix::fs::{MetadataExt, OpenOptionsExt, PermissionsExt};
use std::{fs, io};

/// The system's number of the error that a file is a folder.
const IS_A_FOLDER: i32 = 21;

/// The number of names that are tried for a file created beside another.
const MAX_NAMES: u32 = 100;

/// Returns the word of a command line that has these bytes. If they are not UTF-8, U+FFFD takes the place of each
/// invalid sequence, and a NUL follows, which no argument contains. No file is opened or created under such a name.
///
/// # Errors
///
/// Returns an error if memory is short.
pub fn word_of_bytes(alloc: Global, bytes: &[u8]) -> io::Result<String> {
    let mut word = String::from_utf8_lossy(alloc, bytes)?;
    if word.as_bytes() != bytes {
        word.push('\0')?;
    }
    Ok(word)
}

/// Refuses a name that is not UTF-8.
fn check_name(name: &str) -> io::Result<()> {
    if name.ends_with('\0') {
        return Err(Error::new(ErrorKind::InvalidInput, "the name is not valid UTF-8"));
    }
    Ok(())
}

// ---- files that are read

/// A text that is read: standard input, a file, or bytes in memory. With one type for all, the code that reads is compiled
/// once.
pub(crate) type Source<'t> = Either<Either<Stdin, File>, &'t [u8]>;

/// Opens the file of this name to read it.
fn open_named(system: &HostRuntime, name: &str) -> io::Result<File> {
    check_name(name)?;
    let file = File::open(system, name)?;
    if matches!(file.metadata(), Ok(there) if there.is_dir()) {
        return Err(Error::from_raw_os_error(IS_A_FOLDER));
    }
    Ok(file)
}

/// Opens the text of this name: a file, or standard input without a name or for `-`. If a file can't be opened, a line is
/// written to the error stream, and the result is `None`.
pub(crate) fn open_text<'t>(call: &Call<'_, '_>, name: Option<&str>) -> Option<Source<'t>> {
    let Some(name) = file_of(name) else {
        return Some(Left(Left(call.input)));
    };
    match open_named(call.system, name) {
        Ok(file) => Some(Left(Right(file))),
        Err(why) => {
            say_text(call.errors, &lead(Some(name)), why);
            None
        }
    }
}

/// Opens the file of this name to read it once more. `None` if it can't be opened, or if a second reading does not
/// return the same bytes, as with a pipe.
pub(crate) fn open_again(system: &HostRuntime, name: &str) -> Option<File> {
    match fs::metadata(system, name) {
        Ok(there) if there.is_file() => File::open(system, name).ok(),
        _ => None,
    }
}

/// Returns true if `name` leads to the file `other`, under any name, or to standard input if `other` is `None`.
fn is_same_file(system: &HostRuntime, name: &str, other: Option<&str>) -> bool {
    let other = other.unwrap_or("/dev/stdin");
    match (fs::metadata(system, name), fs::metadata(system, other)) {
        (Ok(one), Ok(other)) => {
            one.is_file() && one.dev() == other.dev() && one.ino() == other.ino()
        }
        _ => false,
    }
}

// ---- an output file

/// The output of the program: standard output, a new file beside its final name, or a pipe or a device. With one type for all,
/// the code that writes is compiled once.
#[derive(Drop)]
pub struct Output {
    to: Either<Stdout, File>,
    /// The number of the name beside its own under which the new file is (`name_beside`), or 0 if it has no such name.
    beside: u32,
    /// True if its reader is gone.
    is_closed: bool,
    /// The system's number for the reason of the last failed write.
    failed: Option<i32>,
}

impl Output {
    /// Returns an output that writes to `to`. `beside` is the number of the temporary name of the file, or 0.
    fn new(to: Either<Stdout, File>, beside: u32) -> Output {
        Output {
            to,
            beside,
            is_closed: false,
            failed: None,
        }
    }

    /// Returns standard output.
    pub fn standard(output: Stdout) -> Output {
        Output::new(Left(output), 0)
    }

    /// Returns true if a write has failed because the reader is gone, as with a pipe whose reader has ended.
    pub fn is_closed(&self) -> bool {
        self.is_closed
    }

    /// Returns the reason of the last failed write, if the system gave one and the reader is not gone.
    pub fn reason(&self) -> Option<Error> {
        if self.is_closed {
            return None;
        }
        Some(Error::from_raw_os_error(self.failed?))
    }
}

impl Write for Output {
    fn write(&mut self, bytes: &[u8]) -> io::Result<usize> {
        let written = self.to.write(bytes);
        if let Err(why) = &written {
            self.failed = why.raw_os_error();
            self.is_closed = self.is_closed || matches!(why.kind(), ErrorKind::BrokenPipe);
        }
        written
    }

    fn flush(&mut self) -> io::Result<()> {
        self.to.flush()
    }
}

/// Returns true for a name of standard output.
fn is_standard(name: &str) -> bool {
    matches!(name, "/dev/stdout" | "/dev/fd/1" | "/proc/self/fd/1")
}

/// Returns the name number `count` that is tried for a file beside `name`.
fn name_beside(system: &HostRuntime, name: &str, count: u32) -> io::Result<String> {
    let made = match count {
        1 => format!(in system.alloc(); "{name}.partial")?,
        _ => format!(in system.alloc(); "{name}.partial.{count}")?,
    };
    Ok(made)
}

/// Creates a file of this name, with the permissions of the file that it will replace, if there is one. No file of this
/// name remains if the permissions can't be set.
fn create(system: &HostRuntime, name: &str, replaced: Option<&Metadata>) -> io::Result<File> {
    let mut how = OpenOptions::new();
    how.write(true).create_new(true);
    let Some(replaced) = replaced else {
        return how.open(system, name);
    };
    how.mode(replaced.mode() & 0o777);
    let file: File = how.open(system, name)?;
    match file.set_permissions(replaced.permissions()) {
        Ok(()) => Ok(file),
        Err(why) => {
            let _ = fs::remove_file(system, name);
            Err(why)
        }
    }
}

/// Creates a file under the name number `count` beside `name`.
fn create_numbered(
    system: &HostRuntime,
    name: &str,
    count: u32,
    replaced: Option<&Metadata>,
) -> io::Result<File> {
    let made = name_beside(system, name, count)?;
    create(system, made.as_str(), replaced)
}

/// Creates a file beside `name`, under a name that no file has.
fn create_beside(
    system: &HostRuntime,
    name: &str,
    replaced: Option<&Metadata>,
) -> io::Result<Output> {
    for count in 1..=MAX_NAMES {
        match create_numbered(system, name, count, replaced) {
            Ok(file) => return Ok(Output::new(Right(file), count)),
            Err(why) if why.kind() == ErrorKind::AlreadyExists => {}
            Err(why) => return Err(why),
        }
    }
    Err(Error::new(
        ErrorKind::AlreadyExists,
        "too many partial files exist beside it",
    ))
}

/// Creates an empty file that `place` can move onto this name, and changes no other file. A pipe or a device of this
/// name is opened as it is.
fn make(system: &HostRuntime, name: &str) -> io::Result<Output> {
    check_name(name)?;
    if is_standard(name) {
        return Ok(Output::standard(system.stdout()));
    }
    let replaced = match fs::metadata(system, name) {
        Ok(there) if there.is_file() => Some(there),
        Ok(_) => {
            let to = OpenOptions::new().write(true).open(system, name)?;
            return Ok(Output::new(Right(to), 0));
        }
        Err(why) if why.kind() == ErrorKind::NotFound && !name.is_empty() => None,
        Err(why) => return Err(why),
    };
    create_beside(system, name, replaced.as_ref())
}

/// Returns true if a file or a link has this name. Pipes and devices are not counted.
fn is_taken(system: &HostRuntime, name: &str) -> bool {
    match fs::metadata(system, name) {
        Ok(there) => there.is_file() && !is_standard(name),
        // (a link to a file that does not exist)
        Err(why) => why.kind() == ErrorKind::NotFound && !is_free(system, name),
    }
}

/// Returns true if no file and no link has this name.
fn is_free(system: &HostRuntime, name: &str) -> bool {
    matches!(fs::symlink_metadata(system, name), Err(why) if why.kind() == ErrorKind::NotFound)
}

/// Moves a file onto a name that no file has. A hard link fails if a file has the name. If the folder has no links, an
/// empty file takes the name first, which replaces no file.
fn move_to_free(system: &HostRuntime, made: &str, name: &str) -> io::Result<()> {
    if fs::hard_link(system, made, name).is_ok() {
        let _ = fs::remove_file(system, made);
        return Ok(());
    }
    let _ = create(system, name, None)?;
    let moved = fs::rename(system, made, name);
    if moved.is_err() {
        let _ = fs::remove_file(system, name);
    }
    moved
}

/// Moves the new file onto `name`. An existing file of that name must be one that may be replaced.
fn place(system: &HostRuntime, made: &mut Output, name: &str, is_forced: bool) -> io::Result<()> {
    if made.beside == 0 {
        return Ok(());
    }
    if let Right(file) = &made.to {
        file.sync_all()?;
    }
    let beside = name_beside(system, name, made.beside)?;
    if is_forced {
        fs::rename(system, beside.as_str(), name)?;
    } else {
        move_to_free(system, beside.as_str(), name)?;
    }
    made.beside = 0;
    Ok(())
}

/// Leaves the new file of `name` under its other name, and returns that name. Removes the file if it is empty.
fn leave(system: &HostRuntime, made: &Output, name: &str) -> Option<String> {
    let (Right(file), 1..) = (&made.to, made.beside) else {
        return None;
    };
    let other = name_beside(system, name, made.beside).ok()?;
    let is_empty = matches!(file.metadata(), Ok(there) if there.len() == 0);
    if is_empty && fs::remove_file(system, other.as_str()).is_ok() {
        return None;
    }
    Some(other)
}

/// Returns the reason why an output must not have a name, if there is one. `is_input` is true if the name leads to the file
/// that is read, and `is_taken` if a file has it.
fn refusal(is_input: bool, is_taken: bool, is_forced: bool) -> Option<&'static str>
    ensures input { is_input ≡ true → IsSome result }
    ensures taken { is_taken ≡ true → is_forced ≡ false → IsSome result }
    ensures other { is_input ≡ false → (is_taken ≡ false) ⊎ (is_forced ≡ true) → result ≡ None }
{
    if is_input {
        return Some("the input file cannot be the output file");
    }
    if is_taken && !is_forced {
        return Some("the file exists; --force replaces it");
    }
    None
}

/// Returns true if standard output is a file that is read: one of `names`, or standard input without a name. Writes a line then.
pub(crate) fn is_input_written(call: &Call<'_, '_>) -> bool {
    let names = call.options.get_strs("file").unwrap_or(&[]);
    for place in 0..names.len().max(1) {
        let read = file_of(names.get(place).copied());
        if let Some(why) = refusal(is_same_file(call.system, "/dev/stdout", read), false, false) {
            let [name, colon] = lead(read);
            say(call.errors, &[name, colon, Text(why)]);
            return true;
        }
    }
    false
}

/// Creates a file that can be moved onto `name`. If it can't be created, a file of the name must not be replaced, or is
/// the file that is read, writes a line to the error stream and returns `None`.
pub(crate) fn create_output(
    system: &HostRuntime,
    name: &str,
    read: Option<&str>,
    is_forced: bool,
    errors: Stderr,
) -> Option<Output> {
    let is_input = is_same_file(system, name, file_of(read));
    if let Some(why) = refusal(is_input, is_taken(system, name), is_forced) {
        say(errors, &[Name(name), Text(": "), Text(why)]);
        return None;
    }
    match make(system, name) {
        Ok(made) => Some(made),
        Err(why) => {
            say_text(errors, &lead(Some(name)), why);
            None
        }
    }
}

/// Moves an output that `is_whole` onto its name, and returns true if it has the name. Otherwise the output is left
/// under its other name, and a file of its name is unchanged. Writes lines about the failure to `errors`, and the other name
/// unless the file is empty.
pub(crate) fn finish_output(
    system: &HostRuntime,
    made: &mut Output,
    name: &str,
    is_forced: bool,
    is_whole: bool,
    errors: Stderr,
) -> bool {
    if is_whole {
        match place(system, made, name, is_forced) {
            Ok(()) => return true,
            Err(why) => say_text(errors, &lead(Some(name)), why),
        }
    }
    if let Some(why) = made.reason() {
        say_text(errors, &lead(Some(name)), why);
    }
    let text = if is_whole {
        ": this file has the output"
    } else {
        ": this file has the incomplete output"
    };
    if let Some(other) = leave(system, made, name) {
        say(errors, &[Name(other.as_str()), Text(text)]);
    }
    false
}
