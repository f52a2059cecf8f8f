// A file that is replaced as a whole: its name stands for its old bytes or for the new ones, whatever
// fails between. No contract can say what is written, so this file is there to be read.
use console::text::Text;
use std::fs::{File, OpenFile};
use std::io::{ErrorKind, Stderr, Write};
use std::rt::Files;
use std::{fs, io, str};

// The longest name: `.part`, and a 0 that the system wants, have room after it in 4,096 bytes.
const LONGEST: usize = 4090;

// Whether a file may be replaced: there is none, or a regular one. A device would be lost. A link is not
// followed: it is the link that would be replaced.
fn is_replaceable(files: &impl Files, name: &str) -> bool {
    match fs::symlink_metadata(files, name) {
        Ok(known) => known.is_file(),
        Err(_) => true,
    }
}

// The words of an error that is written out, without the number that std puts after them.
fn words(text: &str) -> &str {
    match text.split_once(" (os error ") {
        Some((words, _)) => words,
        None => text,
    }
}

// A line on standard error about a file. Where that can't be written, nothing is left to tell it by.
fn tell(err: Stderr, name: &[u8], why: &str) {
    let _ = err.write_all(name);
    let _ = err.print(": ");
    let _ = err.println(why);
}

// The same about a file at which a call has failed.
fn tell_error(err: Stderr, name: &str, error: io::Error) {
    let mut line = outside::buffer();
    let mut rest: &mut [u8] = &mut line;
    let room = rest.len();
    // an error is a short line, which a buffer has room for
    let _ = write!(rest, "{error}");
    let end = room.saturating_sub(rest.len());
    let text = str::from_utf8(&line[..end]).unwrap_or("");
    tell(err, name.as_bytes(), words(text));
}

// Until a file's bytes are where they are kept: closing it would not say that this has failed. Where the
// file is of a kind that keeps none, there is nothing to wait for.
fn settle(file: &impl OpenFile) -> io::Result<()> {
    match file.sync_all() {
        Ok(()) => Ok(()),
        Err(error) => {
            if error.kind() == ErrorKind::InvalidInput {
                return Ok(());
            }
            Err(error)
        }
    }
}

// All bytes into a file, which is closed then.
fn fill<F: Write + OpenFile + Drop>(mut file: F, bytes: &[u8]) -> io::Result<()> {
    file.write_all(bytes)?;
    settle(&file)
}

// All bytes into a file, which then takes another name.
fn fill_and_rename<R: Files>(
    files: &R,
    file: R::File,
    part: &str,
    name: &str,
    bytes: &[u8],
) -> io::Result<()> {
    fill(file, bytes)?;
    fs::rename(files, part, name)
}

// The bytes go to a new file beside it, which takes its name when all of them are there.
fn replace_by(files: &impl Files, err: Stderr, part: &str, name: &str, bytes: &[u8]) {
    match File::create(files, part) {
        Ok(file) => match fill_and_rename(files, file, part, name, bytes) {
            Ok(()) => {}
            Err(error) => {
                let _ = fs::remove_file(files, part);
                tell_error(err, name, error);
            }
        },
        Err(error) => tell_error(err, part, error),
    }
}

// The same of a file whose name may be any bytes: those that are no text name none here.
pub fn replace(files: &impl Files, err: Stderr, name: &[u8], bytes: &[u8]) {
    if LONGEST < name.len() {
        tell(err, name, "the name is too long");
        return;
    }
    let mut beside = outside::buffer();
    let mut part = Text::new(&mut beside);
    part.put_word(name);
    part.put_word(b".part");
    let end = part.end;
    match (str::from_utf8(name), str::from_utf8(&beside[..end])) {
        (Ok(name), Ok(part)) => {
            if !is_replaceable(files, name) {
                tell(err, name.as_bytes(), "not a regular file");
                return;
            }
            replace_by(files, err, part, name, bytes);
        }
        _ => tell(err, name, "the name is not UTF-8"),
    }
}
