// What the programs share: reading into a lent buffer, what was written into one, and what their one word asks for.
#![tactic(auto)]

ghost use Rattle.std.specs.Prelude.{◌≡◌, ◌≤◌, length};
ghost use Rattle.std.specs.Io.{ReadsAtMost};
ghost use Rattle.io.specs.Counts.{IsPrefixLen};
ghost use Rattle.program.specs.Words.{option_by, asked_by};

use std::env::{Env, FillError};
use std::fs::File;
use std::io;
use std::io::{Cursor, ErrorKind, Print, Read, Write};
use std::rt::Files;

// What was read: how many bytes, and the error where reading failed.
#[derive(Clone, Copy)]
pub struct Input {
    pub count: usize,
    pub failed: Option<io::Error>,
}

// What a word asks for: help, the version, nothing that there is, or the file of that name.
#[derive(Clone, Copy)]
pub enum Request {
    Help,
    Version,
    Unknown,
    File,
}

// The system's numbers of these two errors.
const INVALID: i32 = 22;

const TOO_LONG: i32 = 36;

// n, or the length of buf where that is less.
pub fn within(n: usize, buf: &[u8]) -> usize
    ensures { IsPrefixLen result buf.now }
{
    n.min(buf.len())
}

// Reads once into what is left of buf from `done` on.
fn read_some<R: Read>(input: &mut R, buf: &mut [u8], done: usize) -> Input
    requires { done ≤ length buf.old }
    ensures { result.count ≤ length buf.new }
{
    match input.read(&mut buf[done..]) {
        Ok(n) => Input {
            count: done + n,
            failed: None,
        },
        Err(e) => Input {
            count: done,
            failed: Some(e),
        },
    }
}

// Reads after the first `from` bytes until buf is full, the input ends or a read fails.
pub fn read_on<R: Read>(input: &mut R, buf: &mut [u8], from: usize) -> Input
    ensures { result.count ≤ length buf.new }
{
    let mut done = within(from, buf);
    // a while: how far a read comes is known only after it, so no range is walked
    while done < buf.len() {
        let step = read_some(input, buf, done);
        let next = step.count;
        if step.failed.is_some() {
            return Input {
                count: done,
                failed: step.failed,
            };
        }
        if next <= done {
            return Input {
                count: done,
                failed: None,
            };
        }
        done = next;
    }
    Input {
        count: done,
        failed: None,
    }
}

// The first n bytes of a text, on standard output.
pub fn print_text(rt: &impl Print, n: usize, text: &[u8]) -> io::Result<()> {
    let m = within(n, text);
    rt.write_all(&text[..m])
}

// What the system says of an error, without the number that std writes after it.
fn system_text(shown: &[u8]) -> &str {
    match str::from_utf8(shown) {
        Ok(text) => match text.split_once(" (os error ") {
            Some((front, _)) => front,
            None => text,
        },
        Err(_) => "",
    }
}

// Writes a line: what failed, a colon and the error's text.
pub fn fail<W: Write>(to: &mut W, what: &[u8], error: io::Error) -> io::Result<()> {
    let mut shown = Cursor::new([0u8; 256]);
    write!(shown, "{error}")?;
    let n = within(shown.position() as usize, shown.get_ref());
    to.write_all(what)?;
    to.write_all(b": ")?;
    to.write_all(system_text(&shown.get_ref()[..n]).as_bytes())?;
    to.write_all(b"\n")
}

// Opens a file for reading. A name that is not UTF-8 can't be opened.
pub fn open_file<F: Files>(rt: &F, name: &[u8]) -> io::Result<F::File> {
    match str::from_utf8(name) {
        Ok(path) => File::open(rt, path),
        Err(_) => Err(io::Error::new(ErrorKind::InvalidFilename, "the file's name is not UTF-8")),
    }
}

// Whether the program was called with as many words, its own name aside.
pub fn has_word(rt: &impl Env, number: usize) -> bool {
    !matches!(rt.arg(number, &mut []), Err(FillError::NotPresent))
}

// Puts the first word at the start of buf; how long it is. A word that buf has no room for is an error.
pub fn first_word(rt: &impl Env, buf: &mut [u8]) -> io::Result<usize>
    ensures { ReadsAtMost result buf.new }
{
    match rt.arg(1, buf) {
        Ok(n) => Ok(n),
        Err(FillError::TooLong) => Err(io::Error::from_raw_os_error(TOO_LONG)),
        Err(FillError::NotPresent) => Err(io::Error::from_raw_os_error(INVALID)),
    }
}

// Whether a word begins with -.
fn is_option(word: &[u8]) -> bool
    ensures { result ≡ option_by word.now }
{
    if word.len() == 0 {
        return false;
    }
    word[0] == b'-'
}

// What a word asks for. A file whose name begins with - isn't asked for so.
pub fn asked(word: &[u8]) -> Request
    ensures { result ≡ asked_by word.now }
{
    if stored::same_raws(word, b"--help") {
        return Request::Help;
    }
    if stored::same_raws(word, b"--version") {
        return Request::Version;
    }
    if is_option(word) {
        return Request::Unknown;
    }
    Request::File
}
