// boltraven_replay RECORDING: the blocks of a recording played again, shown on standard output as they are played. With no argument it reads standard
// input. It holds a window of the file and the text of one block, whatever the file's size. What can't be read is reported on standard error.
#![tactic(auto)]

ghost use Rattle.std.specs.Prelude.{◌≡◌, ◌≤◌, length};

use job::{Begun, Ending};
use program::Request;
use replay::Played;
use std::io;
use std::io::{Print, Read, Write};

// The bytes from `at` up to `count` are not used yet; whether the file ended with them, and the error where reading failed.
#[derive(Clone, Copy)]
struct Window {
    at: usize,
    count: usize,
    ended: bool,
    failed: Option<io::Error>,
}

// A window that holds the next block whole, or all that is left of the file.
fn refill<R: Read>(from: &mut R, buf: &mut [u8], w: Window) -> Window
    requires { (w.at ≤ w.count) × (w.count ≤ length buf.old) }
    ensures { (result.at ≤ result.count) × (result.count ≤ length buf.new) }
{
    if w.ended {
        return w;
    }
    if replay::WINDOW_LEAST <= w.count - w.at {
        return w;
    }
    buf.copy_within(w.at..w.count, 0);
    let input = program::read_on(from, buf, w.count - w.at);
    Window {
        at: 0,
        count: input.count,
        ended: input.count < buf.len(),
        failed: input.failed,
    }
}

// The window after the next `used` bytes.
fn after(w: Window, used: usize) -> Window
    requires { w.at ≤ w.count }
    ensures { (result.at ≤ result.count) × (result.count ≡ w.count) }
{
    Window {
        at: w.at + used.min(w.count - w.at),
        ..w
    }
}

// The last line.
fn print_last(rt: &impl Print, end: Ending) -> io::Result<()> {
    let mut line = [0u8; 64];
    let answer = job::last_line(end, &mut line);
    match answer {
        Ok(n) => program::print_text(rt, n, &line),
        Err(_) => Ok(()),
    }
}

// The blocks, one after the other, from the rota that the job begins with.
fn play_blocks<R: Read>(
    rt: &HostRuntime,
    from: &mut R,
    what: &[u8],
    buf: &mut [u8],
    first: Window,
    b: Begun,
) -> io::Result<()>
    requires { (first.at ≤ first.count) × (first.count ≤ length buf.old) }
{
    let starts = b.starts;
    let ends = b.ends;
    let avail = b.avail;
    let begins = b.begins;
    let frozen = b.frozen;
    let targets = b.targets;
    let mut owners = b.owners;
    let mut sets = b.sets;
    let mut minutes = b.minutes;
    let mut totals = b.totals;
    let mut out = [0u8; 65536];
    let mut w = first;
    for block in 0..=replay::BLOCKS_MOST {
        w = refill(from, buf, w);
        if let Some(error) = w.failed {
            return program::fail(&mut rt.stderr(), what, error);
        }
        let at = w.at;
        let count = w.count;
        let played = replay::play_block(
            &buf[at..count],
            block,
            b.people,
            b.slots,
            b.units,
            &starts,
            &ends,
            &avail,
            &begins,
            &frozen,
            &targets,
            &mut owners,
            &mut sets,
            &mut minutes,
            &mut totals,
            &mut out,
        );
        match played {
            Played::More { length, next } => {
                program::print_text(rt, length, &out)?;
                w = after(w, next);
            }
            Played::Last { length, end } => {
                program::print_text(rt, length, &out)?;
                return print_last(rt, end);
            }
        }
    }
    Ok(())
}

// The replay of the recording that an input holds; what names it where it can't be read.
fn print_replay<R: Read>(rt: &HostRuntime, from: &mut R, what: &[u8]) -> io::Result<()> {
    let mut buf = [0u8; 65536];
    let input = program::read_on(from, &mut buf, 0);
    if let Some(error) = input.failed {
        return program::fail(&mut rt.stderr(), what, error);
    }
    let n = program::within(input.count, &buf);
    let end = replay::job_end(&buf[..n]);
    let at = program::within(end, &buf[..n]);
    let b = job::begin(&buf[..at], true);
    let refusal = b.refusal;
    if refusal.number == 0 {
        let w = Window {
            at,
            count: n,
            ended: n < 65536,
            failed: None,
        };
        return play_blocks(rt, from, what, &mut buf, w, b);
    }
    print_last(rt, Ending::Refused(refusal))
}

// The replay of the file of that name.
fn print_file(rt: &HostRuntime, name: &[u8]) -> io::Result<()> {
    match program::open_file(rt, name) {
        Ok(mut file) => print_replay(rt, &mut file, name),
        Err(error) => program::fail(&mut rt.stderr(), name, error),
    }
}

// How the program is called.
fn print_help(rt: &impl Print) -> io::Result<()> {
    rt.write_all(
        b"boltraven_replay RECORDING    plays the blocks of a recording again; without RECORDING, of standard input\n",
    )?;
    rt.write_all(b"boltraven_replay --help, boltraven_replay --version\n")?;
    rt.write_all(
        b"\nEach block gives a line B and its number, then slots and people as a listing has them. The last line is E where every answer\n",
    )?;
    rt.write_all(
        b"agrees, X with the block and the place of the first that differs, or R and a refusal's number; docs/REFERENCE.md tells them.\n",
    )?;
    rt.write_all(b"What can't be read is reported on standard error, after what was shown.\n")?;
    rt.write_all(b"The exit status is 0 in every case: read the last line.\n")?;
    rt.write_all(b"A file whose name begins with - is given as ./-NAME.\n")
}

// What a word asks for: help, the version, or the replay of the file that it names.
fn print_asked(rt: &HostRuntime, word: &[u8]) -> io::Result<()> {
    match program::asked(word) {
        Request::Help => print_help(rt),
        Request::Version => rt.write_all(b"boltraven_replay 0.4.0\n"),
        Request::Unknown => rt.stderr().write_all(
            b"boltraven_replay: a file whose name begins with - is given as ./-NAME; --help tells more\n",
        ),
        Request::File => print_file(rt, word),
    }
}

// What the one argument asks for.
fn print_first(rt: &HostRuntime) -> io::Result<()> {
    let mut word = [0u8; 4096];
    match program::first_word(rt, &mut word) {
        Ok(n) => print_asked(rt, &word[..n]),
        Err(error) => program::fail(&mut rt.stderr(), b"the argument", error),
    }
}

fn main(rt: HostRuntime) -> io::Result<()> {
    if program::has_word(&rt, 2) {
        return rt.stderr().write_all(
            b"boltraven_replay: more than one argument; --help tells more\n",
        );
    }
    if program::has_word(&rt, 1) {
        return print_first(&rt);
    }
    print_replay(&rt, &mut rt.stdin(), b"standard input")
}
