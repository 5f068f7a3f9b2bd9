// boltraven JOB: the listing of a job file on standard output, or the line of its refusal. With no argument it reads standard input.
// What can't be read is reported on standard error, with nothing on standard output. --help and --version tell of the program itself.
#![tactic(auto)]

use paper::Refusal;
use program::Request;
use std::io;
use std::io::{Print, Read, Write};

// The line of a refusal.
fn print_refusal(rt: &impl Print, refusal: Refusal) -> io::Result<()> {
    let mut line = [0u8; 64];
    let answer = job::refusal_line(refusal, &mut line);
    match answer {
        Ok(n) => program::print_text(rt, n, &line),
        Err(_) => Ok(()),
    }
}

// The listing of the job that an input holds; what names it where it can't be read.
fn print_listing<R: Read>(rt: &HostRuntime, from: &mut R, what: &[u8]) -> io::Result<()> {
    let mut file = [0u8; 49153];
    let input = program::read_on(from, &mut file, 0);
    if let Some(error) = input.failed {
        return program::fail(&mut rt.stderr(), what, error);
    }
    let n = program::within(input.count, &file);
    let mut out = [0u8; 65536];
    let answer = job::run_job(&file[..n], &mut out);
    match answer {
        Ok(k) => program::print_text(rt, k, &out),
        Err(refusal) => print_refusal(rt, refusal),
    }
}

// The listing of the file of that name.
fn print_file(rt: &HostRuntime, name: &[u8]) -> io::Result<()> {
    match program::open_file(rt, name) {
        Ok(mut file) => print_listing(rt, &mut file, name),
        Err(error) => program::fail(&mut rt.stderr(), name, error),
    }
}

// How the program is called.
fn print_help(rt: &impl Print) -> io::Result<()> {
    rt.write_all(
        b"boltraven JOB     writes the listing of a job file; without JOB, of standard input\n",
    )?;
    rt.write_all(b"boltraven --help, boltraven --version\n")?;
    rt.write_all(
        b"\nA job that is refused gives one line, R and the refusal's number, and its place where it has one; docs/REFERENCE.md tells them.\n",
    )?;
    rt.write_all(
        b"What can't be read is reported on standard error, with nothing on standard output.\n",
    )?;
    rt.write_all(
        b"The exit status is 0 in every case: read the first line, or run tools/job, which has a status.\n",
    )?;
    rt.write_all(b"A file whose name begins with - is given as ./-NAME.\n")
}

// What a word asks for: help, the version, or the listing of the file that it names.
fn print_asked(rt: &HostRuntime, word: &[u8]) -> io::Result<()> {
    match program::asked(word) {
        Request::Help => print_help(rt),
        Request::Version => rt.write_all(b"boltraven 0.4.0\n"),
        Request::Unknown => rt.stderr().write_all(
            b"boltraven: a file whose name begins with - is given as ./-NAME; --help tells more\n",
        ),
        Request::File => print_file(rt, word),
    }
}

// What the one argument asks for.
fn print_first(rt: &HostRuntime) -> io::Result<()> {
    let mut word = [0u8; 4096];
    match program::first_word(rt, &mut word) {
        Ok(n) => print_asked(rt, &word[..n]),
        Err(error) => program::fail(&mut rt.stderr(), b"the argument", error),
    }
}

fn main(rt: HostRuntime) -> io::Result<()> {
    if program::has_word(&rt, 2) {
        return rt
            .stderr()
            .write_all(b"boltraven: more than one argument; --help tells more\n");
    }
    if program::has_word(&rt, 1) {
        return print_first(&rt);
    }
    print_listing(&rt, &mut rt.stdin(), b"standard input")
}
