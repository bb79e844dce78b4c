// The listing program: what it reads, what it writes, and what it says where it can do neither. The reader, the writer and standard error are arguments,
// so that a program of the gate can try those that fail. A loss is told by a line on standard error, and the exit status stays 0 (docs/DECISIONS.md, Listing).
#![tactic(auto)]

ghost use Rattle.std.specs.Prelude.{◌≡◌, ◌≤◌, length, take};
ghost use Rattle.std.specs.Io.{ReadsAtMost};
ghost use Rattle.lister.specs.Listings.{listing_of, listing_limit};
ghost use Rattle.console.specs.Inputs.{Within};

use base::TEXT_LIMIT;
use std::env::FillError;
use std::fmt::{Display, Formatter};
use std::io::{ErrorKind, Read, Write};
use std::rt::Env;
use std::{fmt, io};

// Room for the listing of every text.
const LISTING_LIMIT: usize = 86016;

const USAGE: &str =
    "usage: listing < FILE (lists the pattern that FILE holds; takes no arguments)\n";

// Reads until the buffer is full or the input ends, and answers how many bytes stand before that. A reader gives as many at a time as it likes, so a
// loop counts them. (Read::read_exact takes an input that ends before the buffer is full for an error.)
pub fn fill<R: Read>(from: &mut R, buf: &mut [u8]) -> io::Result<usize>
    ensures fits { Within result (length buf.old) }
    ensures within { ReadsAtMost result buf.new }
    ensures kept { length buf.new ≡ length buf.old }
{
    let mut done = 0;
    while done < buf.len() {
        match from.read(&mut buf[done..])? {
            0 => break,
            more => done += more,
        }
    }
    Ok(done)
}

// The words of the system, which the library ends with the error's number in brackets.
fn words(said: &str) -> &str {
    said.split_once(" (os error ")
        .map_or(said, |(words, _)| words)
}

// Why a call of the system failed, in its words alone; whole, with the number, where they are longer than any system's or no text.
#[derive(Drop)]
struct Reason(io::Error);

impl Display for Reason {
    fn fmt<W: fmt::Write>(&self, f: &mut Formatter<W>) -> fmt::Result {
        let mut room = [0u8; 256];
        let mut rest = &mut room[..];
        let _ = rest.write_fmt(&self.0);
        let left = rest.len();
        let n = 256usize.saturating_sub(left);
        match str::from_utf8(&room[..n]) {
            Ok(said) if left > 0 => f.write_str(words(said)),
            _ => write!(f, "{}", self.0),
        }
    }
}

// Says on standard error what the program cannot do, and why. Where that cannot be said either, nobody is left to be told.
fn complain<E: Eprint>(err: &E, what: &str, why: io::Error) {
    let why = Reason(why);
    let _ = eprintln!(err; "listing: {what}: {why}");
}

// Writes all of the bytes, or says why it could not. Of a pipe whose reader went away nothing is said: a signal ends a program for that, which the
// runtime has ignored.
fn write_out<W: Write, E: Eprint>(to: &mut W, bytes: &[u8], err: &E) {
    match to.write_all(bytes) {
        Ok(()) => {}
        Err(why) if why.kind() == ErrorKind::BrokenPipe => {}
        Err(why) => complain(err, "standard output cannot be written", why),
    }
}

// Lays the listing of a text at the front of a buffer that has room for every one.
fn lay(text: &[u8], out: &mut [u8]) -> usize
    requires { listing_limit ≤ length out.old }
    ensures { (result ≤ listing_limit) × (take result out.new ≡ listing_of text.now) }
{
    lister::list_pattern(text, out).unwrap()
}

// The listing of a text, written.
pub fn show<W: Write, E: Eprint>(text: &[u8], to: &mut W, err: &E) {
    let mut out = [0u8; LISTING_LIMIT];
    let n = lay(text, &mut out);
    write_out(to, &out[..n], err);
}

// The listing of what an input holds: one byte more than a text may have is read, so that a text that is too long shows.
pub fn list<R: Read, W: Write, E: Eprint>(from: &mut R, to: &mut W, err: &E) {
    let mut text = [0u8; TEXT_LIMIT + 1];
    match fill(from, &mut text) {
        Ok(n) => show(&text[..n], to, err),
        Err(why) => complain(err, "standard input cannot be read", why),
    }
}

// The program. Whoever gives it an argument wants something else than a wait for standard input: the line of usage, which is the program's output where
// it was asked for, else a complaint.
pub fn run<R: Env + io::Input + Print, E: Eprint>(rt: &R, err: &E) {
    let mut word = [0u8; 6];
    match rt.arg(1, &mut word) {
        Err(FillError::NotPresent) => list(&mut rt.reader(), &mut io::writer(rt), err),
        Ok(n) if &word[..n] == b"--help".as_slice() => {
            write_out(&mut io::writer(rt), USAGE.as_bytes(), err)
        }
        Ok(_) | Err(FillError::TooLong) => {
            let _ = err.eprint(USAGE);
        }
    }
}
