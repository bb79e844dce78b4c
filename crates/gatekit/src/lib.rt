// What programs of the gate share: numbers, words and bytes on standard output, what is spelt in hex, and files that are read whole. No contract can say
// what is written; each program is held to its file `stdout`, and so are these.
#![tactic(auto)]

ghost use Rattle.std.specs.Prelude.{◌≡◌, ◌≢◌, ℕ, ◌<◌, ◌≤◌, length, slice_index, take};
ghost use Rattle.std.specs.Io.{ReadsAtMost};
ghost use Rattle.std.specs.Io.BufRead.{strip_last};

use base::{Refusal, Refused};
use nodes::NodeWord;
use std::fmt::Display;
use std::rt::Files;
use std::{fs, io};

// The words of a pool hold this before a call, so that what stays shows.
pub const OLD: NodeWord = 7;

// The same in a pool for tokens, which has narrower words.
pub const OLD_TOKEN: u32 = 7;

pub fn refused<P: Print>(rt: &P, r: Refused) -> io::Result<()> {
    print!(rt; "refused {} at {}", r.why.number(), r.place)
}

// What a check answers, after a blank.
pub fn found<P: Print>(rt: &P, r: Result<Option<usize>, Refusal>) -> io::Result<()> {
    match r {
        Ok(Some(n)) => print!(rt; " {n}"),
        Ok(None) => print!(rt; " no"),
        Err(why) => print!(rt; " refused {}", why.number()),
    }
}

// The first n words of a pool, a blank before each.
pub fn words<P: Print, T: Display>(rt: &P, pool: &[T], n: usize) -> io::Result<()> {
    for w in pool.iter().take(n) {
        print!(rt; " {w}")?;
    }
    Ok(())
}

// How many of the words hold `v`.
fn holding<T: Copy + Into<u64>>(words: &[T], v: u64) -> usize {
    words.iter().filter(|w| v == (**w).into()).count()
}

// What a call left in a pool of which it may write `size` words: how many of them are 0 after the used ones, and how many beyond are as before.
pub fn left<P: Print, T: Copy + Into<u64>>(
    rt: &P,
    pool: &[T],
    used: usize,
    size: usize,
) -> io::Result<()> {
    let (lent, beyond) = pool.split_at(size.min(pool.len()));
    let unused = &lent[used.min(lent.len())..];
    print!(rt;
        " zeros {} old {}",
        holding(unused, 0),
        holding(beyond, OLD)
    )
}

// A blank, and bytes in hex.
pub fn hex<P: Print>(rt: &P, bytes: &[u8]) -> io::Result<()> {
    print!(rt; " ")?;
    for b in bytes {
        print!(rt; "{b:02X}")?;
    }
    Ok(())
}

// The value of a hex digit, and 0 of any other byte.
pub fn value(c: u8) -> u8
    ensures { result ≤ 15 }
{
    match char::from(c).to_digit(16) {
        // `as`: a digit's value is below 16, and no From makes a number narrower.
        Some(v) => v as u8,
        None => 0,
    }
}

// The bytes that are spelt in hex, as far as there is room; how many they are.
pub fn unhex(hex: &[u8], out: &mut [u8]) -> usize
    ensures in_bounds { result ≤ length out.new }
    ensures prefix { result ≡ length (take result out.new) }
{
    let (pairs, _) = hex.as_chunks::<2>();
    for (place, [high, low]) in out.iter_mut().zip(pairs) {
        *place = 16 * value(*high) + value(*low);
    }
    out.len().min(pairs.len())
}

// The first bytes of a line.
pub fn show<P: Print>(rt: &P, line: &[u8]) -> io::Result<()> {
    rt.write_all(&line[..line.len().min(64)])?;
    print!(rt; "\n")
}

// Writes a heading as it is. Whether the line is one.
pub fn heading<P: Print>(rt: &P, line: &[u8]) -> io::Result<bool> {
    if !line.starts_with(b"#") {
        return Ok(false);
    }
    rt.write_all(line)?;
    print!(rt; "\n")?;
    Ok(true)
}

// Each line of a text, without its end.
pub fn each_line<F: FnMut(&[u8]) -> io::Result<()>>(text: &[u8], mut line: F) -> io::Result<()>
    requires { F.IsAlwaysCallable line }
{
    for l in text.split_inclusive(|c| *c == b'\n') {
        line(without_end(l))?;
    }
    Ok(())
}

// A line of a text that was split behind each end of a line, without that end.
pub fn without_end(line: &[u8]) -> &[u8]
    ensures { result.now ≡ strip_last 10 line.now }
{
    line.strip_suffix(b"\n").unwrap_or(line)
}

// Where a line's first blank stands, or the line's length.
pub fn blank(line: &[u8]) -> usize
    ensures bound { result ≤ length line.now }
    ensures before { (i : ℕ) → i < result → slice_index line.now i ≢ 32 }
    ensures there { result < length line.now → slice_index line.now result ≡ 32 }
{
    line.iter().position(|c| *c == b' ').unwrap_or(line.len())
}

// The bytes of a file, as far as there is room; how many they are. Where it cannot be opened it says so.
pub fn load<R: Files + Eprint>(rt: &R, path: &[u8], out: &mut [u8]) -> io::Result<usize>
    ensures within { ReadsAtMost result out.new }
    ensures kept { length out.new ≡ length out.old }
{
    match str::from_utf8(path) {
        Ok(name) => load_named(rt, name, out),
        Err(why) => {
            eprintln!(rt; "{path:?}: {why}")?;
            Ok(0)
        }
    }
}

// The same of a file whose name is text, as std wants it.
fn load_named<R: Files + Eprint>(rt: &R, path: &str, out: &mut [u8]) -> io::Result<usize>
    ensures within { ReadsAtMost result out.new }
    ensures kept { length out.new ≡ length out.old }
{
    match fs::open(rt, path) {
        Ok(mut file) => console::fill(&mut file, out),
        Err(why) => {
            eprintln!(rt; "{path}: {why}")?;
            Ok(0)
        }
    }
}
