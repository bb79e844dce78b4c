// Answers the cases of the file `cases` by the library's doors, in the lines that `compare/run sample` writes for the original Rust. What the
// program must write, the file `stdout`, was made by the Rust and not by this program: README.md beside it says how.
#![tactic(auto)]

use base::{Refusal, Refused};
use nodes::NodeWord;
use std::io;

// A name, and the first n words of a pool.
fn words<P: Print>(rt: &P, name: &str, pool: &[NodeWord], n: usize) -> io::Result<()> {
    print!(rt; "{name}")?;
    gatekit::words(rt, pool, n)?;
    print!(rt; "\n")
}

fn refused<P: Print>(rt: &P, r: Refused) -> io::Result<()> {
    gatekit::refused(rt, r)?;
    print!(rt; "\n")
}

// What a check answers at each place up to a haystack's end.
fn found<P: Print, F: Fn(usize) -> Result<Option<usize>, Refusal>>(
    rt: &P,
    name: &str,
    end: usize,
    check: F,
) -> io::Result<()>
    requires { F.IsAlwaysCallable check }
{
    print!(rt; "{name}")?;
    for place in 0..=end {
        gatekit::found(rt, check(place))?;
    }
    print!(rt; "\n")
}

// The forward check goes from every start to the haystack's end, and the reverse one from its start to every end.
fn programs<P: Print>(rt: &P, text: &[u8], hay: &[u8]) -> io::Result<()> {
    let mut forward: [NodeWord; 512] = [0; 512];
    let mut reverse: [NodeWord; 512] = [0; 512];
    let made = match compiledoor::compile(text, &mut forward, &mut reverse) {
        Ok(made) => made,
        Err(r) => return refused(rt, r),
    };
    words(rt, "forward", &forward, made.forward)?;
    words(rt, "reverse", &reverse, made.reverse)?;
    let program = &forward[..made.forward.min(512)];
    let end = hay.len();
    found(rt, "ends", end, |start| {
        checkdoors::forward(program, hay, start, end)
    })?;
    let program = &reverse[..made.reverse.min(512)];
    found(rt, "starts", end, |end| {
        checkdoors::reverse(program, hay, 0, end)
    })
}

// So many literals, which stand one after another in the bytes, each as long as the lengths say.
fn each<P: Print>(rt: &P, bytes: &[u8], lengths: &[u16], count: usize) -> io::Result<()> {
    let mut rest = bytes;
    for n in lengths.iter().take(count) {
        let Some((literal, after)) = rest.split_at_checked(usize::from(*n)) else {
            return Ok(());
        };
        gatekit::hex(rt, literal)?;
        rest = after;
    }
    Ok(())
}

// The literals' line. Where 17 or 19 is given, literals aren't compared.
fn picked<P: Print>(rt: &P, text: &[u8]) -> io::Result<()> {
    let mut bytes = [0u8; 32768];
    let mut lengths = [0u16; 256];
    let Ok(got) = literaldoor::literals(text, &mut bytes, &mut lengths) else {
        return Ok(());
    };
    print!(rt; "rank {} literals", got.rank)?;
    each(rt, &bytes, &lengths, got.count)?;
    print!(rt; "\n")
}

fn answers<P: Print>(rt: &P, text: &[u8], hay: &[u8]) -> io::Result<()> {
    let mut tokens = [0u32; 4096];
    let read = match readdoor::read(text, &mut tokens) {
        Ok(read) => read,
        Err(r) => return refused(rt, r),
    };
    print!(rt; "reached {}\ntokens", read.end)?;
    gatekit::words(rt, &tokens, read.words)?;
    print!(rt; "\n")?;
    programs(rt, text, hay)?;
    picked(rt, text)
}

// A haystack in hex, a blank and a text: the text's first bytes, and the answers.
fn case<P: Print>(rt: &P, line: &[u8]) -> io::Result<()> {
    let (spelt, rest) = line.split_at(gatekit::blank(line));
    let Some((_, text)) = rest.split_first() else {
        return Ok(());
    };
    gatekit::show(rt, text)?;
    let mut hay = [0u8; 64];
    let n = gatekit::unhex(spelt, &mut hay);
    answers(rt, text, &hay[..n])
}

fn line<P: Print>(rt: &P, l: &[u8]) -> io::Result<()> {
    if gatekit::heading(rt, l)? {
        return Ok(());
    }
    case(rt, l)
}

// The three lines are those of other programs, with a file and a case of this one's.
fn main(rt: HostRuntime) -> io::Result<()> {
    let mut cases = [0u8; 65536];
    let n = gatekit::load(&rt, b"cases", &mut cases)?;
    gatekit::each_line(&cases[..n], |l| line(&rt, l))
}
