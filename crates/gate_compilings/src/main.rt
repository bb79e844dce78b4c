// Compiles texts from standard input, one on each line, and writes what the compiling door answers and leaves.
#![tactic(auto)]

use nodes::NodeWord;
use std::io;

// A pool: how many words are used, what is left of it, and no more than sixteen of the used words.
fn left<P: Print>(rt: &P, name: &str, pool: &[NodeWord], used: usize) -> io::Result<()> {
    print!(rt; "{name}{used}")?;
    gatekit::left(rt, pool, used, 512)?;
    gatekit::words(rt, pool, used.min(16))?;
    print!(rt; "\n")
}

// Compiles a text into pools, and tells what is left in them.
fn line<P: Print>(
    rt: &P,
    text: &[u8],
    forward: &mut [NodeWord],
    reverse: &mut [NodeWord],
) -> io::Result<()> {
    match compiledoor::compile(text, forward, reverse) {
        Ok(made) => {
            left(rt, "forward ", forward, made.forward)?;
            left(rt, "reverse ", reverse, made.reverse)
        }
        Err(refused) => {
            gatekit::refused(rt, refused)?;
            left(rt, " forward ", forward, 0)?;
            left(rt, " reverse ", reverse, 0)
        }
    }
}

// A pool of the words that a call may write and four beyond, which must stay; and one of a word less than a call wants. Each use is a pool of its own.
const LONG: [NodeWord; 516] = [gatekit::OLD; 516];

const SHORT: [NodeWord; 511] = [gatekit::OLD; 511];

fn main(rt: HostRuntime) -> io::Result<()> {
    let mut input = [0u8; 32768];
    let n = console::fill(&mut rt.reader(), &mut input)?;
    gatekit::each_line(&input[..n], |text| line(&rt, text, &mut LONG, &mut LONG))?;
    line(&rt, b"{ AB }", &mut LONG, &mut SHORT)?;
    line(&rt, b"{ AG }", &mut SHORT, &mut LONG)
}
