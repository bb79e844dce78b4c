// Reads texts from standard input, each on a line after its length, and writes what the reading door answers and leaves.
#![tactic(auto)]

ghost use Rattle.std.specs.Prelude.{◌<◌, ◌≤◌, length, IfSome};

use std::io;

fn left<P: Print>(rt: &P, pool: &[u32], used: usize) -> io::Result<()> {
    gatekit::left(rt, pool, used, 4096)?;
    print!(rt; "\n")
}

// The first entries of a pool, which have four words each.
fn entries<P: Print>(rt: &P, pool: &[u32], count: usize) -> io::Result<()> {
    let (entries, _) = pool.as_chunks::<4>();
    for [a, b, c, d] in entries.iter().take(count) {
        print!(rt; "{a} {b} {c} {d}\n")?;
    }
    Ok(())
}

fn one<P: Print>(rt: &P, text: &[u8], pool: &mut [u32]) -> io::Result<()> {
    match readdoor::read(text, pool) {
        Ok(read) => {
            print!(rt; "read {} words {}", read.end, read.words)?;
            left(rt, pool, read.words)?;
            if read.words <= 64 {
                entries(rt, pool, read.words / 4)?;
            }
            Ok(())
        }
        Err(refused) => {
            gatekit::refused(rt, refused)?;
            left(rt, pool, 0)
        }
    }
}

// Into a pool of so many words.
fn into<const N: usize, P: Print>(rt: &P, text: &[u8]) -> io::Result<()>
    requires { N ≤ 4100 }
{
    let mut pool = [gatekit::OLD_TOKEN; N];
    one(rt, text, &mut pool)
}

// The first text of the input, and what follows the end of its line.
fn first_text(input: &[u8]) -> Option<(&[u8], &[u8])>
    ensures { IfSome result (λ p. length p.1.now < length input.now) }
{
    let size = digits::number(input, 0).ok()??;
    let (_, lines) = input.get(size.stop..)?.split_first()?;
    // `as`: the library has no From<u32> for usize.
    let (text, end) = lines.split_at_checked(size.value as usize)?;
    let rest = end.get(1..).unwrap_or(&[]);
    Some((text, rest))
}

// The four words beyond the 4,096 that a call may write must stay.
fn run<P: Print>(rt: &P, input: &[u8]) -> io::Result<()> {
    let mut rest = input;
    while let Some((text, after)) = first_text(rest) {
        into::<4100, _>(rt, text)?;
        rest = after;
    }
    Ok(())
}

fn main(rt: HostRuntime) -> io::Result<()> {
    let mut input = [0u8; 65536];
    let n = console::fill(&mut rt.reader(), &mut input)?;
    run(&rt, &input[..n])?;
    // A word less than a call wants.
    into::<4095, _>(&rt, b"{ AB }")?;
    into::<4095, _>(&rt, b"{ AG }")
}
