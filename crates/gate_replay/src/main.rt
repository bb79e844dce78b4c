// Lists every line of the file `texts` as a pattern: the line's first bytes, its listing, and an empty line.
#![tactic(auto)]

use std::io;

fn line<R: Print + Eprint>(rt: &R, text: &[u8]) -> io::Result<()> {
    gatekit::show(rt, text)?;
    console::show(text, &mut io::writer(rt), rt);
    print!(rt; "\n")
}

// The three lines are those of other programs, with a file and a case of this one's.
fn main(rt: HostRuntime) -> io::Result<()> {
    let mut texts = [0u8; 65536];
    let n = gatekit::load(&rt, b"texts", &mut texts)?;
    gatekit::each_line(&texts[..n], |text| line(&rt, text))
}
