// What the listing program says where it can't read or write: its functions on a folder, a full device and files that are open for the other thing, and
// the whole of it on an argument that it does not take. Standard error is a file here, which is shown at the end.
#![tactic(auto)]

use std::fmt::Display;
use std::fs::File;
use std::io::Write;
use std::{fs, io};

// The file that stands for standard error.
#[derive(Drop)]
struct Said(File);

impl Eprint for Said {
    fn eprint<D: Display + Drop>(&self, value: D) -> io::Result<()> {
        (&self.0).write_fmt(value)
    }

    fn eprintln<D: Display + Drop>(&self, value: D) -> io::Result<()> {
        (&self.0).writeln(value)
    }
}

// Nothing of these may reach standard output. The system refuses to read what is open for writing alone as it refuses a closed descriptor.
fn try_inputs(rt: &HostRuntime, said: &Said) -> io::Result<()> {
    let mut folder = fs::open(rt, ".")?;
    console::list(&mut folder, &mut io::writer(rt), said);
    let mut unreadable = fs::create(rt, "/dev/null")?;
    console::list(&mut unreadable, &mut io::writer(rt), said);
    Ok(())
}

// The same of writing to what is open for reading alone.
fn try_outputs(rt: &HostRuntime, said: &Said) -> io::Result<()> {
    let mut full = fs::create(rt, "/dev/full")?;
    console::show(b"{ 61 }", &mut full, said);
    let mut unwritable = fs::open(rt, "/dev/null")?;
    console::show(b"{ 61 }", &mut unwritable, said);
    Ok(())
}

fn tell(rt: &HostRuntime, path: &str) -> io::Result<()> {
    let mut lines = [0u8; 4096];
    let mut file = fs::open(rt, path)?;
    let n = console::fill(&mut file, &mut lines)?;
    rt.write_all(&lines[..n])
}

fn main(rt: HostRuntime) -> io::Result<()> {
    let path = "said";
    let said = Said(fs::create(&rt, path)?);
    try_inputs(&rt, &said)?;
    try_outputs(&rt, &said)?;
    console::run(&rt, &said);
    tell(&rt, path)
}
