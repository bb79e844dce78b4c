// The listing program asked for help: it must write its line of usage, and leave the pattern on standard input alone.
#![tactic(auto)]

fn main(rt: HostRuntime) {
    console::run(&rt, &rt.stderr());
}
