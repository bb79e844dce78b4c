// Lists the pattern that standard input holds: both programs and the literals, or why there are none.
#![tactic(auto)]

fn main(rt: HostRuntime) {
    console::run(&rt, &rt.stderr());
}
