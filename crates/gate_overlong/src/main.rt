// The listing program on a text of 4,097 bytes, of which the first 15 would be a pattern: it must see the last byte too.
#![tactic(auto)]

fn main(rt: HostRuntime) {
    console::run(&rt, &rt.stderr());
}
