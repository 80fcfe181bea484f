// One record for each stored value of standard input, a line of 32 hex digits: its text and its debug form. What it is run on
// in the gate, and must write, is made by tests/replay/make.
#![tactic(auto)]

fn main(rt: HostRuntime) {
    line::program::run::<line::Stored>(&rt);
}
