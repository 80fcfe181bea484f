// One record for each line of standard input: document 01, 'The line program'. What it is run on in the gate, and must write,
// is made by tests/replay/make from the Rust's answers and MongoDB's published cases.
#![tactic(auto)]

fn main(rt: HostRuntime) {
    line::program::run::<line::Texts>(&rt);
}
