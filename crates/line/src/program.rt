// The program over standard input and output: blocks are read and fed, and what each gives is written.
ghost use Rattle.std.specs.Prelude.{◌≤◌};

use crate::{Pending, Record, feeding};
use std::error::Error;
use std::fmt;
use std::io::{Read, Write};

// How many bytes are read at once, and at most written.
const BLOCK: usize = 65536;

// What ends the program before its input ends.
#[derive(Clone, Copy, Debug)]
enum Failure {
    Input,
    Output,
}

impl fmt::Display for Failure {
    fn fmt<W: fmt::Write>(&self, f: &mut fmt::Formatter<W>) -> fmt::Result {
        match self {
            Failure::Input => write!(f, "standard input cannot be read"),
            Failure::Output => write!(f, "standard output cannot be written"),
        }
    }
}

impl Error for Failure {}

// The program over a runtime: the line that has not ended, and room for what one call of `feed` writes.
#[derive(Drop)]
struct Program<'a, P> {
    rt: &'a P,
    pending: Pending,
    out: [u8; BLOCK],
}

impl<P: Print> Program<'_, P> {
    // Writes what stands at the front of the output.
    fn write(&self, count: usize) -> Result<(), Failure>
        requires { count ≤ BLOCK }
    {
        self.rt
            .write_all(&self.out[..count])
            .map_err(|_| Failure::Output)
    }

    // All lines of a block.
    fn feed<R: Record>(&mut self, block: &[u8]) -> Result<(), Failure> {
        let mut from = 0;
        // No `for`: each turn goes on by as much as `feed` took.
        while from < block.len() {
            let fed = feeding::feed::<R>(block, from, &mut self.pending, &mut self.out);
            self.write(fed.count)?;
            from = fed.from;
        }
        Ok(())
    }

    // The last line, at the end of the input.
    fn finish<R: Record>(&mut self) -> Result<(), Failure> {
        let count = feeding::finish::<R>(&self.pending, &mut self.out);
        self.write(count)
    }
}

// The whole of standard input. Nothing says that it ends, so the blocks are counted, up to a number that no run reaches.
fn copy<R: Record>(rt: &(impl Input + Print)) -> Result<(), Failure> {
    let mut input = rt.reader();
    let mut block = [0u8; BLOCK];
    let mut program = Program {
        rt,
        pending: Pending::new(),
        out: [0; BLOCK],
    };
    for _ in 0..u64::MAX {
        let n = input.read(&mut block).map_err(|_| Failure::Input)?;
        if n == 0 {
            return program.finish::<R>();
        }
        program.feed::<R>(&block[..n])?;
    }
    Ok(())
}

// The records of standard input. `lines: standard output cannot be written`, or the like, goes to standard error; where that
// cannot be written either, nothing is left to say.
pub fn run<R: Record>(rt: &(impl Input + Print + Eprint)) {
    if let Err(failure) = copy::<R>(rt) {
        let name = R::NAME;
        let _ = eprintln!(rt; "{name}: {failure}");
    }
}
