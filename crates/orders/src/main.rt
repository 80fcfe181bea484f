// How two stored values stand, for each pair of standard input: 32 bytes a pair, one record a pair, the number and the order
// parted by a tab. What it is run on in the gate, and must write, is made by tests/comparing/make-list from gcc's answers.
#![tactic(auto)]

ghost use Rattle.std.specs.Prelude.{◌≡◌, ◌+◌, ◌≤◌, length};

use decimal128::{Decimal128, NotOrdered};
use std::cmp::Ordering;
use std::io;
use std::io::{Read, Write};

// How many bytes are read at once, and at most written.
const BLOCK: usize = 65536;

// A record behind what stands in the output: how much stands there then. It is an array, whose length is known where it is copied.
fn put<const N: usize>(out: &mut [u8], at: usize, record: &[u8; N]) -> usize
    requires { at + N ≤ length out.old }
    ensures { result ≡ at + N }
{
    let end = at + N;
    out[at..end].copy_from_slice(record);
    end
}

// The record of an answer, put in the same way.
fn put_answer(out: &mut [u8], at: usize, answer: Result<Ordering, NotOrdered>) -> usize
    requires { at + 5 ≤ length out.old }
    ensures { result ≤ at + 5 }
{
    match answer {
        Ok(Ordering::Less) => put(out, at, b"0\t-1\n"),
        Ok(Ordering::Equal) => put(out, at, b"0\t0\n"),
        Ok(Ordering::Greater) => put(out, at, b"0\t1\n"),
        Err(NotOrdered) => put(out, at, b"11\t0\n"),
    }
}

// The records of a block; what is left of a pair is 8, MalformedBytes.
fn records(block: &[u8], out: &mut [u8; BLOCK]) -> usize
    requires { length block.now ≤ BLOCK }
    ensures { result ≤ BLOCK }
{
    let (values, _) = block.as_chunks::<16>();
    let mut end = 0;
    for pair in values.chunks_exact(2) {
        let first = Decimal128::from_bytes(pair[0]);
        let second = Decimal128::from_bytes(pair[1]);
        end = put_answer(out, end, first.compare(second));
    }
    if block.len() % 32 != 0 {
        end = put(out, end, b"8\t-\n");
    }
    end
}

// Reads until the block is full, the input ends or a read fails: how many bytes stand in the block then.
fn read_full(input: &mut impl Read, block: &mut [u8; BLOCK]) -> usize
    ensures { result ≤ BLOCK }
{
    let mut done = 0;
    // No `for`: each turn goes on by as much as was read.
    while done < block.len() {
        match input.read(&mut block[done..]) {
            Ok(n) if n > 0 => done += n,
            _ => return done,
        }
    }
    done
}

// The records of standard input. Nothing says that it ends, so the blocks are counted, up to a number that no run reaches.
fn answer_all(rt: &(impl Input + Print)) -> io::Result<()> {
    let mut input = rt.reader();
    let mut block = [0; BLOCK];
    let mut out = [0; BLOCK];
    for _ in 0..u64::MAX {
        let n = read_full(&mut input, &mut block);
        let end = records(&block[..n], &mut out);
        rt.write_all(&out[..end])?;
        if n < block.len() {
            break;
        }
    }
    Ok(())
}

// Where the error cannot be written either, nothing is left to say.
fn main(rt: HostRuntime) {
    if answer_all(&rt).is_err() {
        let _ = eprintln!(rt; "orders: standard output cannot be written");
    }
}
