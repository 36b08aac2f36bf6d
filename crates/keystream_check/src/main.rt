// Replays RFC 8439's vectors: a line is a name, a key, a counter, a nonce, a text and what it becomes under the keystream.
#![tactic(auto)]

use lines::{Fields, Lines, Tally};
use std::{fmt, io};

// The bytes that a call of the block function gives.
const BLOCK: usize = 64;

// Under which keystream a text is.
#[derive(Drop)]
struct Vector {
    key: [u8; 32],
    counter: u32,
    nonce: [u8; 12],
}

// What came of a line.
#[derive(Clone, Copy, PartialEq, Eq)]
enum Outcome {
    NotAVector,
    Differs,
    Same,
    SameBlock,
}

impl fmt::Display for Outcome {
    fn fmt<W: fmt::Write>(&self, f: &mut fmt::Formatter<W>) -> fmt::Result {
        f.write_str(match self {
            Outcome::NotAVector => "not a vector",
            Outcome::Differs => "differs",
            Outcome::Same => "same",
            Outcome::SameBlock => "same, as a block too",
        })
    }
}

// A text under the keystream, block after block.
fn cipher(text: &mut [u8], v: &Vector) {
    let mut counter = v.counter;
    for part in text.chunks_mut(BLOCK) {
        let n = part.len().min(BLOCK);
        keystream::mask(part, 0, n, &v.key, counter, &v.nonce);
        counter = counter.wrapping_add(1);
    }
}

// The key, counter and nonce that the next fields are.
fn vector_of(fields: &mut Fields) -> Option<Vector> {
    let mut key = [0u8; 32];
    let mut nonce = [0u8; 12];
    let key_len = fields.bytes(&mut key)?;
    let counter = u32::try_from(fields.number()?).ok()?;
    let nonce_len = fields.bytes(&mut nonce)?;
    if key_len != key.len() || nonce_len != nonce.len() {
        return None;
    }
    Some(Vector {
        key,
        counter,
        nonce,
    })
}

// Whether the next field becomes the one after it; and whether that is a whole block, and the block function gives it.
fn compared(fields: &mut Fields, v: &Vector) -> Outcome {
    let mut text = [0u8; 512];
    let mut want = [0u8; 512];
    let (Some(n), Some(m)) = (fields.bytes(&mut text), fields.bytes(&mut want)) else {
        return Outcome::Differs;
    };
    cipher(&mut text[..n], v);
    if text[..n] != want[..m] {
        return Outcome::Differs;
    }
    if m != BLOCK {
        return Outcome::Same;
    }
    let stream = keystream::block(&v.key, v.counter, &v.nonce);
    if want[..m] == stream[..] {
        Outcome::SameBlock
    } else {
        Outcome::Same
    }
}

// What came of the line whose fields after its name are these.
fn outcome_of(fields: &mut Fields) -> Outcome {
    match vector_of(fields) {
        Some(v) => compared(fields, &v),
        None => Outcome::NotAVector,
    }
}

// Runs each line, and prints how many agree.
fn run(out: &impl Print, text: &[u8]) -> io::Result<()> {
    let mut tally = Tally::new();
    for line in Lines::of(text) {
        let mut fields = line;
        out.write_all(fields.next_field())?;
        let outcome = outcome_of(&mut fields);
        println!(out; ": {outcome}")?;
        tally.count(outcome == Outcome::Same || outcome == Outcome::SameBlock);
    }
    println!(out; "{} vectors, {} agree", tally.all, tally.agree)
}

// A main of its own, for the buffer's size is this list's.
fn main(rt: HostRuntime) -> io::Result<()> {
    let mut text = [0u8; 8192];
    let n = lines::read_full(&mut rt.stdin(), &mut text)?;
    run(&rt, &text[..n])
}
