// Lists the blocks of a payload: raw bytes from standard input, a line for each block.
#![tactic(auto)]

use std::io;

const LONGEST: usize = 1500;

// A line for each of the blocks that were counted, then their count.
fn listed(out: &impl Print, payload: &[u8], count: usize) -> io::Result<()> {
    let mut at = 0;
    for _ in 0..count {
        let step = blocks_listing::step_at(payload, at);
        let entry = step.entry;
        println!(out; "{} {} {}", entry.place, entry.kind, entry.size)?;
        at = step.next;
    }
    println!(out; "blocks {count}")
}

// A list as long as the payload holds every block, so it is never too short.
fn list(out: &impl Print, payload: &[u8]) -> io::Result<()> {
    match blocks_listing::count_blocks(payload, payload.len()) {
        Ok(count) => listed(out, payload, count),
        Err(at) => println!(out; "refused {} at {}", at.refusal.number(), at.place),
    }
}

fn main(rt: HostRuntime) -> io::Result<()> {
    let mut bytes = [0u8; 4096];
    let n = lines::read_full(&mut rt.stdin(), &mut bytes)?;
    println!(rt; "at type size")?;
    if LONGEST < n {
        return println!(rt; "too long");
    }
    list(&rt, &bytes[..n])
}
