// Replays calls of the sender on one record, and compares each answer and the list after it; tests/sender_list.py says how the list was made and what its lines are.
// as: std has no From between these widths; each number fits its place, or is cut on purpose.
#![tactic(auto)]

ghost use Rattle.std.specs.Prelude.{◌≤◌};

use acks_expand::Ack;
use lines::{Fields, Lines, Tally};
use refusals::Refusal;
use sender::{MOST_OUTSTANDING, SENDER_SIZE};
use std::io;

// The bytes of a packet in a line, and of 256 of them.
const PACKET: usize = 16;

const PACKETS: usize = 4096;

// What the list of settled numbers holds before a call.
const MARK: u32 = 7;

// The number that is next; one that is none reads as one that no good line has.
fn number(fields: &mut Fields) -> u64 {
    fields.number().unwrap_or(u64::MAX)
}

// Its low four bytes.
fn word(fields: &mut Fields) -> u32 {
    (number(fields) % 4294967296) as u32
}

// Whether the k-th outstanding packet is these bytes: its number, its second and how often it was sent again.
fn packet_is(rec: &[u8; SENDER_SIZE], k: usize, want: &[u8]) -> bool {
    let Some(p) = sender_list::packet_in(rec, k) else {
        return false;
    };
    let Some((number, rest)) = want.split_first_chunk::<4>() else {
        return false;
    };
    let Some((second, rest)) = rest.split_first_chunk::<8>() else {
        return false;
    };
    *number == p.number.to_be_bytes()
        && *second == p.second.to_be_bytes()
        && rest == p.resends.to_be_bytes().as_slice()
}

// Whether the outstanding packets are those of the next field; a dot stands for any.
// The line's fields and the state it is asked of stay two parameters: a struct of two references would be made for one call.
fn listed(fields: &mut Fields, rec: &[u8; SENDER_SIZE]) -> bool {
    let mut want = [0u8; PACKETS];
    let mut ahead = *fields;
    if ahead.next_field().first() == Some(&b'.') {
        return true;
    }
    let n = fields.bytes_or_all(&mut want);
    let count = sender_list::outstanding_in(rec).unwrap_or(0);
    if MOST_OUTSTANDING < count {
        return false;
    }
    PACKET * count == n
        && want[..n]
            .chunks_exact(PACKET)
            .enumerate()
            .all(|(k, packet)| packet_is(rec, k, packet))
}

// Whether a call answers as the line says: 0 and a value, or a refusal's number and 0.
fn is_told(answer: Result<u64, Refusal>, number: u64, value: u64) -> bool {
    match answer {
        Ok(n) => number == 0 && value == n,
        Err(refusal) => number == u64::from(refusal.number()) && value == 0,
    }
}

// Whether a send or a resend answers as the line says, and leaves its list.
fn given(fields: &mut Fields, rec: &[u8; SENDER_SIZE], g: Result<u32, Refusal>) -> bool {
    let answer = number(fields);
    let sent = number(fields);
    is_told(g.map(u64::from), answer, sent) && listed(fields, rec)
}

// So many sends at one second, at least one: what the last one answers.
fn sends(rec: &mut [u8; SENDER_SIZE], times: u64, second: u64) -> Result<u32, Refusal> {
    for _ in 1..times {
        let _ = sender_list::send_in(rec, second);
    }
    sender_list::send_in(rec, second)
}

fn send(fields: &mut Fields, rec: &mut [u8; SENDER_SIZE]) -> bool {
    let times = number(fields);
    let second = number(fields);
    let g = sends(rec, times, second);
    given(fields, rec, g)
}

fn resend(fields: &mut Fields, rec: &mut [u8; SENDER_SIZE]) -> bool {
    let old = word(fields);
    let second = number(fields);
    let g = sender_list::resend_in(rec, old, second);
    given(fields, rec, g)
}

// Whether the first n settled numbers are those of the line's bytes, and the others stayed.
fn settled_are(settled: &[u32; MOST_OUTSTANDING], want: &[u8; 1024], n: usize) -> bool
    requires { n ≤ 256 }
{
    settled[..n]
        .iter()
        .zip(want.chunks_exact(4))
        .all(|(number, four)| four == number.to_be_bytes().as_slice())
        && settled[n..].iter().all(|number| *number == MARK)
}

// Whether an ack of the line's pairs answers as it says, settles its numbers and leaves its list.
fn ack(fields: &mut Fields, rec: &mut [u8; SENDER_SIZE]) -> bool {
    let mut pairs = [0u8; 512];
    let mut settled = [MARK; MOST_OUTSTANDING];
    let mut want = [0u8; 1024];
    let len = fields.bytes_or_all(&mut pairs);
    let n = fields.bytes_or_all(&mut want);
    let through = word(fields);
    let count = (word(fields) % 256) as u8;
    let said = Ack {
        through,
        count,
        pairs: &pairs[..len],
    };
    let a = sender_acks::ack_in(rec, said, &mut settled);
    let answer = number(fields);
    is_told(a.map(|n| n as u64), answer, (n / 4) as u64)
        && settled_are(&settled, &want, (n + 3) / 4)
        && listed(fields, rec)
}

// A record of zeros, with the next field's bytes in front.
fn start(fields: &mut Fields, rec: &mut [u8; SENDER_SIZE]) -> bool {
    let mut fresh = [0; SENDER_SIZE];
    fields.bytes_or_all(&mut fresh);
    *rec = fresh;
    true
}

// Whether a line agrees, by its first letter.
fn agrees(fields: &mut Fields, rec: &mut [u8; SENDER_SIZE]) -> bool {
    match fields.next_field().first() {
        Some(b'n') => start(fields, rec),
        Some(b's') => send(fields, rec),
        Some(b'r') => resend(fields, rec),
        Some(b'a') => ack(fields, rec),
        _ => false,
    }
}

// Runs each line, and prints how many agree.
fn run(out: &impl Print, text: &[u8]) -> io::Result<()> {
    let mut rec = [0; SENDER_SIZE];
    let mut tally = Tally::new();
    for line in Lines::of(text) {
        let mut fields = line;
        let agrees = agrees(&mut fields, &mut rec);
        tally.print(out, agrees)?;
    }
    println!(out; "{} lines, {} agree", tally.all, tally.agree)
}

// A main of its own, for the buffer's size is this list's.
fn main(rt: HostRuntime) -> io::Result<()> {
    let mut text = [0u8; 131072];
    let n = lines::read_full(&mut rt.stdin(), &mut text)?;
    run(&rt, &text[..n])
}
