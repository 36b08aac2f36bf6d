// Replays a list of payloads: a line is a payload in hex and how many records its list holds. Prints counts by type and by refusal.
// as: std has no From between these widths; each number fits its place, or is cut on purpose.
#![tactic(auto)]

mod tally;

ghost use Rattle.std.specs.Prelude.{◌≤◌};

use lines::Fields;
use std::io;
use std::io::Read;
use tally::{Again, Tally};

const NEWLINE: u8 = b'\n';

// More pieces of the input than the list has; 64 are four megabytes.
const PIECES: u32 = 64;

// A line that is being read; its bytes past the 4,096th are let go.
// No heap: bytes at the front of an array, and how many there are.
#[derive(Drop)]
struct Pending {
    text: [u8; 4096],
    len: usize,
    ghost within: { len ≤ 4096 },
}

impl Pending {
    fn push(&mut self, b: u8) {
        if self.len < self.text.len() {
            self.text[self.len] = b;
            self.len += 1;
        }
    }

    fn fields(&self) -> Fields<'_> {
        Fields::of(&self.text[..self.len])
    }
}

// So many bytes from a place on; none where they are not there.
fn shown(bytes: &[u8], start: usize, len: usize) -> &[u8] {
    match bytes.get(start..) {
        Some(rest) => rest.get(..len).unwrap_or(&rest[..0]),
        None => &bytes[..0],
    }
}

// Counts the block at a place, written again too, and gives the place after it.
fn block(payload: &[u8], place: usize, room: &mut [u8], tally: &mut Tally) -> usize {
    let Ok(read) = blocks_reader::read_block(payload, place) else {
        return payload.len();
    };
    let body = shown(payload, read.bytes.start, read.bytes.len);
    let again = match blocks_writer::write_block(read.kind, read.fields, body, room) {
        Ok(count) if place <= read.next => {
            if shown(room, 0, count) == shown(payload, place, read.next - place) {
                Again::Same
            } else {
                Again::OtherSize
            }
        }
        _ => Again::Unwritten,
    };
    tally.block(read.kind, read.size, again);
    read.next
}

// Counts a payload, whose list holds so many records.
fn payload(bytes: &[u8], capacity: usize, tally: &mut Tally) {
    let mut room = [0u8; 2048];
    tally.payloads = tally.payloads.saturating_add(1);
    match blocks_listing::count_blocks(bytes, capacity) {
        Ok(count) => {
            let mut place = 0;
            for _ in 0..count {
                place = block(bytes, place, &mut room, tally);
            }
        }
        Err(at) => tally.refused(at.refusal, at.place),
    }
}

fn line(out: &impl Print, mut fields: Fields, tally: &mut Tally) -> io::Result<()> {
    let mut bytes = [0u8; 1500];
    let Some(n) = fields.bytes(&mut bytes) else {
        return println!(out; "not a payload");
    };
    let capacity = fields.number().unwrap_or(u64::MAX);
    payload(&bytes[..n], capacity as usize, tally);
    Ok(())
}

// Runs each line that ends in a piece of the input.
fn take(out: &impl Print, piece: &[u8], text: &mut Pending, tally: &mut Tally) -> io::Result<()> {
    for b in piece {
        if *b == NEWLINE {
            line(out, text.fields(), tally)?;
            text.len = 0;
        } else {
            text.push(*b);
        }
    }
    Ok(())
}

// Reads the list, a piece at a time.
fn read(from: &mut impl Read, out: &impl Print, tally: &mut Tally) -> io::Result<()> {
    let mut piece = [0u8; 65536];
    let mut text = Pending {
        text: [0; 4096],
        len: 0,
    };
    for _ in 0..PIECES {
        let n = lines::read_full(from, &mut piece)?;
        take(out, &piece[..n], &mut text, tally)?;
    }
    Ok(())
}

fn main(rt: HostRuntime) -> io::Result<()> {
    let mut tally = Tally::new();
    read(&mut rt.stdin(), &rt, &mut tally)?;
    tally.print(&rt)
}
