// Replays packets of a live router: each is read, compared, written again and compared; then damaged copies of it, each of which must be refused.
#![tactic(auto)]

mod damage;
mod fields;

use fields::Packet;
use lines::{Fields, Input};
use std::io;
use std::io::Read;

// More buffers of lines than the list has.
const BUFFERS: u32 = 64;

// Whether reading leaves the line's plain header, and writing the fields again the packet.
fn reads_and_writes(p: &Packet, plain: &[u8]) -> bool {
    let mut work = p.bytes;
    let Ok(kind) = header_packets::read(&mut work[..p.len], &p.k1, &p.k2) else {
        return false;
    };
    let f = fields::of(kind);
    work.starts_with(plain)
        && p.agrees(f)
        && header_packets::write(f, &mut work[..p.len], &p.k1, &p.k2).is_ok()
        && work == p.bytes
}

// What the lines gave: how many there are, how many agree, and how many damaged copies were refused by each number.
#[derive(Clone, Copy, Default)]
struct Counts {
    all: u64,
    agree: u64,
    short: u64,
    kind: u64,
    version: u64,
    key: u64,
    number: u64,
}

// One more where something is so.
fn count(n: &mut u64, so: bool) {
    *n = n.saturating_add(u64::from(so));
}

impl Counts {
    // Counts what comes of a line's packet and its damaged copies.
    fn run(&mut self, mut fields: Fields) {
        let mut plain = [0u8; 64];
        count(&mut self.all, true);
        let Some(p) = Packet::read(&mut fields) else {
            return;
        };
        // A field that is not compared stands before it.
        fields.next_field();
        let len = fields.bytes(&mut plain).unwrap_or(0);
        count(&mut self.agree, reads_and_writes(&p, &plain[..len]));
        count(&mut self.short, damage::too_short(&p));
        count(&mut self.kind, damage::other_type(&p));
        count(&mut self.version, damage::other_version(&p));
        count(&mut self.key, damage::no_room_for_key(&p));
        count(&mut self.number, damage::numbered(&p));
    }
}

// The whole list, a buffer of lines at a time.
fn run_all(from: &mut impl Read) -> io::Result<Counts> {
    let mut counts = Counts::default();
    let mut input = Input::new();
    for _ in 0..BUFFERS {
        input.refill(from)?;
        for line in input.lines() {
            counts.run(line);
        }
    }
    Ok(counts)
}

fn main(rt: HostRuntime) -> io::Result<()> {
    let c = run_all(&mut rt.stdin())?;
    println!(rt; "packets {}", c.all)?;
    println!(rt; "read, and written again as they came {}", c.agree)?;
    println!(rt; "damaged and refused with 20 {}", c.short)?;
    println!(rt; "damaged and refused with 21 {}", c.kind)?;
    println!(rt; "damaged and refused with 22 {}", c.version)?;
    println!(rt; "damaged and refused with 23 {}", c.key)?;
    println!(rt; "damaged and refused with 24 {}", c.number)?;
    println!(rt;
        "writing refused as it should be, of 9: {}",
        damage::written()
    )
}
