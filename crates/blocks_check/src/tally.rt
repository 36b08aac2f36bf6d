// Counts of what the payloads gave.
// as: std has no From between these widths; each number fits its place, or is cut on purpose.
use refusals::Refusal;
use std::io;

// How often something came, and the sum of the sizes or places that came with it.
#[derive(Clone, Copy)]
struct Count {
    times: u64,
    sum: u64,
}

impl Count {
    fn add(&mut self, x: u64) {
        self.times = self.times.saturating_add(1);
        self.sum = self.sum.wrapping_add(x);
    }
}

const NONE: Count = Count { times: 0, sum: 0 };

// What came of writing a block again.
#[derive(Clone, Copy)]
pub(crate) enum Again {
    Same,
    OtherSize,
    Unwritten,
}

// Blocks by type, with their sizes; refusals by number, with their places; blocks written again; payloads.
#[derive(Clone, Copy)]
pub(crate) struct Tally {
    types: [Count; 256],
    refusals: [Count; 11],
    same: u64,
    other_size: u64,
    unwritten: u64,
    pub(crate) payloads: u64,
}

impl Tally {
    pub(crate) fn new() -> Tally {
        Tally {
            types: [NONE; 256],
            refusals: [NONE; 11],
            same: 0,
            other_size: 0,
            unwritten: 0,
            payloads: 0,
        }
    }

    // Counts a block, and what came of writing it again.
    pub(crate) fn block(&mut self, kind: u8, size: u16, again: Again) {
        self.types[usize::from(kind)].add(u64::from(size));
        let n = match again {
            Again::Same => &mut self.same,
            Again::OtherSize => &mut self.other_size,
            Again::Unwritten => &mut self.unwritten,
        };
        *n = n.saturating_add(1);
    }

    pub(crate) fn refused(&mut self, refusal: Refusal, place: usize) {
        if let Some(count) = self.refusals.get_mut(usize::from(refusal.number())) {
            count.add(place as u64);
        }
    }

    pub(crate) fn print(&self, out: &impl Print) -> io::Result<()> {
        for (kind, count) in self.types.iter().enumerate() {
            if count.times != 0 {
                println!(out; "type {kind}: {}, sizes {}", count.times, count.sum)?;
            }
        }
        for (number, count) in self.refusals.iter().enumerate().skip(1) {
            println!(out; "refused {number}: {}, places {}", count.times, count.sum)?;
        }
        println!(out;
            "written again: {}, with another size: {}",
            self.same, self.other_size
        )?;
        if self.unwritten != 0 {
            println!(out; "some that were read could not be written")?;
        }
        println!(out; "{} payloads", self.payloads)
    }
}
