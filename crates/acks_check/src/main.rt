// Replays calls of the tracker and expansions; tests/acks_list.py says how the list was made and what its lines are.
#![tactic(auto)]

mod asked;
mod expanded;
mod read;

use acks::{TRACKER_SIZE, Tracker};
use lines::{Fields, Lines, Tally};
use refusals::number_of;
use std::io;

// A tracker twice: by value, and as the bytes that calls in place change.
#[derive(Clone, Copy)]
pub(crate) struct Both {
    tracker: Tracker,
    bytes: [u8; TRACKER_SIZE],
}

impl Both {
    fn new() -> Both {
        Both {
            tracker: acks_tracker::new(),
            bytes: [0; TRACKER_SIZE],
        }
    }

    // A tracker that no call made: n is the highest, and alone marked.
    // n % 255 as usize: std has no From of a u32 for it, and try_from would answer a Result that cannot fail.
    fn start(n: u32) -> Both {
        let mut marks = [0u8; 255];
        let mut bytes = [0u8; TRACKER_SIZE];
        let i = (n % 255) as usize;
        marks[i] = 1;
        bytes[4 + i] = 1;
        wire_numbers::put_le(&mut bytes, 0, n);
        Both {
            tracker: Tracker { highest: n, marks },
            bytes,
        }
    }

    // Whether a registration by value and one in place both answer as the line says.
    fn register(&mut self, fields: &mut Fields) -> bool {
        let n = read::word(fields);
        let want = read::word(fields);
        let answer = number_of(acks_tracker::register(&mut self.tracker, n));
        let there = number_of(acks_tracker::recorded::register_in(&mut self.bytes, n));
        u32::from(answer) == want && there == answer
    }

    // Whether the line agrees, by its first letter.
    fn agrees(&mut self, fields: &mut Fields) -> bool {
        let Some(letter) = fields.next_field().first() else {
            return false;
        };
        match *letter {
            b'n' => {
                *self = Both::new();
                true
            }
            b's' => {
                *self = Both::start(read::word(fields));
                true
            }
            b'r' => self.register(fields),
            b'd' => asked::duplicate(fields, self),
            b'a' => asked::reported(fields, self),
            b'o' => asked::like_oracle(fields, self),
            b'e' => expanded::agrees(fields),
            b'#' => true,
            _ => false,
        }
    }
}

// Runs each line, and prints how many agree.
fn run(out: &impl Print, text: &[u8]) -> io::Result<()> {
    let mut both = Both::new();
    let mut tally = Tally::new();
    for line in Lines::of(text) {
        let mut fields = line;
        let agrees = both.agrees(&mut fields);
        tally.print(out, agrees)?;
    }
    println!(out; "{} lines, {} agree", tally.all, tally.agree)
}

// A main of its own, for the buffer's size is this list's.
fn main(rt: HostRuntime) -> io::Result<()> {
    let mut text = [0u8; 65536];
    let n = lines::read_full(&mut rt.stdin(), &mut text)?;
    run(&rt, &text[..n])
}
