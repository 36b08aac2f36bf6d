// Replays sequences of calls on one store, and compares each answer and the assembly buffer with the list's. tests/reassembly_lists.py writes the list.
// as: std has no From between these widths; each number fits its place, or is cut on purpose.
#![tactic(auto)]

ghost use Rattle.std.specs.Prelude.{◌<◌, ◌≤◌};

use lines::{Fields, Lines, Tally};
use reassembly::{Arrival, Fragment, RECORD_SIZE, ROOM_SIZE, Reply};
use refusals::Refusal;
use std::io;

// What the assembly buffer holds before a call.
const MARK: u8 = 165;

// What a line calls.
#[derive(Clone, Copy)]
enum Call {
    Arrive(Fragment),
    Sweep,
    New,
}

impl Call {
    // By its number, with the id and the two numbers that a fragment has.
    fn of(call: u64, id: u32, a: u64, b: u64) -> Call {
        match call {
            1 => Call::Arrive(Fragment::First {
                id,
                kind: (a % 256) as u8,
                expires: (b % 4294967296) as u32,
            }),
            2 => Call::Arrive(Fragment::FollowOn {
                id,
                number: (a % 256) as u8,
                last: b == 1,
            }),
            3 => Call::Sweep,
            _ => Call::New,
        }
    }
}

// A line's call, what it is given and what it answers.
#[derive(Clone, Copy)]
struct Line {
    call: Call,
    neighbour: u64,
    second: u64,
    seed: u64,
    len: usize,
    room: usize,
    number: u64,
    kind: u64,
    expires: u64,
    length: u64,
    sum: u64,
    ghost piece_fits: { len ≤ 2048 },
    ghost room_fits: { room ≤ 65536 },
}

// The number that is next; one that is none reads as one that no good line has.
fn number(fields: &mut Fields) -> u64 {
    fields.number().unwrap_or(u64::MAX)
}

impl Line {
    fn read(fields: &mut Fields) -> Line {
        let call = number(fields);
        let neighbour = number(fields);
        let id = (number(fields) % 4294967296) as u32;
        let a = number(fields);
        let b = number(fields);
        Line {
            call: Call::of(call, id, a, b),
            neighbour,
            second: number(fields),
            seed: number(fields),
            len: number(fields).min(2048) as usize,
            room: number(fields).min(65536) as usize,
            number: number(fields),
            kind: number(fields),
            expires: number(fields),
            length: number(fields),
            sum: number(fields),
        }
    }

    // Not == of two replies: the line's numbers may be wider than a reply's fields.
    fn is_reply(&self, r: Reply) -> bool {
        u64::from(r.number) == self.number
            && u64::from(r.kind) == self.kind
            && u64::from(r.expires) == self.expires
            && r.length as u64 == self.length
    }
}

// Byte j of a piece.
fn byte(seed: u64, j: usize) -> u8 {
    ((seed % 256 * 7 + (j % 256) as u64 * 13 + (j / 256 % 256) as u64) % 256) as u8
}

// A sum that knows the order of its bytes, with one byte more.
fn mixed(sum: u16, b: u8) -> u16
    ensures { result < 65521 }
{
    ((u32::from(sum) * 31 + u32::from(b) + 1) % 65521) as u16
}

// A store, its room for the pieces of 16 messages, 4 of each neighbour, and the assembly buffer.
#[derive(Clone, Copy)]
struct Store {
    rec: [u8; RECORD_SIZE],
    room: [u8; ROOM_SIZE],
    out: [u8; 65536],
}

impl Store {
    // The call of a line, which may assemble in the first bytes of the buffer.
    fn call(&mut self, l: &Line, piece: &[u8]) -> Result<Arrival, Refusal> {
        match l.call {
            Call::Arrive(fragment) => {
                let out = &mut self.out[..];
                reassembly_store::arrive(
                    &mut self.rec,
                    &mut self.room,
                    &mut out[..l.room],
                    l.neighbour,
                    fragment,
                    l.second,
                    piece,
                )
            }
            Call::Sweep => {
                reassembly_store::sweep(&mut self.rec, l.second);
                Ok(Arrival::Kept)
            }
            Call::New => {
                reassembly_store::new(&mut self.rec)?;
                Ok(Arrival::Kept)
            }
        }
    }

    // Calls what a line says; whether the answer and the buffer are the line's.
    fn agrees(&mut self, l: &Line) -> bool {
        let mut piece = [0u8; 2048];
        for (j, b) in piece[..l.len].iter_mut().enumerate() {
            *b = byte(l.seed, j);
        }
        self.out[..l.room].fill(MARK);
        let r = Reply::from(self.call(l, &piece[..l.len]));
        let out = &self.out[..l.room];
        let (Some(message), Some(rest)) = (out.get(..r.length), out.get(r.length..)) else {
            return false;
        };
        l.is_reply(r)
            && u64::from(message.iter().fold(0, |sum, b| mixed(sum, *b))) == l.sum
            && rest.iter().fold(true, |marked, b| marked & (*b == MARK))
    }
}

// Runs each line, and prints how many agree.
fn run(to: &impl Print, text: &[u8], store: &mut Store) -> io::Result<()> {
    let mut tally = Tally::new();
    for line in Lines::of(text) {
        let mut fields = line;
        let agrees = store.agrees(&Line::read(&mut fields));
        tally.count(agrees);
        if !agrees {
            println!(to; "{}: differs", line.at)?;
        }
    }
    println!(to; "{} calls, {} agree", tally.all, tally.agree)
}

fn main(rt: HostRuntime) -> io::Result<()> {
    let mut text = [0u8; 131072];
    let n = lines::read_full(&mut rt.stdin(), &mut text)?;
    let mut store = Store {
        rec: [0; RECORD_SIZE],
        room: [0; ROOM_SIZE],
        out: [0; 65536],
    };
    run(&rt, &text[..n], &mut store)
}
