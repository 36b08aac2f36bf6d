// A piece of a message taken into its neighbour's share of record and room: kept, or its message finished, or refused.
// The record is a slice with a clause: docs/FREE.md names these functions for every slice that is long enough, and an array would ask for more; a struct round
// the three &mut slices has each function promise that its fields stay the same references. Slot and second go beside them, used one by one.
#![tactic(auto)]

ghost use Rattle.std.specs.Prelude.{◌≡◌, List, ℕ, ◌+◌, ◌<◌, ◌≤◌, length};
ghost use Rattle.refusals.specs.Numbers.{number};
ghost use Rattle.reassembly.specs.Sizes.{slot_size, share_room, share_size};
ghost use Rattle.reassembly.specs.Calls.{lent, after, bare, kept_rec, kept_room, finished, put_in, compared, added, opened_in, opened_now, remembered_after, taken_piece, bad_size, off_number, first_taken, follow_on_taken};
ghost use Rattle.reassembly.specs.Arrivals.{reply_of};

pub use reassembly::bare;
use reassembly::{Arrival, Entry, Head, Label, MESSAGE_SIZE, SLOT_SIZE};
use reassembly_slots::pieces::{self, Joining};
use reassembly_slots::summary;
use refusals::Refusal;

// A piece that neither 50 nor 51 refused: what comes with it, and its bytes.
#[derive(Clone, Copy)]
struct Piece<'a> {
    label: Label,
    bytes: &'a [u8],
    ghost numbered: { label.number < 128 },
    ghost sized: { length bytes.now ≤ 1500 },
}

impl Piece<'_> {
    // Its number, as the place in its slot's table.
    fn number(self) -> usize
        ensures { (result ≡ self.entry.label.number) × (result < 128) }
    {
        usize::from(self.label.number)
    }

    // How many bytes it has, as an entry of a table says it.
    // A number that is proved to fit is turned with as: try_from would answer a Result that cannot fail.
    fn len(self) -> u16
        ensures { (result ≡ length self.entry.bytes.now) × (result ≤ 1500) }
    {
        self.bytes.len() as u16
    }
}

// A piece is kept in slot i, after the `total` bytes that the slot holds; the slot's head is then g.
fn keep(rec: &mut [u8], room: &mut [u8], i: usize, total: u16, g: Head, piece: Piece)
    requires { (share_size ≤ length rec.old) × (share_room ≤ length room.old) × (i < 4) × (total + length piece.bytes.now ≤ slot_size) }
    ensures rec_after { rec.new ≡ kept_rec rec.old i piece.entry.label.number total (length piece.entry.bytes.now) g }
    ensures room_after { room.new ≡ kept_room room.old i total piece.entry.bytes.now }
{
    wire::copy_to(room, i * SLOT_SIZE + usize::from(total), piece.bytes);
    reassembly_records::save_entry(
        rec,
        i,
        piece.number(),
        Entry {
            place: total,
            len: piece.len(),
        },
    );
    reassembly_records::save_head(rec, i, g);
}

// The message of slot i, finished (lent by the piece): 59, or 56, or it is put to the start of out and its slot is free.
fn finish(
    rec: &mut [u8],
    room: &[u8],
    out: &mut [u8],
    i: usize,
    g: Head,
    piece: Piece,
) -> Result<Arrival, Refusal>
    requires { (share_size ≤ length rec.old) × (share_room ≤ length room.now) × (i < 4) × (g.last < 128) }
    ensures { after (reply_of result) (lent rec.new room.now out.new) ≡ finished (lent rec.old room.now out.old) i piece.entry.label g piece.entry.bytes.now }
{
    let last = usize::from(g.last);
    let joining = Joining {
        rec,
        slot: i,
        number: piece.number(),
        bytes: piece.bytes,
    };
    let m = joining.measure(last);
    if m.outside {
        return Err(Refusal::LentShort);
    }
    if out.len() < m.size {
        return Err(Refusal::BufferShort);
    }
    joining.assemble(room, out, last);
    reassembly_records::save_head(rec, i, reassembly_judge::no_head());
    Ok(Arrival::Finished {
        kind: g.kind,
        expires: g.expires,
        length: m.size,
    })
}

// A piece that fits slot i, whose head is h: 53, or the message is finished, or the piece is kept.
fn put(
    rec: &mut [u8],
    room: &mut [u8],
    out: &mut [u8],
    i: usize,
    h: Head,
    piece: Piece,
) -> Result<Arrival, Refusal>
    requires { (share_size ≤ length rec.old) × (share_room ≤ length room.old) × (i < 4) }
    ensures { after (reply_of result) (lent rec.new room.new out.new) ≡ put_in (lent rec.old room.old out.old) i h piece.entry.label piece.entry.bytes.now }
{
    if MESSAGE_SIZE < usize::from(h.total) + piece.bytes.len() {
        return Err(Refusal::MessageLong);
    }
    let g = reassembly_judge::grown(h, piece.label, piece.len());
    if reassembly_judge::is_complete(g) {
        return finish(rec, room, out, i, g, piece);
    }
    keep(rec, room, i, h.total, g, piece);
    Ok(Arrival::Kept)
}

// A piece whose number is held in slot i, whose head is h: 59, or 54 or 55.
fn compare(rec: &[u8], room: &[u8], i: usize, h: Head, piece: Piece) -> Refusal
    requires { (share_size ≤ length rec.now) × (share_room ≤ length room.now) × (i < 4) }
    ensures { number result ≡ compared rec.now room.now i h piece.entry.label piece.entry.bytes.now }
{
    let k = piece.number();
    let e = reassembly_records::load_entry(rec, i, k);
    if pieces::outside(e) {
        return Refusal::LentShort;
    }
    reassembly_judge::again(h, piece.label, pieces::piece(rec, room, i, k), piece.bytes)
}

// A piece of the open message of slot i: it is compared with the held one, or 55, or it is put.
fn add(
    rec: &mut [u8],
    room: &mut [u8],
    out: &mut [u8],
    i: usize,
    piece: Piece,
) -> Result<Arrival, Refusal>
    requires { (share_size ≤ length rec.old) × (share_room ≤ length room.old) × (i < 4) }
    ensures { after (reply_of result) (lent rec.new room.new out.new) ≡ added (lent rec.old room.old out.old) i piece.entry.label piece.entry.bytes.now }
{
    let h = reassembly_records::load_head(rec, i);
    let e = reassembly_records::load_entry(rec, i, piece.number());
    if e.len != 0 {
        return Err(compare(rec, room, i, h, piece));
    }
    if reassembly_judge::misfits(h, piece.label) {
        return Err(Refusal::PieceConflict);
    }
    put(rec, room, out, i, h, piece)
}

// A piece of a message that is not open is kept in the free slot i.
fn open_in(rec: &mut [u8], room: &mut [u8], i: usize, second: u64, piece: Piece)
    requires { (share_size ≤ length rec.old) × (share_room ≤ length room.old) × (i < 4) }
    ensures { (out : List ℕ) → after (bare 0) (lent rec.new room.new out) ≡ opened_in (lent rec.old room.old out) i piece.entry.label second piece.entry.bytes.now }
{
    reassembly_records::clear_entries(rec, i);
    let h = reassembly_judge::new_head(piece.label, second);
    let g = reassembly_judge::grown(h, piece.label, piece.len());
    keep(rec, room, i, 0, g, piece);
}

// A piece of a message that is not open: 57 where its id is remembered, or 52, or it is kept in the first free slot. 52 is judged by the summary; no slot is free
// below that only where no call made the share.
fn open(rec: &mut [u8], room: &mut [u8], second: u64, piece: Piece) -> Result<Arrival, Refusal>
    requires { (share_size ≤ length rec.old) × (share_room ≤ length room.old) }
    ensures { (out : List ℕ) → after (reply_of result) (lent rec.new room.new out) ≡ opened_now (lent rec.old room.old out) piece.entry.label second piece.entry.bytes.now }
{
    if reassembly_memory::remembers(rec, piece.label.id) {
        return Err(Refusal::AlreadyFinished);
    }
    let n = summary::open_count(rec);
    if 4 <= n {
        return Err(Refusal::StoreFull);
    }
    let Some(i) = reassembly_slots::vacant(rec) else {
        return Err(Refusal::StoreFull);
    };
    open_in(rec, room, i, second, piece);
    summary::save_open(rec, n + 1);
    Ok(Arrival::Kept)
}

// A piece was answered: where it finished its message, one less is open, and that is remembered with this second.
fn remember_finished(rec: &mut [u8], answer: Result<Arrival, Refusal>, id: u32, second: u64)
    requires { share_size ≤ length rec.old }
    ensures { rec.new ≡ remembered_after rec.old (reply_of answer).number (record { id = id; second = second }) }
{
    match answer {
        Ok(Arrival::Finished { .. }) => {
            summary::lower(rec);
            reassembly_memory::remember(rec, id, second);
        }
        Ok(Arrival::Kept) => {}
        Err(_) => {}
    }
}

// A piece of any message. Only one that would open a message looks through what is remembered.
fn take(
    rec: &mut [u8],
    room: &mut [u8],
    out: &mut [u8],
    second: u64,
    piece: Piece,
) -> Result<Arrival, Refusal>
    requires { (share_size ≤ length rec.old) × (share_room ≤ length room.old) }
    ensures { after (reply_of result) (lent rec.new room.new out.new) ≡ taken_piece (lent rec.old room.old out.old) piece.entry.label second piece.entry.bytes.now }
{
    if let Some(i) = reassembly_slots::find(rec, piece.label.id) {
        let answer = add(rec, room, out, i, piece);
        remember_finished(rec, answer, piece.label.id, second);
        return answer;
    }
    open(rec, room, second, piece)
}

// 50: a piece has 1 to 1,500 bytes.
// 50 and 51 are two rules of 01, each with a definition of its own.
#[tactic(auto, unfolding(reassembly::specs::Calls::bad_size))]
fn bad_size(n: usize) -> bool
    ensures { result ≡ bad_size n }
{
    (n == 0) | (1500 < n)
}

// 51: a follow-on piece has a number from 1 to 127.
#[tactic(auto, unfolding(reassembly::specs::Calls::off_number))]
fn off_number(k: u8) -> bool
    ensures { result ≡ off_number k }
{
    (k == 0) | (127 < k)
}

// A first piece: 50, or it is taken.
// Two functions: docs/FREE.md names both for every label, and they differ by 51; what is alike is take.
pub fn take_first(
    rec: &mut [u8],
    room: &mut [u8],
    out: &mut [u8],
    label: Label,
    second: u64,
    bytes: &[u8],
) -> Result<Arrival, Refusal>
    requires { (share_size ≤ length rec.old) × (share_room ≤ length room.old) × (label.number < 128) }
    ensures { after (reply_of result) (lent rec.new room.new out.new) ≡ first_taken (lent rec.old room.old out.old) label second bytes.now }
{
    if bad_size(bytes.len()) {
        return Err(Refusal::PieceLength);
    }
    take(rec, room, out, second, Piece { label, bytes })
}

// A follow-on piece: 50, or 51, or it is taken.
pub fn take_follow_on(
    rec: &mut [u8],
    room: &mut [u8],
    out: &mut [u8],
    label: Label,
    second: u64,
    bytes: &[u8],
) -> Result<Arrival, Refusal>
    requires { (share_size ≤ length rec.old) × (share_room ≤ length room.old) }
    ensures { after (reply_of result) (lent rec.new room.new out.new) ≡ follow_on_taken (lent rec.old room.old out.old) label second bytes.now }
{
    if bad_size(bytes.len()) {
        return Err(Refusal::PieceLength);
    }
    if off_number(label.number) {
        return Err(Refusal::PieceNumber);
    }
    take(rec, room, out, second, Piece { label, bytes })
}
