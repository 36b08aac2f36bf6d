// Held pieces as parts of the room, and the message that they make.
ghost use Rattle.std.specs.Prelude.{◌≡◌, false, ◌+◌, ◌<◌, ◌≤◌, length};
ghost use Rattle.wire.specs.Parts.{splice};
ghost use Rattle.reassembly.specs.Sizes.{slot_size, share_room, share_size};
ghost use Rattle.reassembly.specs.Record.{entry_at, outside, piece_at};
ghost use Rattle.reassembly.specs.Joining.{piece_or, message_of, outside_or, joins_outside, length_or, sum_of};

use reassembly::{Entry, SLOT_SIZE};

// An entry names bytes outside its slot's part of the room.
#[tactic(auto, unfolding(reassembly::specs::Record::outside))]
pub fn outside(e: Entry) -> bool
    ensures { result ≡ outside e }
{
    SLOT_SIZE < usize::from(e.place) + usize::from(e.len)
}

// Number k of slot i, as the part of the room that its entry names. Slot and number are the entry's own arguments.
pub fn piece<'a>(rec: &[u8], room: &'a [u8], i: usize, k: usize) -> &'a [u8]
    requires { (share_size ≤ length rec.now) × (share_room ≤ length room.now) × (i < 4) × (k < 128) × (outside (entry_at rec.now i k) ≡ false) }
    ensures { result.now ≡ piece_at rec.now room.now i k }
{
    let e = reassembly_records::load_entry(rec, i, k);
    let p = usize::from(e.place);
    let n = usize::from(e.len);
    let a = i * SLOT_SIZE;
    let b = a + SLOT_SIZE;
    let q = p + n;
    let s = &room[a..b];
    &s[p..q]
}

// What the record says of a piece or a message: whether it names bytes outside its slot's room, and the length.
// No Option: docs/FREE.md names measure, which tells the length where it names bytes outside too.
#[derive(Clone, Copy, Debug, PartialEq, Eq)]
pub struct Measured {
    pub outside: bool,
    pub size: usize,
}

// A message being joined: slot `slot` of a neighbour's share of the record, where number `number` is the piece that the call brings.
#[derive(Clone, Copy)]
pub struct Joining<'a> {
    pub rec: &'a [u8],
    pub slot: usize,
    pub number: usize,
    pub bytes: &'a [u8],
    ghost share_long: { share_size ≤ length rec.now },
    ghost one_of_4: { slot < 4 },
}

impl Joining<'_> {
    // Number k measured.
    #[tactic(auto, unfolding(reassembly::specs::Joining::outside_or, reassembly::specs::Joining::length_or))]
    fn measure_one(&self, k: usize) -> Measured
        requires { (k < 128) × (length self.now.bytes.now ≤ 1500) }
        ensures { (result.outside ≡ outside_or self.now.rec.now self.now.slot self.now.number k) × (result.size ≡ length_or self.now.rec.now self.now.slot self.now.number (length self.now.bytes.now) k) × (result.size ≤ slot_size) }
    {
        if k == self.number {
            return Measured {
                outside: false,
                size: self.bytes.len(),
            };
        }
        let e = reassembly_records::load_entry(self.rec, self.slot, k);
        Measured {
            outside: outside(e),
            size: usize::from(e.len),
        }
    }

    // The message of the numbers up to last measured.
    #[tactic(auto, unfolding(reassembly::specs::Joining::joins_outside))]
    pub fn measure(&self, last: usize) -> Measured
        requires { (last < 128) × (length self.now.bytes.now ≤ 1500) }
        ensures { (result.outside ≡ joins_outside self.now.rec.now self.now.slot self.now.number (last + 1)) × (result.size ≡ sum_of (length_or self.now.rec.now self.now.slot self.now.number (length self.now.bytes.now)) (last + 1)) }
    {
        let mut outside = false;
        let mut size = 0;
        for k in 0..last + 1 {
            let one = self.measure_one(k);
            outside |= one.outside;
            size += one.size;
        }
        Measured { outside, size }
    }

    // Number k is put to out from a place on; the place after it.
    #[tactic(auto, unfolding(reassembly::specs::Joining::piece_or, reassembly::specs::Joining::outside_or))]
    fn lay_down(&self, room: &[u8], out: &mut [u8], at: usize, k: usize) -> usize
        requires { (share_room ≤ length room.now) × (k < 128) × (outside_or self.now.rec.now self.now.slot self.now.number k ≡ false) × (at + length (piece_or self.now.rec.now room.now self.now.slot self.now.number self.now.bytes.now k) ≤ length out.old) }
        ensures { (result ≡ at + length (piece_or self.now.rec.now room.now self.now.slot self.now.number self.now.bytes.now k)) × (out.new ≡ splice out.old at (piece_or self.now.rec.now room.now self.now.slot self.now.number self.now.bytes.now k)) }
    {
        if k == self.number {
            wire::copy_to(out, at, self.bytes);
            return at + self.bytes.len();
        }
        let p = piece(self.rec, room, self.slot, k);
        wire::copy_to(out, at, p);
        at + p.len()
    }

    // The message of the numbers up to last is put to the start of out; the rest of out stays.
    pub fn assemble(&self, room: &[u8], out: &mut [u8], last: usize)
        requires { (share_room ≤ length room.now) × (last < 128) × (joins_outside self.now.rec.now self.now.slot self.now.number (last + 1) ≡ false) × (length (message_of self.now.rec.now room.now self.now.slot self.now.number self.now.bytes.now (last + 1)) ≤ length out.old) }
        ensures { out.new ≡ splice out.old 0 (message_of self.now.rec.now room.now self.now.slot self.now.number self.now.bytes.now (last + 1)) }
    {
        let mut at = 0;
        for k in 0..last + 1 {
            at = self.lay_down(room, out, at, k);
        }
    }
}
