// The fields of a body by its row: read, judged and put by one loop each, for every type.
#![tactic(auto)]

ghost use Rattle.std.specs.Prelude.{◌≡◌, [], ◌+◌, ◌^◌, ◌≤◌, length};
ghost use Rattle.wire.specs.Parts.{splice};
ghost use Rattle.wire.specs.Numbers.{big_at, big_bytes};
ghost use Rattle.blocks.specs.Layout.{sum, fields_at, field_bytes, fits, eight};
ghost use Rattle.blocks.specs.Table.{widths, after_fields, typed, field_length, carries};
ghost use Rattle.blocks.specs.Packed.{row_number, width_of, unpacked};

use blocks::After;
use wire_numbers::{be, put_be};

// The row of a type, as one number, since a table of constants is stored anew at each use. In hexadecimal digits from the right: the widths of its fields, eight at most, the first field's first; what follows them (0 nothing, 1 bytes, 2 some bytes, 3 pairs, 4 an IP; 8 more where the first field is a message's type); the bytes of all fields.
#[derive(Clone, Copy, Debug, PartialEq, Eq)]
pub struct Row {
    pub kind: u8,
    pub number: u64,
    ghost is_row: { number ≡ row_number kind },
}

// A number that is proved to fit is turned with as: try_from would answer a Result that cannot fail.
impl Row {
    pub fn of(kind: u8) -> Row
        ensures { (result.kind ≡ kind) × (result.number ≡ row_number kind) }
    {
        Row {
            kind,
            number: number_of(kind),
        }
    }

    // The widths of the fields, a digit each.
    pub fn widths(self) -> u32
        ensures { unpacked 8 result ≡ widths self.kind }
    {
        (self.number % 4294967296) as u32
    }

    // What follows the fields.
    pub fn after(self) -> After
        ensures { result ≡ after_fields self.kind }
    {
        match self.number / 4294967296 % 8 {
            0 => After::Nothing,
            1 => After::Any,
            2 => After::Some,
            3 => After::Pairs,
            _ => After::Ip,
        }
    }

    // Whether bytes follow them.
    pub fn carries_bytes(self) -> bool
        ensures { result ≡ carries (after_fields self.kind) }
    {
        !matches!(self.after(), After::Nothing)
    }

    // Whether the first of them is the type of an I2NP message.
    pub fn is_typed(self) -> bool
        ensures { result ≡ typed self.kind }
    {
        self.number / 34359738368 % 2 == 1
    }

    // Their bytes.
    pub fn length(self) -> usize
        ensures { (result ≡ field_length self.kind) × (result ≤ 12) }
    {
        (self.number / 68719476736) as usize
    }
}

fn number_of(kind: u8) -> u64
    ensures { result ≡ row_number kind }
{
    match kind {
        0 | 16 | 20 => 0x40_0000_0004,
        1 => 0xC0_2222_1111,
        2 => 0x22_0000_0011,
        3 => 0x99_0000_0441,
        4 => 0x9A_0000_0441,
        5 => 0x52_0000_0041,
        6 => 0x90_0000_0018,
        12 => 0x53_0000_0014,
        13 => 0x24_0000_0002,
        15 => 0x00_0000_0000,
        17 => 0xC0_0000_0084,
        21 => 0x10_0000_0001,
        _ => 0x01_0000_0000,
    }
}

// The bytes of a field, by its digit.
#[tactic(auto, using(std::proofs::lemmas::Bool::Decides::nat_tests), unfolding(blocks::specs::Packed::width_of))]
fn width_of(digit: u32) -> usize
    ensures { (result ≡ width_of digit) × (result ≤ 8) }
{
    match digit {
        1 => 1,
        2 => 2,
        4 => 4,
        _ => 8,
    }
}

// The number in a field.
fn number_at(b: &[u8], at: usize, digit: u32) -> u64
    requires { at + width_of digit ≤ length b.now }
    ensures { result ≡ big_at (width_of digit) b.now at }
{
    match digit {
        1 => u64::from(b[at]),
        2 => u64::from(be::<u16>(b, at)),
        4 => u64::from(be::<u32>(b, at)),
        _ => be(b, at),
    }
}

// The largest number of eight bytes.
const WIDE: u64 = 0xFFFF_FFFF_FFFF_FFFF;

// The largest number of a field, by its digit. With an arm for each digit it is looked up without a test.
#[tactic(auto, using(std::proofs::lemmas::Bool::Decides::nat_tests), unfolding(blocks::specs::Packed::width_of))]
fn limit_of(digit: u32) -> u64
    ensures { result + 1 ≡ 256 ^ width_of digit }
{
    match digit {
        0 => WIDE,
        1 => 0xFF,
        2 => 0xFFFF,
        3 => WIDE,
        4 => 0xFFFF_FFFF,
        5 => WIDE,
        6 => WIDE,
        7 => WIDE,
        8 => WIDE,
        9 => WIDE,
        10 => WIDE,
        11 => WIDE,
        12 => WIDE,
        13 => WIDE,
        14 => WIDE,
        _ => WIDE,
    }
}

// A number put into its field; what the field has no byte for is cut.
fn put_number(room: &mut [u8], at: usize, digit: u32, x: u64)
    requires { at + width_of digit ≤ length room.old }
    ensures { room.new ≡ splice room.old at (big_bytes (width_of digit) x) }
{
    match digit {
        1 => room[at] = (x % 256) as u8,
        2 => put_be::<u16>(room, at, (x % 65536) as u16),
        4 => put_be::<u32>(room, at, (x % 4294967296) as u32),
        _ => put_be(room, at, x),
    }
}

// Eight numbers that are 0.
#[tactic(auto, unfolding(blocks::specs::Layout::eight))]
pub fn no_fields() -> [u64; 8]
    ensures { result ≡ eight [] }
{
    [0; 8]
}

// (The digits that are left end each of the three loops below, and not the fields: a `for` over the eight fields would want a `break` or go over all of them.)
// The numbers of a row's fields, from a place on, and 0 after the last one.
// Its answers stay: tried by naming the loop's laws, and the check does not find them.
pub fn read_fields(b: &[u8], body: usize, row: u32) -> [u64; 8]
    requires { body + sum (unpacked 8 row) ≤ length b.now }
    ensures { result ≡ eight (fields_at (unpacked 8 row) b.now body) }
{
    let mut fields = no_fields();
    let mut left = row;
    let mut at = body;
    let mut i = 0;
    while left != 0 {
        let digit = left % 16;
        fields[i] = number_at(b, at, digit);
        at += width_of(digit);
        left /= 16;
        i += 1;
    }
    fields
}

// Whether each number of a row's fields fits its place.
// Its answers stay: tried by naming the loop's laws, and the check does not find them.
pub fn fit_fields(row: u32, fields: [u64; 8]) -> bool
    ensures { result ≡ fits (unpacked 8 row) fields }
{
    let mut ok = true;
    let mut left = row;
    let mut i = 0;
    while left != 0 {
        ok = ok & (fields[i] <= limit_of(left % 16));
        left /= 16;
        i += 1;
    }
    ok
}

// The numbers of a row's fields put from a place on.
// Its answers stay: tried by naming the loop's laws, and the check does not find them.
pub fn put_fields(room: &mut [u8], body: usize, row: u32, fields: [u64; 8])
    requires { body + sum (unpacked 8 row) ≤ length room.old }
    ensures { room.new ≡ splice room.old body (field_bytes (unpacked 8 row) fields) }
{
    let mut left = row;
    let mut at = body;
    let mut i = 0;
    while left != 0 {
        let digit = left % 16;
        put_number(room, at, digit, fields[i]);
        at += width_of(digit);
        left /= 16;
        i += 1;
    }
}
