// Numbers at a place of a slice, in two, four or eight bytes, the high byte first (be) or the low one (le): read and put.
#![tactic(auto)]

ghost use Rattle.std.specs.Prelude.{◌≡◌, ℕ, ◌+◌, ◌*◌, ◌/◌, ◌%◌, ◌^◌, ◌<◌, ◌≤◌, length};
ghost use Rattle.wire.specs.Parts.{splice};
ghost use Rattle.wire.specs.Numbers.{little_at, big_at, little_bytes, big_bytes};

// A number of so many bytes: what it is, and its bytes one by one.
pub trait Word: Copy {
    const WIDTH: usize;

    ghost WIDTH: { ℕ };

    ghost value: { Self → ℕ };

    fn zero() -> Self
        ensures { value result ≡ 0 };

    // One byte more, below the others.
    fn push(self, byte: u8) -> Self
        requires { value self * 256 + byte < 256 ^ WIDTH }
        ensures { value result ≡ value self * 256 + byte };

    // Its low byte. A number that is proved to fit is turned with as: try_from would answer a Result that cannot fail.
    fn low(self) -> u8
        ensures { result ≡ value self % 256 };

    // What stands above the low byte.
    fn above(self) -> Self
        ensures { value result ≡ value self / 256 };
}

// Three impls by hand: the gate refuses an impl that a macro writes.
impl Word for u16 {
    const WIDTH: usize = 2;

    ghost WIDTH = { 2 };

    ghost value = { λ x. x };

    fn zero() -> u16 {
        0
    }

    fn push(self, byte: u8) -> u16 {
        self * 256 + u16::from(byte)
    }

    fn low(self) -> u8 {
        (self % 256) as u8
    }

    fn above(self) -> u16 {
        self / 256
    }
}

impl Word for u32 {
    const WIDTH: usize = 4;

    ghost WIDTH = { 4 };

    ghost value = { λ x. x };

    fn zero() -> u32 {
        0
    }

    fn push(self, byte: u8) -> u32 {
        self * 256 + u32::from(byte)
    }

    fn low(self) -> u8 {
        (self % 256) as u8
    }

    fn above(self) -> u32 {
        self / 256
    }
}

impl Word for u64 {
    const WIDTH: usize = 8;

    ghost WIDTH = { 8 };

    ghost value = { λ x. x };

    fn zero() -> u64 {
        0
    }

    fn push(self, byte: u8) -> u64 {
        self * 256 + u64::from(byte)
    }

    fn low(self) -> u8 {
        (self % 256) as u8
    }

    fn above(self) -> u64 {
        self / 256
    }
}

// The number at a place, its high byte first.
// Slice and place: a sub-slice would be cut at each call.
pub fn be<W: Word>(b: &[u8], at: usize) -> W
    requires { at + W.WIDTH ≤ length b.now }
    ensures { W.value result ≡ big_at W.WIDTH b.now at }
{
    let mut x = W::zero();
    for byte in &b[at..at + W::WIDTH] {
        x = x.push(*byte);
    }
    x
}

// The number at a place, its low byte first.
pub fn le<W: Word>(b: &[u8], at: usize) -> W
    requires { at + W.WIDTH ≤ length b.now }
    ensures { W.value result ≡ little_at W.WIDTH b.now at }
{
    let mut x = W::zero();
    for byte in b[at..at + W::WIDTH].iter().rev() {
        x = x.push(*byte);
    }
    x
}

// A number put at a place, its low byte first; every other byte stays.
pub fn put_le<W: Word>(b: &mut [u8], at: usize, x: W)
    requires { at + W.WIDTH ≤ length b.old }
    ensures { b.new ≡ splice b.old at (little_bytes W.WIDTH (W.value x)) }
{
    let mut rest = x;
    for byte in b[at..at + W::WIDTH].iter_mut() {
        *byte = rest.low();
        rest = rest.above();
    }
}

// A number put at a place, its high byte first; every other byte stays.
pub fn put_be<W: Word>(b: &mut [u8], at: usize, x: W)
    requires { at + W.WIDTH ≤ length b.old }
    ensures { b.new ≡ splice b.old at (big_bytes W.WIDTH (W.value x)) }
{
    put_le(b, at, x);
    b[at..at + W::WIDTH].reverse();
}
