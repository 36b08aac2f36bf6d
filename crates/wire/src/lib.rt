// Bytes copied, moved and compared; what parts of a list and numbers in bytes are, and the laws that all crates share.
#![tactic(auto)]

ghost use Rattle.std.specs.Prelude.{◌≡◌, ◌+◌, ◌≤◌, length};
ghost use Rattle.wire.specs.Parts.{part, splice, same};

// src stands in dst from a place on; every other byte stays.
pub fn copy_to(dst: &mut [u8], at: usize, src: &[u8])
    requires { at + length src.now ≤ length dst.old }
    ensures { dst.new ≡ splice dst.old at src.now }
{
    dst[at..at + src.len()].copy_from_slice(src);
}

// n bytes from a place on move down to another; every other byte stays. One by one, the lowest first: of this the compiler makes the C library's move, of `copy_within` it does not.
pub fn move_down(b: &mut [u8], to: usize, from: usize, n: usize)
    requires { (to ≤ from) × (from + n ≤ length b.old) }
    ensures { b.new ≡ splice b.old to (part b.old from n) }
{
    for i in 0..n {
        b[to + i] = b[from + i];
    }
}

// Whether two slices hold the same bytes. Every byte is looked at, whatever the first ones are.
pub fn same_bytes(a: &[u8], b: &[u8]) -> bool
    ensures { result ≡ same a.now b.now }
{
    if a.len() != b.len() {
        return false;
    }
    let mut ok = true;
    for (x, y) in a.iter().zip(b) {
        ok = ok & (x == y);
    }
    ok
}
