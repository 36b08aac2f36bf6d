// The rounds of the ChaCha20 block, after RFC 8439, sections 2.1 to 2.3.
ghost use Rattle.std.specs.Prelude.{◌≡◌, ◌+◌, ◌*◌, ◌<◌, ◌≤◌, bit_xor, length};
ghost use Rattle.keystream.specs.Chacha.{quad_at, words, add32, rotl, double_round, add_words, serialise};
ghost use Rattle.keystream.specs.Chacha as Chacha;

use std::array;
use wire_numbers::{le, put_le};

// Four words of the state, by the RFC's letters, which the definitions name too.
#[derive(Clone, Copy)]
pub struct Quad {
    pub a: u32,
    pub b: u32,
    pub c: u32,
    pub d: u32,
}

// x += y; z ^= x; z <<<= n. What x and z are then.
fn line(x: u32, y: u32, z: u32, n: u32) -> (u32, u32)
    requires { (0 < n) × (n < 32) }
    ensures { (result.0 ≡ add32 x y) × (result.1 ≡ rotl (bit_xor z (add32 x y)) n) }
{
    let sum = x.wrapping_add(y);
    (sum, (z ^ sum).rotate_left(n))
}

#[tactic(auto, unfolding(crate::specs::Chacha::quarter, crate::specs::Chacha::line_ad, crate::specs::Chacha::line_cb))]
fn quarter(q: Quad) -> Quad
    ensures { result ≡ Chacha.quarter q }
{
    let (a, d) = line(q.a, q.b, q.d, 16);
    let (c, b) = line(q.c, d, q.b, 12);
    let (a, d) = line(a, b, d, 8);
    let (c, b) = line(c, d, b, 7);
    Quad { a, b, c, d }
}

// The column of the state that starts at word i, after its quarter round.
fn column(s: [u32; 16], i: usize) -> Quad
    requires { i < 4 }
    ensures { result ≡ Chacha.quarter (quad_at i (i + 4) (i + 8) (i + 12) s) }
{
    quarter(Quad {
        a: s[i],
        b: s[i + 4],
        c: s[i + 8],
        d: s[i + 12],
    })
}

// The diagonal across four columns, after its quarter round.
fn diagonal(p: Quad, q: Quad, r: Quad, t: Quad) -> Quad
    ensures { result ≡ Chacha.quarter (record { a = p.a; b = q.b; c = r.c; d = t.d }) }
{
    quarter(Quad {
        a: p.a,
        b: q.b,
        c: r.c,
        d: t.d,
    })
}

#[tactic(auto, using(crate::proofs::State::round_by_quarters))]
fn double_round(s: [u32; 16]) -> [u32; 16]
    ensures { result ≡ double_round s }
{
    let p = column(s, 0);
    let q = column(s, 1);
    let r = column(s, 2);
    let t = column(s, 3);
    let e = diagonal(p, q, r, t);
    let f = diagonal(q, r, t, p);
    let g = diagonal(r, t, p, q);
    let h = diagonal(t, p, q, r);
    [
        e.a, f.a, g.a, h.a, h.b, e.b, f.b, g.b, g.c, h.c, e.c, f.c, f.d, g.d, h.d, e.d,
    ]
}

#[tactic(auto, unfolding(crate::specs::Chacha::rounds))]
pub(crate) fn twenty_rounds(s: [u32; 16]) -> [u32; 16]
    ensures { result ≡ Chacha.rounds 10 s }
{
    let mut t = s;
    for _ in 0..10u32 {
        // `t = double_round(t)` is not covered: a call's array cannot be laid over its argument.
        let next = double_round(t);
        t = next;
    }
    t
}

// The words of some bytes, each with its low byte first.
fn words<const N: usize>(bytes: &[u8]) -> [u32; N]
    requires { 4 * N ≤ length bytes.now }
    ensures { result ≡ words N bytes.now 0 }
{
    array::from_fn(|i| le(bytes, 4 * i))
}

// The state that a block starts from.
#[tactic(auto, unfolding(crate::specs::Chacha::initial, crate::specs::Chacha::words))]
pub(crate) fn initial(key: &[u8; 32], counter: u32, nonce: &[u8; 12]) -> [u32; 16]
    ensures { result ≡ Chacha.initial key.now counter nonce.now }
{
    let [k0, k1, k2, k3, k4, k5, k6, k7] = words::<8>(key);
    let [n0, n1, n2] = words::<3>(nonce);
    [
        0x61707865, 0x3320646e, 0x79622d32, 0x6b206574, k0, k1, k2, k3, k4, k5, k6, k7, counter,
        n0, n1, n2,
    ]
}

// The sums of the words of two states, as bytes.
// i is the word's place in both states and in the bytes, so a chain of three iterators would be no plainer.
pub(crate) fn finish(s: [u32; 16], t: [u32; 16]) -> [u8; 64]
    ensures { result ≡ serialise (add_words s t) }
{
    let mut out = [0u8; 64];
    for i in 0..16usize {
        put_le(&mut out, 4 * i, s[i].wrapping_add(t[i]));
    }
    out
}
