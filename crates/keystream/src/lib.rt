// The keystream of ChaCha20 (RFC 8439), and its use as a mask over a range of a buffer.
#![tactic(auto)]

mod rounds;

ghost use Rattle.std.specs.Prelude.{◌≡◌, ◌+◌, ◌≤◌, length};
ghost use Rattle.keystream.specs.Chacha as Chacha;
ghost use Rattle.keystream.specs.Mask.{xor_with, masked};

// 64 bytes of keystream.
// Key, counter and nonce as RFC 8439 has them, and as C passes them.
#[tactic(auto, unfolding(crate::specs::Chacha::block))]
pub fn block(key: &[u8; 32], counter: u32, nonce: &[u8; 12]) -> [u8; 64]
    ensures { result ≡ Chacha.block key.now counter nonce.now }
{
    let s = rounds::initial(key, counter, nonce);
    let t = rounds::twenty_rounds(s);
    rounds::finish(t, s)
}

// Each byte of a part XORed with the stream's byte at its place.
fn xor_with(part: &mut [u8], stream: &[u8])
    requires { length part.old ≤ length stream.now }
    ensures { part.new ≡ xor_with part.old stream.now }
{
    // Not `zip(stream)`: after a `zip` of `iter_mut` a proof knows nothing of the bytes.
    for (i, byte) in part.iter_mut().enumerate() {
        *byte ^= stream[i];
    }
}

// The n bytes of the buffer from a place on, XORed with the first n bytes of a block.
// buf, from and n: a range of a packet, as the definition says it.
#[tactic(auto, using(crate::proofs::Masks::masked_lent))]
pub fn mask(buf: &mut [u8], from: usize, n: usize, key: &[u8; 32], counter: u32, nonce: &[u8; 12])
    requires { (from + n ≤ length buf.old) × (n ≤ 64) }
    ensures { buf.new ≡ masked buf.old from n (Chacha.block key.now counter nonce.now) }
{
    xor_with(&mut buf[from..from + n], &block(key, counter, nonce));
}
