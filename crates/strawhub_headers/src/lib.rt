// C calls: the keystream, and a packet's header.
#![tactic(auto)]

pub mod headers; // headers.rt: reading and writing a header

ghost use Rattle.std.specs.Prelude.{◌≡◌};
ghost use Rattle.keystream.specs.Chacha as Chacha;

// 64 bytes of the ChaCha20 keystream of RFC 8439.
#[unsafe(no_mangle)]
pub extern "C" fn strawhub_keystream(
    key: &[u8; 32],
    counter: u32,
    nonce: &[u8; 12],
    out: &mut [u8; 64],
)
    ensures { out.new ≡ Chacha.block key.now counter nonce.now }
{
    *out = keystream::block(key, counter, nonce);
}
