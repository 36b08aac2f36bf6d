// Lines that expand an acknowledgement.
// as: std has no From between these widths; each number fits its place, or is cut on purpose.
use crate::read;
use acks::AckInfo;
use acks_expand::Ack;
use lines::Fields;

// The first n numbers of a list.
pub(crate) fn first(list: &[u32; 512], n: usize) -> &[u32] {
    &list[..n.min(512)]
}

// How many numbers an acknowledgement names, into a list; 0 where it is refused.
pub(crate) fn named(said: Ack, list: &mut [u32; 512]) -> usize {
    said.expand(list).unwrap_or(0)
}

// How many numbers a report names.
pub(crate) fn named_of(a: &AckInfo, list: &mut [u32; 512]) -> usize {
    let pairs = a.pairs.as_slice();
    let (through, count) = (a.through, a.count);
    named(
        Ack {
            through,
            count,
            pairs,
        },
        list,
    )
}

// Whether an expansion into as many sevens as the line has numbers answers as it says, and leaves those.
pub(crate) fn agrees(fields: &mut Fields) -> bool {
    let mut pairs = [0u8; 512];
    let mut want = [0u8; 2048];
    let mut list = [7u32; 512];
    let pairs_len = fields.bytes_or_all(&mut pairs);
    let want_len = fields.bytes_or_all(&mut want);
    let through = read::word(fields);
    let count = read::small(fields);
    let number = read::word(fields);
    let named = read::word(fields);
    let room = &mut list[..want_len / 4];
    let said = Ack {
        through,
        count,
        pairs: &pairs[..pairs_len],
    };
    let answers = match said.expand(room) {
        Ok(n) => number == 0 && n == named as usize,
        Err(refusal) => number == u32::from(refusal.number()) && named == 0,
    };
    answers
        && room
            .iter()
            .zip(want.chunks_exact(4))
            .all(|(n, four)| four == n.to_be_bytes().as_slice())
}
