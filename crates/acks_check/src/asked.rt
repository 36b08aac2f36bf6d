// Lines that ask and change nothing: a duplicate, a report, and the Rust's report at the same place.
// as: std has no From between these widths; each number fits its place, or is cut on purpose.
use crate::{Both, expanded, read};
use acks::{AckInfo, PairBytes};
use acks_expand::Ack;
use blocks::{ACK, ACK_COUNT, ACK_THROUGH};
use lines::Fields;
use refusals::Refusal;

// Whether a number is a duplicate by value and in place, as the line says.
// The line's fields and the state it is asked of stay two parameters: a struct of two references would be made for one call.
pub(crate) fn duplicate(fields: &mut Fields, both: &Both) -> bool {
    let n = read::word(fields);
    let want = read::word(fields);
    match acks_tracker::recorded::is_duplicate_in(&both.bytes, n) {
        Ok(there) => {
            u32::from(there) == want && acks_tracker::is_duplicate(&both.tracker, n) == there
        }
        Err(_) => false,
    }
}

// Whether a report is that of a line.
fn is_report(mut fields: Fields, report: Result<AckInfo, Refusal>) -> bool {
    let mut bytes = [0u8; 254];
    let len = fields.bytes_or_all(&mut bytes);
    let number = read::word(&mut fields);
    let through = read::word(&mut fields);
    let count = read::small(&mut fields);
    match report {
        Ok(a) => {
            number == 0
                && a.through == through
                && a.count == count
                && a.pairs == PairBytes { bytes, len }
        }
        Err(refusal) => {
            number == u32::from(refusal.number()) && through == 0 && count == 0 && len == 0
        }
    }
}

// Whether both reports are that of the line, and what one names comes back from an Ack block.
pub(crate) fn reported(fields: &mut Fields, both: &Both) -> bool {
    let report = acks_reports::report(&both.tracker);
    is_report(*fields, acks_reports::report_in(&both.bytes))
        && is_report(*fields, report)
        && match report {
            Ok(a) => comes_back(&a),
            Err(_) => true,
        }
}

// Whether two lists agree at a place: both name it, or theirs alone, and it lies below the window.
fn agree(theirs: Option<&u32>, mine: Option<&u32>, top: u32) -> bool {
    match (theirs, mine) {
        (Some(t), Some(m)) => *t == *m,
        (None, Some(_)) => false,
        (Some(t), None) => u64::from(*t) + 255 <= u64::from(top),
        (None, None) => true,
    }
}

// Whether numbers of theirs, cut to the window, are mine.
fn same_window(theirs: &[u32], mine: &[u32], top: u32) -> bool {
    mine.len() != 0 && (0..512).all(|i| agree(theirs.get(i), mine.get(i), top))
}

// Whether the Rust's report, expanded and cut to the window, is the tracker's, expanded.
pub(crate) fn like_oracle(fields: &mut Fields, both: &Both) -> bool {
    let mut pairs = [0u8; 512];
    let mut mine = [0u32; 512];
    let mut theirs = [0u32; 512];
    let len = fields.bytes_or_all(&mut pairs);
    let through = read::word(fields);
    let count = read::small(fields);
    // Where there is no report, the list names what one without pairs would.
    let a = acks_reports::report(&both.tracker).unwrap_or(AckInfo {
        through: 0,
        count: 0,
        pairs: PairBytes::none(),
    });
    let said = Ack {
        through,
        count,
        pairs: &pairs[..len],
    };
    let m = expanded::named_of(&a, &mut mine);
    let n = expanded::named(said, &mut theirs);
    same_window(
        expanded::first(&theirs, n),
        expanded::first(&mine, m),
        a.through,
    )
}

// How many numbers an Ack block at a room's start names, into a list; 0 where it is refused or none.
fn named_in(room: &[u8], list: &mut [u32; 512]) -> usize {
    let Ok(block) = blocks_reader::read_block(room, 0) else {
        return 0;
    };
    if block.kind != ACK {
        return 0;
    }
    let through = (block.fields[ACK_THROUGH] % 4294967296) as u32;
    let count = (block.fields[ACK_COUNT] % 256) as u8;
    acks_expand::expand_ack(room, through, count, block.bytes, list).unwrap_or(0)
}

// Whether a report, written as an Ack block, read back and expanded, names what it names itself.
fn comes_back(a: &AckInfo) -> bool {
    let mut room = [0u8; 262];
    let mut mine = [0u32; 512];
    let mut theirs = [0u32; 512];
    if acks_reports::ack_block::write_ack::<Refusal>(Ok(*a), &mut room).is_err() {
        return false;
    }
    let m = expanded::named_of(a, &mut mine);
    let n = named_in(&room, &mut theirs);
    n == m
        && same_window(
            expanded::first(&theirs, n),
            expanded::first(&mine, m),
            a.through,
        )
}
