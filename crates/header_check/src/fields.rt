// The fields of a line, read.
ghost use Rattle.std.specs.Prelude.{◌≤◌};

use header::{Fields, HeaderKind, Long};

// A packet with its keys, and the numbers that the line gives for its fields; 2 ^ 64 - 1 where there is none.
// No heap: bytes at the front of an array, and how many there are.
#[derive(Drop)]
pub(crate) struct Packet {
    pub(crate) k1: [u8; 32],
    pub(crate) k2: [u8; 32],
    pub(crate) bytes: [u8; 1500],
    pub(crate) len: usize,
    pub(crate) kind: u64,
    pub(crate) destination: u64,
    pub(crate) number: u64,
    pub(crate) thirteen: u64,
    pub(crate) network: u64,
    pub(crate) source: u64,
    pub(crate) token: u64,
    ghost within: { len ≤ 1500 },
}

// The number that is next; what a field that is none counts as is each program's own.
fn number(fields: &mut lines::Fields) -> u64 {
    fields.number().unwrap_or(u64::MAX)
}

impl Packet {
    pub(crate) fn read(fields: &mut lines::Fields) -> Option<Packet> {
        let mut k1 = [0u8; 32];
        let mut k2 = [0u8; 32];
        let mut bytes = [0u8; 1500];
        let n1 = fields.bytes(&mut k1)?;
        let n2 = fields.bytes(&mut k2)?;
        let len = fields.bytes(&mut bytes)?;
        if n1 != k1.len() || n2 != k2.len() || len == 0 {
            return None;
        }
        Some(Packet {
            k1,
            k2,
            bytes,
            len,
            kind: number(fields),
            destination: number(fields),
            number: number(fields),
            thirteen: number(fields),
            network: number(fields),
            source: number(fields),
            token: number(fields),
        })
    }

    // Whether its type has a short header. Types by number, as the list has them: one that 01 does not list is a case too.
    pub(crate) fn is_short(&self) -> bool {
        self.kind == 2 || self.kind == 6
    }

    // Whether fields are those of the line; network, source and token only where the type has them.
    pub(crate) fn agrees(&self, f: Fields) -> bool {
        u64::from(f.kind) == self.kind
            && f.destination == self.destination
            && u64::from(f.number) == self.number
            && thirteen(f) == self.thirteen
            && (self.is_short()
                || u64::from(f.network) == self.network
                    && f.source == self.source
                    && f.token == self.token)
    }
}

const NONE: Fields = Fields {
    kind: 0,
    destination: 0,
    number: 0,
    version: 0,
    network: 0,
    source: 0,
    token: 0,
    fragment: 0,
    count: 0,
    immediate: false,
};

fn of_long(kind: u8, l: Long) -> Fields {
    Fields {
        kind,
        destination: l.destination,
        number: l.number,
        version: l.version,
        network: l.network,
        source: l.source,
        token: l.token,
        ..NONE
    }
}

// The fields of a header that was read.
pub(crate) fn of(kind: HeaderKind) -> Fields {
    match kind {
        HeaderKind::SessionRequest(l) => of_long(0, l),
        HeaderKind::SessionCreated(l) => of_long(1, l),
        HeaderKind::SessionConfirmed {
            destination,
            number,
            fragment,
            count,
        } => Fields {
            kind: 2,
            destination,
            number,
            fragment,
            count,
            ..NONE
        },
        HeaderKind::Data {
            destination,
            number,
            immediate,
        } => Fields {
            kind: 6,
            destination,
            number,
            immediate,
            ..NONE
        },
        HeaderKind::PeerTest(l) => of_long(7, l),
        HeaderKind::Retry(l) => of_long(9, l),
        HeaderKind::TokenRequest(l) => of_long(10, l),
        HeaderKind::HolePunch(l) => of_long(11, l),
    }
}

// Byte 13 by the fields: what stands there before it is masked.
fn thirteen(f: Fields) -> u64 {
    match f.kind {
        2 => u64::from(f.fragment % 16) * 16 + u64::from(f.count % 16),
        6 => u64::from(f.immediate),
        _ => u64::from(f.version),
    }
}
