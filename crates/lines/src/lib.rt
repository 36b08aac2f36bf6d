// The lists that the check programs replay: a case a line, its fields parted by one space, bytes as hex digits.
#![tactic(auto)]

ghost use Rattle.std.specs.Prelude.{◌≡◌, true, ◌+◌, ◌-◌, ◌^◌, ◌<◌, ◌≤◌, length, take, drop, IfOk, IfErr, IfSome};
ghost use Rattle.std.specs.Option.{unwrap_or};
ghost use Rattle.std.specs.List.{position};
ghost use Rattle.std.specs.Io.KnownBytes.{Consumes, IsAtEnd};
ghost use Rattle.wire.specs.Parts.{part, splice};
ghost use Rattle.lines.specs.Fields.{is_end, lead, field_at, past, whole_up_to, unread, kept_bytes};
ghost use Rattle.lines.specs.Digits.{digit_of, pair_of, pairs_of, all_bytes, bytes_in, with_bytes, decimal_of};

use std::io;
use std::io::Read;

const SPACE: u8 = b' ';

const NEWLINE: u8 = b'\n';

// own is the byte that is looked for, no switch of steps.
fn ends(b: u8, own: u8) -> bool
    ensures { result ≡ is_end own b }
{
    b == NEWLINE || b == own
}

// Where the first byte stands that ends what ends at a byte of its own.
fn first_end(text: &[u8], own: u8) -> Option<usize>
    ensures { result ≡ position (λ b. is_end own b) text.now }
{
    text.iter().position(|b| ends(*b, own))
}

// How many bytes stand before such a byte, or before the text's end.
fn lead_of(text: &[u8], own: u8) -> usize
    ensures value { result ≡ lead own text.now }
    ensures bound { result ≤ length text.now }
{
    first_end(text, own).unwrap_or(text.len())
}

// The field at a place; past the text's end there is none, and it is empty.
pub fn field(text: &[u8], at: usize) -> &[u8]
    ensures { result.now ≡ field_at text.now at }
{
    if text.len() < at {
        return &text[..0];
    }
    let rest = &text[at..];
    &rest[..lead_of(rest, SPACE)]
}

// The place after what stands at a place and ends at a byte of its own, at most the text's end.
fn past(text: &[u8], at: usize, own: u8) -> usize
    ensures { result ≡ past own text.now at }
{
    if text.len() <= at {
        return text.len();
    }
    text.len().min(at + lead_of(&text[at..], own) + 1)
}

// The place after the last whole line.
pub fn whole(text: &[u8]) -> usize
    ensures value { result ≡ whole_up_to text.now (length text.now) }
    ensures upper_bound { result ≤ length text.now }
{
    match text.iter().rposition(|b| *b == NEWLINE) {
        Some(i) => i + 1,
        None => 0,
    }
}

// A place in a text from where its fields are read, one after the other: at first where a line begins.
#[derive(Clone, Copy)]
pub struct Fields<'a> {
    pub text: &'a [u8],
    pub at: usize,
}

impl<'a> Fields<'a> {
    ghost use Rattle.lines.specs.Reading.{here, IsPast};

    pub fn of(text: &'a [u8]) -> Fields<'a>
        ensures text { result.text.now ≡ text.now }
        ensures place { result.at ≡ 0 }
    {
        Fields { text, at: 0 }
    }

    // The next field; past the text's end it is empty.
    pub fn next_field(&mut self) -> &'a [u8]
        ensures field { result.now ≡ here self.old }
        ensures place { IsPast 32 self.old self.new }
    {
        let field = field(self.text, self.at);
        self.at = past(self.text, self.at, SPACE);
        field
    }

    // The next field as a number.
    pub fn number(&mut self) -> Option<u64>
        ensures value { result ≡ decimal_of (here self.old) }
        ensures place { IsPast 32 self.old self.new }
    {
        number(self.next_field())
    }

    // The next field as bytes at the start of a buffer.
    pub fn bytes(&mut self, out: &mut [u8]) -> Option<usize>
        ensures count { result ≡ bytes_in (here self.old) (length out.old) }
        ensures bytes { out.new ≡ with_bytes (here self.old) out.old }
        ensures place { IsPast 32 self.old self.new }
        ensures room { IfSome result (λ n. n ≤ length out.new) }
    {
        bytes(self.next_field(), out)
    }

    // The same; a field that is none counts as the whole buffer, which stays.
    pub fn bytes_or_all(&mut self, out: &mut [u8]) -> usize
        ensures count { result ≡ unwrap_or (bytes_in (here self.old) (length out.old)) (length out.old) }
        ensures bytes { out.new ≡ with_bytes (here self.old) out.old }
        ensures place { IsPast 32 self.old self.new }
        ensures room { result ≤ length out.new }
    {
        let room = out.len();
        self.bytes(out).unwrap_or(room)
    }
}

// The lines of a text, each as the place where it begins.
#[derive(Clone, Copy)]
pub struct Lines<'a> {
    pub next: Fields<'a>,
}

impl<'a> Lines<'a> {
    pub fn of(text: &'a [u8]) -> Lines<'a>
        ensures text { result.next.text.now ≡ text.now }
        ensures place { result.next.at ≡ 0 }
    {
        Lines {
            next: Fields::of(text),
        }
    }
}

impl<'a> Iterator for Lines<'a> {
    ghost use Rattle.std.specs.Iterator.{at_most};
    ghost use Rattle.lines.specs.Reading.{GivesLine};

    type Item = Fields<'a>;

    ghost next_gives = { GivesLine };

    ghost remaining = { λ s. at_most (length s.next.text.now - s.next.at) };

    fn next(&mut self) -> Option<Fields<'a>> {
        let line = self.next;
        self.next.at = past(line.text, line.at, NEWLINE);
        if line.text.len() <= line.at {
            return None;
        }
        Some(line)
    }
}

// How many lines were run, and how many of them agree.
#[derive(Clone, Copy)]
pub struct Tally {
    pub all: u64,
    pub agree: u64,
}

impl Tally {
    ghost use Rattle.lines.specs.Counting.{none, counted};

    pub fn new() -> Tally
        ensures { result ≡ none }
    {
        Tally { all: 0, agree: 0 }
    }

    // Counts a line.
    pub fn count(&mut self, agrees: bool)
        ensures { self.new ≡ counted self.old agrees }
    {
        self.all = self.all.saturating_add(1);
        if agrees {
            self.agree = self.agree.saturating_add(1);
        }
    }

    // Counts a line, and says which one it is where it differs.
    pub fn print(&mut self, out: &impl Print, agrees: bool) -> io::Result<()>
        ensures { self.new ≡ counted self.old agrees }
    {
        self.count(agrees);
        if agrees {
            return Ok(());
        }
        println!(out; "differs: line {}", self.all)
    }
}

// Reads until a buffer is full or the input ends; how many bytes stand at its front now.
// A while: each read says how far the next one goes on.
// Its answers stay: tried by unfolding, and the check does not find them.
pub fn read_full<R: Read>(from: &mut R, buf: &mut [u8]) -> io::Result<usize>
    ensures count { IfOk result (λ n. n ≤ length buf.new) }
    ensures bytes { IfOk result (λ n. Consumes (R.remaining from.old) (R.remaining from.new) (take n buf.new)) }
    ensures end { IfOk result (λ n. n < length buf.new → IsAtEnd (R.remaining from.new)) }
{
    let mut done = 0;
    while done < buf.len() {
        let n = from.read(&mut buf[done..])?;
        if n == 0 {
            return Ok(done);
        }
        done += n;
    }
    Ok(done)
}

// What was not used of a buffer's first bytes moved to its front, and more read after it; how many bytes there are now. It is moved too where a read fails.
pub fn refill<R: Read>(from: &mut R, buf: &mut [u8], used: usize, have: usize) -> io::Result<usize>
    ensures kept { part buf.new 0 (unread used have (length buf.old)) ≡ kept_bytes buf.old used have }
    ensures count { IfOk result (λ n. (unread used have (length buf.old) ≤ n) × (n ≤ length buf.new)) }
    ensures bytes { IfOk result (λ n. Consumes (R.remaining from.old) (R.remaining from.new)
        (take (n - unread used have (length buf.old)) (drop (unread used have (length buf.old)) buf.new))) }
    ensures end { IfOk result (λ n. n < length buf.new → IsAtEnd (R.remaining from.new)) }
{
    let end = have.min(buf.len());
    let start = used.min(end);
    let left = end - start;
    buf.copy_within(start..end, 0);
    let got = read_full(from, &mut buf[left..])?;
    Ok(left + got)
}

// The part of an input that is at hand: the first bytes of a buffer.
// No heap: bytes at the front of an array, and how many there are.
#[derive(Drop)]
pub struct Input {
    pub buf: [u8; 65536],
    pub have: usize,
    ghost within: { have ≤ 65536 },
}

impl Input {
    ghost use Rattle.lines.specs.Reading.{used_of, left_of};

    pub fn new() -> Input
        ensures { result.have ≡ 0 }
    {
        Input {
            buf: [0; 65536],
            have: 0,
        }
    }

    // The whole lines at hand.
    pub fn lines(&self) -> Lines<'_>
        ensures text { result.next.text.now ≡ take (used_of self.now) self.now.buf }
        ensures place { result.next.at ≡ 0 }
    {
        let used = whole(&self.buf[..self.have]);
        Lines::of(&self.buf[..used])
    }

    // What is at hand after the whole lines moves to the front, and more is read after it. It moves too where a read fails.
    pub fn refill<R: Read>(&mut self, from: &mut R) -> io::Result<()>
        ensures kept { part self.new.buf 0 (left_of self.old) ≡ kept_bytes self.old.buf (used_of self.old) self.old.have }
        ensures count { left_of self.old ≤ self.new.have }
        ensures bytes { IfOk result (λ _. Consumes (R.remaining from.old) (R.remaining from.new)
            (take (self.new.have - left_of self.old) (drop (left_of self.old) self.new.buf))) }
        ensures end { IfOk result (λ _. self.new.have < length self.new.buf → IsAtEnd (R.remaining from.new)) }
        ensures failed { IfErr result (λ _. self.new.have ≡ left_of self.old) }
    {
        let have = self.have;
        let used = whole(&self.buf[..have]);
        self.have = have - used;
        self.have = refill(from, &mut self.buf, used, have)?;
        Ok(())
    }
}

// The value of a hex digit.
#[tactic(auto, using(std::proofs::lemmas::Bool::Decides::nat_tests), unfolding(crate::specs::Digits::digit_of))]
fn digit(b: u8) -> Option<u8>
    ensures value { unwrap_or result 16 ≡ digit_of b }
    ensures bound { IfSome result (λ d. d < 16) }
{
    match b {
        b'0'..=b'9' => Some(b - b'0'),
        b'a'..=b'f' => Some(b - b'a' + 10),
        _ => None,
    }
}

// The byte of two hex digits.
#[tactic(auto, using(std::proofs::lemmas::Bool::Decides::nat_tests), unfolding(crate::specs::Digits::pair_of))]
fn pair(high: u8, low: u8) -> Option<u8>
    ensures { unwrap_or result 256 ≡ pair_of high low }
{
    match (digit(high), digit(low)) {
        (Some(high), Some(low)) => Some(high * 16 + low),
        _ => None,
    }
}

// Whether a field is bytes: each two digits of it are hex, and none is left over.
fn is_hex(field: &[u8]) -> bool
    ensures { result ≡ all_bytes (pairs_of field.now) }
{
    let mut rest = field;
    while let [high, low, after @ ..] = rest {
        if pair(*high, *low).is_none() {
            return false;
        }
        rest = after;
    }
    rest.is_empty()
}

// The byte of each two digits of such a field, at the start of a buffer with room for all.
// i is the byte's place, and gives those of its two digits.
fn fill(field: &[u8], out: &mut [u8])
    requires { (all_bytes (pairs_of field.now) ≡ true) × (length (pairs_of field.now) ≤ length out.old) }
    ensures { out.new ≡ splice out.old 0 (pairs_of field.now) }
{
    for i in 0..field.len() / 2 {
        out[i] = pair(field[2 * i], field[2 * i + 1]).unwrap_or(0);
    }
}

// A field of hex digits as bytes at the start of a buffer, and their count; or it is refused, and the buffer stays.
pub fn bytes(field: &[u8], out: &mut [u8]) -> Option<usize>
    ensures count { result ≡ bytes_in field.now (length out.old) }
    ensures bytes { out.new ≡ with_bytes field.now out.old }
    ensures room { IfSome result (λ n. n ≤ length out.new) }
{
    let n = field.len() / 2;
    if !is_hex(field) {
        return None;
    }
    if out.len() < n {
        return None;
    }
    fill(field, out);
    Some(n)
}

// A field of decimal digits as a number below 2 ^ 64.
pub fn number(field: &[u8]) -> Option<u64>
    ensures { result ≡ decimal_of field.now }
{
    if field.is_empty() {
        return None;
    }
    let mut x = 0u64;
    for b in field {
        let d = digit(*b)?;
        if 9 < d {
            return None;
        }
        x = x.checked_mul(10)?.checked_add(u64::from(d))?;
    }
    Some(x)
}
