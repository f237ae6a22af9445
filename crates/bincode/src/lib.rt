// Decoders of bincode's rules for numbers, bools, byte strings and lists. Each takes any place and any
// bytes, and answers the value that stands there and the place behind it, or None.
#![tactic(auto)]

ghost use Rattle.std.specs.Prelude.{◌≡◌, ℕ, Bool, ◌+◌, length, leb};
ghost use Rattle.laws.specs.Parse.{Parser, many, number};
ghost use Rattle.bincode.specs.Bincode.{bool, option, byte_string, exactly, vec};
ghost use Rattle.bincode.specs.Answers.{as_it_is, decoded, decoded_as, list_answer, option_as, end_answer, next_answer};
ghost use Rattle.bincode.specs.Cursors.{next_element};

// A pass over elements in a row: the place of the next one, and how many are left.
#[derive(Clone, Copy)]
pub struct Cursor {
    pub at: usize,
    pub left: usize,
}

// What is decoded from bytes.
pub trait Decode: Copy {
    // The value that the rules have at a place, and how the decoder answers it: by its place and its
    // end, where its length varies.
    ghost Value: { Type 0 };

    ghost parser: { Parser Value };

    ghost answered: { ℕ → Value → ℕ → Self };

    fn decode(s: &[u8], at: usize) -> Option<(Self, usize)>
        ensures { result ≡ decoded_as (answered at) (parser s.now at) };
}

impl Decode for u64 {
    ghost Value = { ℕ };

    ghost parser = { number 8 };

    ghost answered = { as_it_is };

    fn decode(s: &[u8], at: usize) -> Option<(u64, usize)> {
        if fits(s, at, 8) {
            return Some((fields::read_u64(s, at), at + 8));
        }
        None
    }
}

impl Decode for u32 {
    ghost Value = { ℕ };

    ghost parser = { number 4 };

    ghost answered = { as_it_is };

    fn decode(s: &[u8], at: usize) -> Option<(u32, usize)> {
        if fits(s, at, 4) {
            return Some((fields::read_u32(s, at), at + 4));
        }
        None
    }
}

// One byte, 0 or 1; an option's tag too.
impl Decode for bool {
    ghost Value = { Bool };

    ghost parser = { bool };

    ghost answered = { as_it_is };

    fn decode(s: &[u8], at: usize) -> Option<(bool, usize)> {
        if fits(s, at, 1) {
            let b = s[at];
            if b <= 1 {
                return Some((b == 1, at + 1));
            }
        }
        None
    }
}

// A tag, and the value behind a tag of 1.
impl<T: Decode> Decode for Option<T> {
    ghost use Rattle.std.proofs.Math.Option.{Option as Optional};

    ghost Value = { Optional T.Value };

    ghost parser = { option T.parser };

    ghost answered = { option_as T.answered };

    fn decode(s: &[u8], at: usize) -> Option<(Option<T>, usize)> {
        let (there, p) = bool::decode(s, at)?;
        if !there {
            return Some((None, p));
        }
        let (x, end) = T::decode(s, p)?;
        Some((Some(x), end))
    }
}

// Whether n bytes stand at `at`.
fn fits(s: &[u8], at: usize, n: usize) -> bool
    ensures { result ≡ leb (at + n) (length s.now) }
{
    let len = s.len();
    at <= len && n <= len - at
}

// A byte string: its count and its bytes.
pub fn decode_bytes(s: &[u8], at: usize) -> Option<(Cursor, usize)>
    ensures { result ≡ list_answer at (byte_string s.now at) }
{
    let (n, start) = u64::decode(s, at)?;
    let left = n as usize;
    if fits(s, start, left) {
        return Some((Cursor { at: start, left }, start + left));
    }
    None
}

// A byte string that must have N bytes, by value.
#[tactic(auto, using(crate::proofs::Found::bytes_end, crate::proofs::Found::bytes_within))]
pub fn decode_array<const N: usize>(s: &[u8], at: usize) -> Option<([u8; N], usize)>
    ensures { result ≡ decoded (exactly N s.now at) }
{
    let (bytes, end) = decode_bytes(s, at)?;
    if bytes.left != N {
        return None;
    }
    let mut b = [0u8; N];
    let found = &s[bytes.at..end];
    b.copy_from_slice(found);
    Some((b, end))
}

// The place behind n elements in a row. The first that is none ends it, so that the time is bounded by
// the bytes and not by n.
pub fn past<T: Decode>(s: &[u8], at: usize, n: u64) -> Option<usize>
    ensures { result ≡ end_answer (many T.parser n s.now at) }
{
    let mut p = at;
    for _ in 0..n {
        let (_, end) = T::decode(s, p)?;
        p = end;
    }
    Some(p)
}

// Elements behind their count: a cursor at the first.
pub fn decode_list<T: Decode>(s: &[u8], at: usize) -> Option<(Cursor, usize)>
    ensures { result ≡ list_answer at (vec T.parser s.now at) }
{
    let (n, first) = u64::decode(s, at)?;
    let end = past::<T>(s, first, n)?;
    Some((
        Cursor {
            at: first,
            left: n as usize,
        },
        end,
    ))
}

// A step of a pass over elements: the next one, and the cursor behind it.
pub fn next<T: Decode>(s: &[u8], c: Cursor) -> Option<(T, Cursor)>
    ensures { result ≡ next_answer (T.answered c.at) c (next_element T.parser s.now c) }
{
    if c.left == 0 {
        return None;
    }
    let (x, at) = T::decode(s, c.at)?;
    Some((
        x,
        Cursor {
            at,
            left: c.left - 1,
        },
    ))
}
