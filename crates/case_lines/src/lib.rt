// What the programs that run cases share: their input, the numbers and parts of a case's bytes, words of a line on the standard
// output, and checksums over words, so that a line can speak of a whole table.
#![tactic(auto)]

ghost use Rattle.std.specs.Prelude.{◌≡◌, ◌≤◌, length, get_or, IfOk};
ghost use Rattle.laws.specs.Bytes.{le};
ghost use Rattle.laws.specs.Parse.{joined};
ghost use Rattle.checksum.specs.Crc32.{feed};
ghost use Rattle.case_lines.specs.Cases.{sum_of, part_of, number_at, behind_of, bytes_of, found_reference_bytes};

use bincode::{Cursor, Decode};
use refusal::Refusal;
use std::io;
use std::io::Read;
use types::BlockReference;
use wal::Stop;

// ---- Reading

// Reads until the buffer is full or the input ends, and returns how many bytes it put at the start of the buffer.
pub fn read_full<R: Read>(input: &mut R, buf: &mut [u8]) -> io::Result<usize>
    ensures { IfOk result (λ n. n ≤ length buf.new) }
{
    // Kept: a loop on what was read so far, since each read says itself how far it came.
    let mut done = 0;
    while done < buf.len() {
        let n = input.read(&mut buf[done..])?;
        if n == 0 {
            break;
        }
        done += n;
    }
    Ok(done)
}

// The sum, or a where it has more than 64 bits.
#[tactic(auto, unfolding(crate::specs::Cases::sum_of, laws::specs::Pick::pick))]
pub fn plus(a: usize, b: usize) -> usize
    ensures { result ≡ sum_of a b }
{
    a.checked_add(b).unwrap_or(a)
}

// The bytes from a up to e, or none where they are not all there.
#[tactic(auto, unfolding(crate::specs::Cases::part_of, laws::specs::Pick::pick))]
pub fn part(s: &[u8], a: usize, e: usize) -> &[u8]
    ensures { result.now ≡ part_of s.now a e }
{
    s.get(a..e).unwrap_or(&[])
}

// The number at `at`, 0 where there is none.
#[tactic(auto, unfolding(crate::specs::Cases::number_at, laws::specs::Parse::answer))]
pub fn number_at(s: &[u8], at: usize) -> u64
    ensures { result ≡ number_at s.now at }
{
    match u64::decode(s, at) {
        Some((n, _)) => n,
        None => 0,
    }
}

// The word at `at`, 0 where there is none.
pub fn word_at(t: &[u64], at: usize) -> u64
    ensures { result ≡ get_or t.now at 0 }
{
    t.get(at).copied().unwrap_or(0)
}

// The place behind the bytes whose length stands at `at`.
#[tactic(auto, unfolding(crate::specs::Cases::behind_of))]
pub fn behind(s: &[u8], at: usize) -> usize
    ensures { result ≡ behind_of s.now at }
{
    plus(plus(at, 8), number_at(s, at) as usize)
}

// The bytes behind their length at `at`.
#[tactic(auto, unfolding(crate::specs::Cases::bytes_of))]
pub fn bytes_at(s: &[u8], at: usize) -> &[u8]
    ensures { result.now ≡ bytes_of s.now at }
{
    part(s, plus(at, 8), behind(s, at))
}

// ---- Checksums over words, each as 8 bytes

pub fn feed_word(register: u32, w: u64) -> u32
    ensures { result ≡ feed register (le 8 w) }
{
    checksum::update(register, &w.to_le_bytes())
}

pub fn feed_table(register: u32, t: &[u64]) -> u32
    ensures { result ≡ feed register (joined (le 8) t.now) }
{
    let mut c = register;
    for word in t {
        c = feed_word(c, *word);
    }
    c
}

// Whether a reference is there, and the reference: zeros where there is none.
#[tactic(auto, unfolding(crate::specs::Cases::found_reference_bytes))]
pub fn feed_reference(register: u32, reference: Option<BlockReference>) -> u32
    ensures { result ≡ feed register (found_reference_bytes reference) }
{
    let Some(reference) = reference else {
        return checksum::update(register, &[0; 56]);
    };
    let one = feed_word(register, 1);
    let two = feed_word(one, reference.authority);
    let three = feed_word(two, reference.round);
    checksum::update(three, &reference.digest.0)
}

// ---- Writing. No contract speaks of what a file was given, as none of std does.

pub fn blank(rt: &impl Print) -> io::Result<()> {
    print!(rt; " ")
}

pub fn end_line(rt: &impl Print) -> io::Result<()> {
    print!(rt; "\n")
}

pub fn number(rt: &impl Print, n: u64) -> io::Result<()> {
    print!(rt; " {n}")
}

pub fn hex(rt: &impl Print, n: u64, digits: usize) -> io::Result<()> {
    print!(rt; " {n:0digits$x}")
}

pub fn stop_word(rt: &impl Print, stop: Stop) -> io::Result<()> {
    match stop {
        Stop::End => print!(rt; "END"),
        Stop::Zeros => print!(rt; "ZEROS"),
        Stop::Torn => print!(rt; "TORN"),
    }
}

pub fn refused(rt: &impl Print, refusal: Refusal) -> io::Result<()> {
    let number = refusal.number();
    print!(rt; " REFUSED {number}")
}

// Whether bytes are there, where they begin, how many they are, and their checksum.
pub fn show_place(rt: &impl Print, image: &[u8], place: Option<Cursor>) -> io::Result<()> {
    number(rt, u64::from(place.is_some()))?;
    let Cursor { at, left } = place.unwrap_or(Cursor { at: 0, left: 0 });
    number(rt, at as u64)?;
    number(rt, left as u64)?;
    let bytes = part(image, at, plus(at, left));
    hex(rt, u64::from(checksum::hash(bytes)), 8)
}

// Each case of the standard input, whose first N bytes are read.
pub fn run_cases<const N: usize, F: Fn(&HostRuntime, &[u8], usize) -> io::Result<usize>>(
    rt: &HostRuntime,
    show_case: F,
) -> io::Result<()>
    requires callable { F.IsAlwaysCallable show_case }
    requires size { N ≤ 524288 }
{
    let mut input = [0u8; N];
    let n = read_full(&mut rt.stdin(), &mut input)?;
    show_cases(rt, &input[..n], show_case)
}

// Each case, behind its number. The cases stand behind their count; show_case answers the place behind one.
fn show_cases<P: Print, F: Fn(&P, &[u8], usize) -> io::Result<usize>>(
    rt: &P,
    s: &[u8],
    show_case: F,
) -> io::Result<()>
    requires { F.IsAlwaysCallable show_case }
{
    let mut at = 8;
    for i in 0..number_at(s, 0) {
        print!(rt; "{} ", i + 1)?;
        at = show_case(rt, s, at)?;
    }
    Ok(())
}
