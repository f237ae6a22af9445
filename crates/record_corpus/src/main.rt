// Decodes and encodes again the records of the file `stdin`, each also cut at every byte and with each
// byte changed in three ways, and writes a line for each record: its kind and length, how many of
// those decode, and a checksum over a 0 for each that does not and a 1 and the bytes encoded again
// for each that does, and the values of some fields, 0 where the record does not decode. `stdin` and
// `stdout` were made by tools/oracle with the Rust's own types and bincode 1.3.3: the records, and
// what the Rust says of each.
#![tactic(auto)]

ghost use Rattle.std.specs.Prelude.{◌<◌, length};

use bincode::Decode;
use blocks::StatementBlock;
use case_lines::{end_line, hex, number, part, plus};
use commits::{Commit, OwnBlockData};
use encode::EncodeError;
use encode_blocks::BlockFields;
use put_records::Encode;
use statements::BaseStatement;
use std::io;
use types::{BlockReference, TransactionLocator, TransactionLocatorRange};

// What was asked of a record so far.
#[derive(Clone, Copy)]
pub struct Tally {
    pub register: u32,
    pub accepted: u64,
}

// The record at `at`, whose decoder answers None where there is none.
fn decoded<T: Decode>(s: &[u8], at: usize) -> Result<(T, usize), EncodeError> {
    T::decode(s, at).ok_or(EncodeError::Malformed)
}

// A record of its own.
fn record_again<T: Decode + Encode>(s: &[u8], out: &mut [u8]) -> Result<usize, EncodeError> {
    let (record, _) = decoded::<T>(s, 0)?;
    encode::encode_record(out, 0, record)
}

fn statement_again(s: &[u8], out: &mut [u8]) -> Result<usize, EncodeError> {
    let (statement, _) = decoded::<BaseStatement>(s, 0)?;
    match statement {
        BaseStatement::Share(bytes) => {
            encode::encode_share(out, 0, part(s, bytes.at, plus(bytes.at, bytes.left)))
        }
        BaseStatement::Vote(locator, vote) => encode::encode_vote(out, 0, locator, vote),
        BaseStatement::VoteRange(range) => encode::encode_vote_range(out, 0, range),
    }
}

// Behind the statements stand 89 bytes: the time, the marker and the signature with its count.
fn block_again(s: &[u8], at: usize, out: &mut [u8]) -> Result<usize, EncodeError> {
    let (block, end) = decoded::<StatementBlock>(s, at)?;
    let StatementBlock {
        includes,
        statements,
        ..
    } = block;
    let fields = BlockFields {
        reference: block.reference,
        include_count: includes.left as u64,
        statement_count: statements.left as u64,
        meta_creation_time_ns: block.meta_creation_time_ns,
        epoch_marker: block.epoch_marker,
        signature: block.signature,
    };
    encode_blocks::encode_block(
        out,
        0,
        fields,
        part(s, includes.at, statements.at.saturating_sub(8)),
        part(s, statements.at, end.saturating_sub(89)),
    )
}

fn own_block_again(s: &[u8], out: &mut [u8]) -> Result<usize, EncodeError> {
    let (own_block, _) = decoded::<OwnBlockData>(s, 0)?;
    let mut space = [0u8; 1024];
    let end = block_again(s, 8, &mut space).map_err(|_| EncodeError::Malformed)?;
    encode_commits::encode_own_block(out, 0, own_block.next_entry, part(&space, 0, end))
}

fn commit_again(s: &[u8], out: &mut [u8]) -> Result<usize, EncodeError> {
    let (Commit { commits, state }, _) = decoded::<Commit>(s, 0)?;
    encode_commits::encode_commit(
        out,
        0,
        part(s, commits.at, state.at.saturating_sub(8)),
        commits.left as u64,
        part(s, state.at, plus(state.at, state.left)),
    )
}

fn again(kind: u8, s: &[u8], out: &mut [u8]) -> Result<usize, EncodeError> {
    match kind {
        1 => record_again::<BlockReference>(s, out),
        2 => record_again::<TransactionLocator>(s, out),
        0 | 3 => record_again::<TransactionLocatorRange>(s, out),
        4 => statement_again(s, out),
        5 => block_again(s, 0, out),
        6 => payloads::payload_again(s, out),
        7 => own_block_again(s, out),
        _ => commit_again(s, out),
    }
}

fn ask(kind: u8, s: &[u8], tally: Tally) -> Tally {
    let mut out = [0u8; 1024];
    let Ok(end) = again(kind, s, &mut out) else {
        return Tally {
            register: checksum::update(tally.register, &[0]),
            ..tally
        };
    };
    let one = checksum::update(tally.register, &[1]);
    Tally {
        register: checksum::update(one, part(&out, 0, end)),
        accepted: tally.accepted.saturating_add(1),
    }
}

// Each beginning of the record.
fn ask_cuts(kind: u8, s: &[u8], tally: Tally) -> Tally {
    let mut t = tally;
    for n in 0..s.len() {
        t = ask(kind, &s[..n], t);
    }
    t
}

// The record with one byte changed, in three ways.
fn ask_changed(kind: u8, s: &mut [u8], i: usize, tally: Tally) -> Tally
    requires { i < length s.old }
{
    let kept = s[i];
    let mut t = tally;
    for b in [kept ^ 1, kept.wrapping_add(2), 255] {
        s[i] = b;
        t = ask(kind, s, t);
    }
    s[i] = kept;
    t
}

fn ask_damaged(kind: u8, s: &mut [u8], tally: Tally) -> Tally {
    let mut t = tally;
    for i in 0..s.len() {
        t = ask_changed(kind, s, i, t);
    }
    t
}

fn show_reference(rt: &impl Print, reference: BlockReference) -> io::Result<()> {
    number(rt, reference.authority)?;
    number(rt, reference.round)
}

fn show_block(rt: &impl Print, block: StatementBlock) -> io::Result<()> {
    let time = block.meta_creation_time_ns;
    show_reference(rt, block.reference)?;
    number(rt, block.includes.left as u64)?;
    number(rt, block.statements.left as u64)?;
    number(rt, time.low)?;
    number(rt, time.high)?;
    number(rt, u64::from(block.epoch_marker))
}

// The fields of a record that does not decode.
fn show_zeros(rt: &impl Print, fields: u8) -> io::Result<()> {
    for _ in 0..fields {
        number(rt, 0)?;
    }
    Ok(())
}

fn show_locator(rt: &impl Print, locator: TransactionLocator) -> io::Result<()> {
    show_reference(rt, locator.block)?;
    number(rt, locator.offset)
}

fn show_range(rt: &impl Print, range: TransactionLocatorRange) -> io::Result<()> {
    number(rt, range.block.authority)?;
    number(rt, range.offset_start_inclusive)?;
    number(rt, range.offset_end_exclusive)
}

fn show_own_block(rt: &impl Print, own_block: OwnBlockData) -> io::Result<()> {
    number(rt, own_block.next_entry.0)?;
    show_block(rt, own_block.block)
}

// The values of some fields, so that two fields exchanged on both ways would show.
fn show_fields(rt: &impl Print, kind: u8, s: &[u8]) -> io::Result<()> {
    match kind {
        1 => match BlockReference::decode(s, 0) {
            Some((reference, _)) => show_reference(rt, reference),
            None => show_zeros(rt, 2),
        },
        2 => match TransactionLocator::decode(s, 0) {
            Some((locator, _)) => show_locator(rt, locator),
            None => show_zeros(rt, 3),
        },
        3 => match TransactionLocatorRange::decode(s, 0) {
            Some((range, _)) => show_range(rt, range),
            None => show_zeros(rt, 3),
        },
        5 => match StatementBlock::decode(s, 0) {
            Some((block, _)) => show_block(rt, block),
            None => show_zeros(rt, 7),
        },
        7 => match OwnBlockData::decode(s, 0) {
            Some((own_block, _)) => show_own_block(rt, own_block),
            None => show_zeros(rt, 8),
        },
        _ => Ok(()),
    }
}

fn show(rt: &impl Print, kind: u8, s: &mut [u8]) -> io::Result<()> {
    let start = Tally {
        register: 0xffff_ffff,
        accepted: 0,
    };
    let whole = ask(kind, s, start);
    let cut = ask_cuts(kind, s, whole);
    let t = ask_damaged(kind, s, cut);
    print!(rt; "{kind}")?;
    number(rt, s.len() as u64)?;
    number(rt, t.accepted)?;
    hex(rt, u64::from(!t.register), 8)?;
    show_fields(rt, kind, s)?;
    end_line(rt)
}

fn byte_at(s: &[u8], i: usize) -> u8 {
    s.get(i).copied().unwrap_or(0)
}

// The place behind a record, whose head is its kind and its length.
fn record_end(s: &[u8], at: usize) -> usize {
    let length = u16::from_le_bytes([byte_at(s, plus(at, 1)), byte_at(s, plus(at, 2))]);
    plus(at, 3 + usize::from(length))
}

// The record at `at`, where it is whole, and the place behind it; otherwise the end.
fn show_at(rt: &impl Print, s: &mut [u8], at: usize) -> io::Result<usize> {
    let kind = byte_at(s, at);
    let start = plus(at, 3);
    let end = record_end(s, at);
    if start <= end && end <= s.len() {
        show(rt, kind, &mut s[start..end])?;
        return Ok(end);
    }
    Ok(s.len())
}

// Each record; there are fewer than bytes.
fn show_all(rt: &impl Print, s: &mut [u8]) -> io::Result<()> {
    let mut at = 0;
    for _ in 0..s.len() {
        if s.len() <= at {
            break;
        }
        at = show_at(rt, s, at)?;
    }
    Ok(())
}

fn main(rt: HostRuntime) -> io::Result<()> {
    let mut input = [0u8; 8192];
    let n = case_lines::read_full(&mut rt.stdin(), &mut input)?;
    show_all(&rt, &mut input[..n])
}
