// Ported from types.rs and data.rs of mahi-mahi-consensus, Copyright (c) Mysten Labs, Inc., Apache-2.0.
// Changed: written anew in Rattle, with contracts. NOTICE says what was carried across and what was changed.

// Encoders of blocks and of payloads, into bytes that a caller lends, from any place on. Their lists
// are lent too, as encoded elements in a row beside their number: each is decoded before anything is
// written, so that what is written is a record. Where it is none, or does not fit, the bytes stay as
// they were.
#![tactic(auto)]

ghost use Rattle.std.specs.Prelude.{◌≡◌, ◌+◌, ◌≤◌, length, leb};
ghost use Rattle.laws.specs.Parse.{many};
ghost use Rattle.types.specs.Records.{statement, block_bytes, payload_bytes};
ghost use Rattle.put_records.specs.Put.{Put};
ghost use Rattle.encode.specs.Encoding.{Encodes};
ghost use Rattle.encode_blocks.specs.Whole.{whole, is_whole, laid_out};
ghost use Rattle.encode_blocks.specs.Blocks.{block_from, head_bytes, tail_bytes};

use bincode::{Decode, past};
use blocks::TimestampNs;
use crypto::SignatureBytes;
use encode::EncodeError;
use put_records::Encode;
use statements::BaseStatement;
use types::BlockReference;

// A block but for its lists, with the numbers of their elements.
#[derive(Clone, Copy)]
pub struct BlockFields {
    pub reference: BlockReference,
    pub include_count: u64,
    pub statement_count: u64,
    pub meta_creation_time_ns: TimestampNs,
    pub epoch_marker: bool,
    pub signature: SignatureBytes,
}

// The bytes of a block whose lists are empty.
pub const EMPTY_BLOCK_SIZE: usize = 161;

// Whether `s` is n elements and nothing else.
pub fn are_all<T: Decode>(s: &[u8], n: u64) -> bool
    ensures { result ≡ is_whole (many T.parser n) s.now }
{
    past::<T>(s, 0, n) == Some(s.len())
}

// Whether n bytes and two lists fit behind the first `at` of `len`: in three steps, since the sum
// need not fit a usize.
pub fn has_room_for(len: usize, at: usize, n: usize, first: usize, second: usize) -> bool
    ensures { result ≡ leb (at + (n + first + second)) len }
{
    encode::has_room(len, at, n)
        && encode::has_room(len, at + n, first)
        && encode::has_room(len, at + n + first, second)
}

pub fn encode_payload(
    out: &mut [u8],
    at: usize,
    statements: &[u8],
    count: u64,
) -> Result<usize, EncodeError>
    ensures { Encodes out.old at
        (laid_out payload_bytes (whole (many statement count) statements.now)) result out.new }
{
    if !are_all::<BaseStatement>(statements, count) {
        return Err(EncodeError::Malformed);
    }
    if !encode::has_room(out.len(), at, 8 + statements.len()) {
        return Err(EncodeError::NoRoom);
    }
    Ok(put_records::put_counted(out, at, count, statements))
}

// The reference and the two lists.
fn put_head(
    out: &mut [u8],
    at: usize,
    block: BlockFields,
    includes: &[u8],
    statements: &[u8],
) -> usize
    requires { at + length (head_bytes block includes.now statements.now) ≤ length out.old }
    ensures { Put out.old at
        (head_bytes block includes.now statements.now) out.new result }
{
    let p = block.reference.put(out, at);
    let q = put_records::put_counted(out, p, block.include_count, includes);
    put_records::put_counted(out, q, block.statement_count, statements)
}

// What stands behind the lists.
fn put_tail(out: &mut [u8], at: usize, block: BlockFields) -> usize
    requires { at + length (tail_bytes block) ≤ length out.old }
    ensures { Put out.old at (tail_bytes block) out.new result }
{
    fields::put_u64(out, at, block.meta_creation_time_ns.low);
    fields::put_u64(out, at + 8, block.meta_creation_time_ns.high);
    let p = block.epoch_marker.put(out, at + 16);
    block.signature.put(out, p)
}

pub fn encode_block(
    out: &mut [u8],
    at: usize,
    block: BlockFields,
    includes: &[u8],
    statements: &[u8],
) -> Result<usize, EncodeError>
    ensures { Encodes out.old at
        (laid_out block_bytes (block_from block includes.now statements.now)) result
        out.new }
{
    if !are_all::<BlockReference>(includes, block.include_count) {
        return Err(EncodeError::Malformed);
    }
    if !are_all::<BaseStatement>(statements, block.statement_count) {
        return Err(EncodeError::Malformed);
    }
    if !has_room_for(
        out.len(),
        at,
        EMPTY_BLOCK_SIZE,
        includes.len(),
        statements.len(),
    ) {
        return Err(EncodeError::NoRoom);
    }
    let p = put_head(out, at, block, includes, statements);
    Ok(put_tail(out, p, block))
}
