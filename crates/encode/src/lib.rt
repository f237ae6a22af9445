// Ported from types.rs of mahi-mahi-consensus, Copyright (c) Mysten Labs, Inc., Apache-2.0.
// Changed: written anew in Rattle, with contracts. NOTICE says what was carried across and what was changed.

// Encoders of the records of fixed width and of statements, into bytes that a caller lends, from any
// place on. Where the record does not fit, the bytes stay as they were.
#![tactic(auto)]

ghost use Rattle.std.specs.Prelude.{◌≡◌, ◌+◌, leb};
ghost use Rattle.std.proofs.Math.Option.{some};
ghost use Rattle.types.specs.Records.{statement_bytes, share, vote_on, vote_range};
ghost use Rattle.put_records.specs.Votes.{vote_value};
ghost use Rattle.encode.specs.Encoding.{Encodes};

use put_records::Encode;
use types::{TransactionLocator, TransactionLocatorRange};
use votes::Vote;

// Why there is no place behind a record: it does not fit, or what was given is none.
#[derive(Clone, Copy, Debug, PartialEq, Eq)]
pub enum EncodeError {
    NoRoom,
    Malformed,
}

// Whether n bytes fit behind the first `at` of `len`.
pub fn has_room(len: usize, at: usize, n: usize) -> bool
    ensures { result ≡ leb (at + n) len }
{
    at <= len && n <= len - at
}

// A record of its own: a reference, a locator, a range.
pub fn encode_record<T: Encode>(out: &mut [u8], at: usize, value: T) -> Result<usize, EncodeError>
    ensures { Encodes out.old at (some (T.layout value)) result out.new }
{
    if !has_room(out.len(), at, value.size()) {
        return Err(EncodeError::NoRoom);
    }
    Ok(value.put(out, at))
}

// Kept: three encoders of statements, since each is given other values; one would need a type to join them.
// The statement Share of some bytes.
pub fn encode_share(out: &mut [u8], at: usize, bytes: &[u8]) -> Result<usize, EncodeError>
    ensures { Encodes out.old at (some (statement_bytes (share bytes.now))) result
        out.new }
{
    let n = bytes.len();
    if !has_room(out.len(), at, 12 + n) {
        return Err(EncodeError::NoRoom);
    }
    fields::put_u32(out, at, 0);
    Ok(put_records::put_counted(out, at + 4, n as u64, bytes))
}

// The statement Vote.
pub fn encode_vote(
    out: &mut [u8],
    at: usize,
    locator: TransactionLocator,
    vote: Vote,
) -> Result<usize, EncodeError>
    ensures { Encodes out.old at (some (statement_bytes (vote_on locator (vote_value vote)))) result
        out.new }
{
    if !has_room(out.len(), at, 4 + locator.size() + vote.size()) {
        return Err(EncodeError::NoRoom);
    }
    fields::put_u32(out, at, 1);
    let p = locator.put(out, at + 4);
    Ok(vote.put(out, p))
}

// The statement VoteRange.
pub fn encode_vote_range(
    out: &mut [u8],
    at: usize,
    range: TransactionLocatorRange,
) -> Result<usize, EncodeError>
    ensures { Encodes out.old at (some (statement_bytes (vote_range range))) result out.new }
{
    if !has_room(out.len(), at, 4 + range.size()) {
        return Err(EncodeError::NoRoom);
    }
    fields::put_u32(out, at, 2);
    Ok(range.put(out, at + 4))
}
