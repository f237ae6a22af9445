// Ported from block_store.rs and linearizer.rs of mahi-mahi-consensus, Copyright (c) Mysten Labs, Inc., Apache-2.0.
// Changed: written anew in Rattle, with contracts. NOTICE says what was carried across and what was changed.

// Encoders of own blocks and of commits, into bytes that a caller lends, from any place on. Blocks
// and lists are lent too, encoded: each is decoded before anything is written, so that what is
// written is a record. Where it is none, or does not fit, the bytes stay as they were.
#![tactic(auto)]

ghost use Rattle.std.specs.Prelude.{◌≡◌};
ghost use Rattle.laws.specs.Parse.{many};
ghost use Rattle.types.specs.Records.{reference, block};
ghost use Rattle.commits.specs.Records.{commit_data};
ghost use Rattle.encode.specs.Encoding.{Encodes};
ghost use Rattle.encode_blocks.specs.Whole.{whole, is_whole, laid_out};
ghost use Rattle.encode_commits.specs.Commits.{own_block_with, commit_data_with, commit_with};

use bincode::Decode;
use blocks::StatementBlock;
use commits::CommitData;
use encode::EncodeError;
use encode_blocks::are_all;
use put_records::Encode;
use types::BlockReference;
use wal_position::WalPosition;

// Whether `s` is a block and nothing else.
fn is_block(s: &[u8]) -> bool
    ensures { result ≡ is_whole block s.now }
{
    let Some((_, end)) = StatementBlock::decode(s, 0) else {
        return false;
    };
    end == s.len()
}

// An own block, of the block's bytes: the next entry stands before them as a count does.
pub fn encode_own_block(
    out: &mut [u8],
    at: usize,
    next_entry: WalPosition,
    bytes: &[u8],
) -> Result<usize, EncodeError>
    ensures { Encodes out.old at
        (laid_out (own_block_with next_entry.0) (whole block bytes.now)) result out.new }
{
    if !is_block(bytes) {
        return Err(EncodeError::Malformed);
    }
    if !encode::has_room(out.len(), at, 8 + bytes.len()) {
        return Err(EncodeError::NoRoom);
    }
    Ok(put_records::put_counted(out, at, next_entry.0, bytes))
}

// A leader and its sub-dag: an element of a commit's list.
pub fn encode_commit_data(
    out: &mut [u8],
    at: usize,
    leader: BlockReference,
    sub_dag: &[u8],
    count: u64,
) -> Result<usize, EncodeError>
    ensures { Encodes out.old at
        (laid_out (commit_data_with leader) (whole (many reference count) sub_dag.now)) result
        out.new }
{
    if !are_all::<BlockReference>(sub_dag, count) {
        return Err(EncodeError::Malformed);
    }
    if !encode::has_room(out.len(), at, 64 + sub_dag.len()) {
        return Err(EncodeError::NoRoom);
    }
    let p = leader.put(out, at);
    Ok(put_records::put_counted(out, p, count, sub_dag))
}

// A commit: the elements of its list, and the committed state.
pub fn encode_commit(
    out: &mut [u8],
    at: usize,
    commits: &[u8],
    count: u64,
    state: &[u8],
) -> Result<usize, EncodeError>
    ensures { Encodes out.old at
        (laid_out (commit_with state.now) (whole (many commit_data count) commits.now)) result
        out.new }
{
    if !are_all::<CommitData>(commits, count) {
        return Err(EncodeError::Malformed);
    }
    let n = state.len();
    if !encode_blocks::has_room_for(out.len(), at, 16, commits.len(), n) {
        return Err(EncodeError::NoRoom);
    }
    let p = put_records::put_counted(out, at, count, commits);
    Ok(put_records::put_counted(out, p, n as u64, state))
}
