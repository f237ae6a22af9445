// Ported from block_store.rs and linearizer.rs of mahi-mahi-consensus, Copyright (c) Mysten Labs, Inc., Apache-2.0.
// Changed: written anew in Rattle, with contracts. NOTICE says what was carried across and what was changed.

// The payloads of log entries (block_store.rs, core.rs): own blocks and commits, and how they are decoded.
// A list of statements is `bincode::decode_list` at BaseStatement.
#![tactic(auto)]

ghost use Rattle.commits.specs.Records.{OwnBlockValue, own_block, CommitValue, commit_data, CommitsValue, commit};
ghost use Rattle.commits.specs.Answers.{own_block_of, commit_of, commits_of};

use bincode::{Cursor, Decode, decode_bytes, decode_list};
use blocks::StatementBlock;
use types::BlockReference;
use wal_position::WalPosition;

#[derive(Clone, Copy)]
pub struct OwnBlockData {
    pub next_entry: WalPosition,
    pub block: StatementBlock,
}

// The sub-dag is answered as a cursor at its first reference.
#[derive(Clone, Copy)]
pub struct CommitData {
    pub leader: BlockReference,
    pub sub_dag: Cursor,
}

// A commit entry: the list of leaders and sub-dags, and the committed state. Both are answered as
// cursors, at the first element and at the first byte.
#[derive(Clone, Copy)]
pub struct Commit {
    pub commits: Cursor,
    pub state: Cursor,
}

impl Decode for OwnBlockData {
    ghost Value = { OwnBlockValue };

    ghost parser = { own_block };

    ghost answered = { λ p o e. own_block_of p o };

    fn decode(s: &[u8], at: usize) -> Option<(OwnBlockData, usize)> {
        let (position, p) = u64::decode(s, at)?;
        let (block, end) = StatementBlock::decode(s, p)?;
        let next_entry = WalPosition(position);
        Some((OwnBlockData { next_entry, block }, end))
    }
}

impl Decode for CommitData {
    ghost Value = { CommitValue };

    ghost parser = { commit_data };

    ghost answered = { λ p c e. commit_of p c };

    fn decode(s: &[u8], at: usize) -> Option<(CommitData, usize)> {
        let (leader, p) = BlockReference::decode(s, at)?;
        let (sub_dag, end) = decode_list::<BlockReference>(s, p)?;
        Some((CommitData { leader, sub_dag }, end))
    }
}

impl Decode for Commit {
    ghost Value = { CommitsValue };

    ghost parser = { commit };

    ghost answered = { commits_of };

    fn decode(s: &[u8], at: usize) -> Option<(Commit, usize)> {
        let (commits, p) = decode_list::<CommitData>(s, at)?;
        let (state, end) = decode_bytes(s, p)?;
        Some((Commit { commits, state }, end))
    }
}
