// Ported from block_store.rs of mahi-mahi-consensus, Copyright (c) Mysten Labs, Inc., Apache-2.0.
// Changed: written anew in Rattle, with contracts. NOTICE says what was carried across and what was changed.

// The block index (block_store.rs, BlockStoreInner): a reference as a row's words, a block's presence
// in a round, and the store's summary. The rows themselves are a table that the caller lends.
#![tactic(auto)]

ghost use Rattle.std.specs.Prelude.{◌≡◌, ◌<◌};
ghost use Rattle.rows.specs.Rows.{Ascending};
ghost use Rattle.index.specs.Keys.{key_words, index_row, exists_at};
ghost use Rattle.index.specs.Summary.{empty_summary, own_round, own_with, summary_with};

use std::cmp::max;
use types::{AuthorityIndex, BlockReference, RoundNumber};
use wal_position::WalPosition;

// What the store knows of its blocks without reading one.
#[derive(Clone, Copy)]
pub struct StoreSummary {
    pub highest_round: RoundNumber,
    pub last_seen_by_authority: [u64; 128],
    pub last_own_block: Option<BlockReference>,
}

// The six words by which a reference's row is sorted.
pub fn key_of(reference: BlockReference) -> [u64; 6]
    ensures { result ≡ key_words reference }
{
    let (words, _) = reference.digest.0.as_chunks::<8>();
    [
        reference.round,
        reference.authority,
        u64::from_be_bytes(words[0]),
        u64::from_be_bytes(words[1]),
        u64::from_be_bytes(words[2]),
        u64::from_be_bytes(words[3]),
    ]
}

// The row of a block's reference.
#[tactic(auto, unfolding(crate::specs::Keys::index_row, crate::specs::Keys::key_words, crate::specs::Keys::digest_words))]
pub fn index_row(reference: BlockReference, position: WalPosition, loaded: u64) -> [u64; 8]
    ensures { result ≡ index_row reference position.0 loaded }
{
    let [a, b, c, d, e, f] = key_of(reference);
    [a, b, c, d, e, f, position.0, loaded]
}

// Whether one of the ascending rows has this round and authority: the row with the lowest digest
// would stand at the place of digest 0.
pub fn exists_at(rows: &[[u64; 8]], authority: AuthorityIndex, round: RoundNumber) -> bool
    requires { Ascending rows.now }
    ensures { result ≡ exists_at authority round rows.now }
{
    match rows::find(rows, [round, authority, 0, 0, 0, 0]) {
        Ok(_) => true,
        Err(i) => rows
            .get(i)
            .is_some_and(|row| row[0] == round && row[1] == authority),
    }
}

// The round that own blocks have reached: 0 where there is none.
#[tactic(auto, unfolding(crate::specs::Summary::own_round))]
fn own_round(last: Option<BlockReference>) -> RoundNumber
    ensures { result ≡ own_round last }
{
    last.map_or(0, |reference| reference.round)
}

// The own block once a block joins (BlockStoreInner, add_own_index).
#[tactic(auto, unfolding(crate::specs::Summary::own_with, laws::specs::Pick::pick))]
fn later_own(
    last: Option<BlockReference>,
    own: AuthorityIndex,
    reference: BlockReference,
) -> Option<BlockReference>
    ensures { result ≡ own_with own reference last }
{
    if reference.authority == own && own_round(last) < reference.round {
        Some(reference)
    } else {
        last
    }
}

impl StoreSummary {
    // Of a store without blocks.
    #[tactic(auto, unfolding(crate::specs::Summary::empty_summary))]
    pub fn new() -> StoreSummary
        ensures { result ≡ empty_summary }
    {
        StoreSummary {
            highest_round: 0,
            last_seen_by_authority: [0u64; 128],
            last_own_block: None,
        }
    }

    // A block joins: the highest round, the last seen round of its authority, and the own block.
    #[tactic(auto, unfolding(crate::specs::Summary::summary_with))]
    pub fn add(self, own: AuthorityIndex, reference: BlockReference) -> StoreSummary
        requires { reference.authority < 128 }
        ensures { result ≡ summary_with own reference self }
    {
        let mut rounds = self.last_seen_by_authority;
        let authority = reference.authority as usize;
        rounds[authority] = max(rounds[authority], reference.round);
        StoreSummary {
            highest_round: max(self.highest_round, reference.round),
            last_seen_by_authority: rounds,
            last_own_block: later_own(self.last_own_block, own, reference),
        }
    }
}
