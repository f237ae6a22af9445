// Ported from block_store.rs of mahi-mahi-consensus, Copyright (c) Mysten Labs, Inc., Apache-2.0.
// Changed: written anew in Rattle, with contracts. NOTICE says what was carried across and what was changed.

// The block store (block_store.rs, BlockStore and BlockStoreInner): a value, whose index rows are lent, and the
// checks with which its calls begin.
#![tactic(auto)]

ghost use Rattle.std.specs.Prelude.{◌≡◌, false, ◌*◌, ◌≤◌, length};
ghost use Rattle.laws.specs.Pick.{pick};
ghost use Rattle.refusal.specs.Refusals.{checked};
ghost use Rattle.rows.specs.Rows.{ascendingb};
ghost use Rattle.store.specs.Store.{authorities_below, opened, last_seen_of, indexed};
ghost use Rattle.store.specs.Views.{view_check};

use index::StoreSummary;
use recovered::Recovered;
use refusal::Refusal;
use types::{AuthorityIndex, BlockReference, RoundNumber};
use wal_position::Log;

// The committee's size and the own authority, the index rows counted, the blocks read from the log
// because they were not loaded, and the summary.
#[derive(Clone, Copy)]
pub struct BlockStore {
    pub committee_size: u64,
    pub authority: AuthorityIndex,
    pub rows: usize,
    pub loads: u64,
    pub summary: StoreSummary,
}

impl BlockStore {
    // The store that a recovery for this committee and own authority leaves. Refused as the recovery was, then
    // with 18 for the committee.
    pub fn open(
        committee_size: u64,
        authority: AuthorityIndex,
        recovered: Recovered,
    ) -> Result<BlockStore, Refusal>
        ensures { result ≡ opened committee_size authority recovered }
    {
        if let Err(at) = recovered.walked {
            return Err(at.refusal);
        }
        committee::check_committee(committee_size, authority)?;
        let blocks = recovered.replay.blocks;
        Ok(BlockStore {
            committee_size,
            authority,
            rows: blocks.index,
            loads: 0,
            summary: blocks.summary,
        })
    }

    pub fn len_expensive(self) -> usize
        ensures { result ≡ self.rows }
    {
        self.rows
    }

    pub fn highest_round(self) -> RoundNumber
        ensures { result ≡ self.summary.highest_round }
    {
        self.summary.highest_round
    }

    // 0 for an authority that has no block.
    pub fn last_seen_by_authority(self, authority: AuthorityIndex) -> RoundNumber
        ensures { result ≡ last_seen_of self authority }
    {
        let rounds = self.summary.last_seen_by_authority;
        rounds.get(authority as usize).copied().unwrap_or(0)
    }

    pub fn last_own_block_ref(self) -> Option<BlockReference>
        ensures { result ≡ self.summary.last_own_block }
    {
        self.summary.last_own_block
    }
}

// A store as a call is lent it: the log that it indexes, its value, and its index rows.
#[derive(Clone, Copy)]
pub struct StoreView<'a> {
    pub log: Log<'a>,
    pub store: BlockStore,
    pub index: &'a [u64],
}

impl StoreView<'_> {
    // The checks 1, 2 and 18, with which every query and cleanup begins.
    pub fn check(&self) -> Result<(), Refusal>
        ensures { result ≡ checked (view_check self.now) }
    {
        self.log.check()?;
        committee::check_committee(self.store.committee_size, self.store.authority)?;
        if self.index.len() / 8 < self.store.rows
            || !check_rows(self.rows(), self.store.committee_size)
        {
            return Err(Refusal::Store);
        }
        Ok(())
    }

    // The index rows counted.
    #[tactic(auto, unfolding(crate::specs::Store::indexed))]
    pub fn rows(&self) -> &[[u64; 8]]
        requires { 8 * self.now.store.rows ≤ length self.now.index.now }
        ensures { result.now ≡ indexed self.now.store self.now.index.now }
    {
        rows::rows_of(self.index, self.store.rows)
    }
}

// Whether each key is strictly below the next, and each row's authority below the committee's size. One
// pass, since every call makes it.
fn check_rows(rows: &[[u64; 8]], size: u64) -> bool
    ensures { result ≡ pick (ascendingb rows.now) (authorities_below size rows.now) false }
{
    let Some((first, _)) = rows.split_first() else {
        return true;
    };
    first[1] < size
        && rows.is_sorted_by(|row, next| {
            next[1] < size && rows::compare_key(row, &rows::key(next)).is_lt()
        })
}
