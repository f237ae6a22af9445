// Ported from block_store.rs of mahi-mahi-consensus, Copyright (c) Mysten Labs, Inc., Apache-2.0.
// Changed: written anew in Rattle, with contracts. NOTICE says what was carried across and what was changed.

// Where the rows that a lookup asks for stand among the ascending rows of the index (block_store.rs, the ranges
// of BlockStoreInner's map).
#![tactic(auto)]

ghost use Rattle.std.specs.Prelude.{◌≡◌, eqb, get_or};
ghost use Rattle.laws.specs.Pick.{pick};
ghost use Rattle.rows.specs.Rows.{Ascending, below};
ghost use Rattle.filters.specs.Filters.{author_of};
ghost use Rattle.filters.specs.Segments.{is_author, up_to, rounds_long};

use types::{AuthorityIndex, RoundNumber};

// The highest round.
pub const HIGHEST: RoundNumber = u64::MAX;

// How many rows have a key below k.
pub fn lower_bound(rows: &[[u64; 8]], k: [u64; 6]) -> usize
    requires { Ascending rows.now }
    ensures { result ≡ below k rows.now }
{
    rows::find(rows, k).unwrap_or_else(|i| i)
}

// The index of the first row above a round, or the count.
pub fn first_above(rows: &[[u64; 8]], round: RoundNumber) -> usize
    requires { Ascending rows.now }
    ensures { result ≡ up_to round rows.now }
{
    rows.partition_point(|row| row[0] <= round)
}

// Whether the row is of the author, or every author's rows are asked for.
#[tactic(auto, unfolding(crate::specs::Filters::author_of))]
pub fn is_chosen(row: &[u64; 8], author: Option<AuthorityIndex>) -> bool
    ensures { result ≡ is_author author (author_of row.now) }
{
    author.is_none_or(|author| row[1] == author)
}

// 1 where the block of the row is not loaded.
#[tactic(auto, unfolding(laws::specs::Pick::pick))]
pub fn not_loaded(row: &[u64; 8]) -> u64
    ensures { result ≡ pick (eqb (get_or row.now 7 0) 0) 1 0 }
{
    u64::from(row[7] == 0)
}

// How many of the rows, from the first on, are of the first `limit` rounds that they have.
pub fn rounds_end(rows: &[[u64; 8]], limit: usize) -> usize
    ensures { result ≡ rounds_long limit rows.now }
{
    let mut left = limit;
    let mut last = None;
    for (i, row) in rows.iter().enumerate() {
        if last != Some(row[0]) {
            if left == 0 {
                return i;
            }
            left -= 1;
            last = Some(row[0]);
        }
    }
    rows.len()
}
