// Ported from block_store.rs of mahi-mahi-consensus, Copyright (c) Mysten Labs, Inc., Apache-2.0.
// Changed: written anew in Rattle, with contracts. NOTICE says what was carried across and what was changed.

// Questions that read no block (block_store.rs, BlockStore): whether blocks are indexed.
#![tactic(auto)]

ghost use Rattle.std.specs.Prelude.{◌≡◌};
ghost use Rattle.rows.specs.Rows.{Ascending};
ghost use Rattle.store.specs.Views.{of_view};
ghost use Rattle.exists.specs.Exists.{block_exists, block_exists_at, all_blocks_exist_at, round_there, all_exist};

use refusal::Refusal;
use store::StoreView;
use types::{AuthorityIndex, BlockReference, RoundNumber};

// Whether the reference is indexed.
pub fn block_exists(view: &StoreView<'_>, reference: BlockReference) -> Result<bool, Refusal>
    ensures { result ≡ of_view block_exists view.now reference }
{
    view.check()?;
    Ok(rows::find(view.rows(), index::key_of(reference)).is_ok())
}

// Whether an authority has a block in a round.
pub fn block_exists_at_authority_round(
    view: &StoreView<'_>,
    authority: AuthorityIndex,
    round: RoundNumber,
) -> Result<bool, Refusal>
    ensures { result ≡ of_view block_exists_at view.now authority round }
{
    view.check()?;
    Ok(index::exists_at(view.rows(), authority, round))
}

// Whether one of the ascending rows has this round: the lowest would stand at the place of authority
// 0 and digest 0.
fn round_exists(rows: &[[u64; 8]], round: RoundNumber) -> bool
    requires { Ascending rows.now }
    ensures { result ≡ round_there round rows.now }
{
    match rows::find(rows, [round, 0, 0, 0, 0, 0]) {
        Ok(_) => true,
        Err(i) => rows.get(i).is_some_and(|row| row[0] == round),
    }
}

// Whether each of the authorities has a block in a round.
fn all_exist(rows: &[[u64; 8]], authorities: &[u64], round: RoundNumber) -> bool
    requires { Ascending rows.now }
    ensures { result ≡ all_exist authorities.now round rows.now }
{
    authorities
        .iter()
        .all(|authority| index::exists_at(rows, *authority, round))
}

// Whether each of the authorities has a block in a round; no in a round without blocks.
pub fn all_blocks_exists_at_authority_round(
    view: &StoreView<'_>,
    authorities: &[u64],
    round: RoundNumber,
) -> Result<bool, Refusal>
    ensures { result ≡ of_view all_blocks_exist_at view.now authorities.now round }
{
    view.check()?;
    let rows = view.rows();
    Ok(round_exists(rows, round) && all_exist(rows, authorities, round))
}
