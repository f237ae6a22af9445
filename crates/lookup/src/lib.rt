// Ported from block_store.rs of mahi-mahi-consensus, Copyright (c) Mysten Labs, Inc., Apache-2.0.
// Changed: written anew in Rattle, with contracts. NOTICE says what was carried across and what was changed.

// Lookups by reference, by round, and by round and author (block_store.rs, BlockStore's queries). Each reads the
// blocks that it finds from the log, and writes them as rows of the table `out`. That is cleared first, since a
// refused query leaves it all zero.
#![tactic(auto)]

ghost use Rattle.store.specs.Views.{of_view};
ghost use Rattle.query.specs.Query.{call_of, QueryAnswers};
ghost use Rattle.lookup.specs.Lookups.{GetBlock, GetBlocksByRound, GetBlocksAtAuthorityRound, blocks_of_round};

pub use block_reader::{ReadBlock, read_block};
pub use query::Looked;
use refusal::Refusal;
use store::StoreView;
use types::{AuthorityIndex, BlockReference, RoundNumber};

// The block with this reference.
pub fn get_block(
    view: &StoreView<'_>,
    reference: BlockReference,
    out: &mut [u64],
) -> Result<Looked, Refusal>
    ensures { of_view GetBlock view.now reference result out.old out.new }
{
    if let Err(refusal) = view.check() {
        return query::refuse(refusal, out);
    }
    let rows = view.rows();
    match rows::find(rows, index::key_of(reference)) {
        Ok(i) => query::answer(view, &rows[i..i + 1], None, 1, out),
        Err(_) => query::answer(view, &[], None, 0, out),
    }
}

// The blocks of a round.
pub fn get_blocks_by_round(
    view: &StoreView<'_>,
    round: RoundNumber,
    out: &mut [u64],
) -> Result<Looked, Refusal>
    ensures { of_view GetBlocksByRound view.now round result out.old out.new }
{
    blocks_of_round(view, None, round, out)
}

// The blocks of an authority in a round.
pub fn get_blocks_at_authority_round(
    view: &StoreView<'_>,
    authority: AuthorityIndex,
    round: RoundNumber,
    out: &mut [u64],
) -> Result<Looked, Refusal>
    ensures { of_view GetBlocksAtAuthorityRound view.now authority round result out.old out.new }
{
    blocks_of_round(view, Some(authority), round, out)
}

// The blocks of a round, of an author or of every one.
fn blocks_of_round(
    view: &StoreView<'_>,
    author: Option<AuthorityIndex>,
    round: RoundNumber,
    out: &mut [u64],
) -> Result<Looked, Refusal>
    ensures { QueryAnswers (blocks_of_round (of_view call_of view.now) author round)
        result out.old out.new }
{
    if let Err(refusal) = view.check() {
        return query::refuse(refusal, out);
    }
    let rows = view.rows();
    let from = filters::lower_bound(rows, [round, 0, 0, 0, 0, 0]);
    let to = filters::first_above(rows, round);
    query::answer(view, &rows[from..to], author, rows.len(), out)
}
