// Ported from block_store.rs of mahi-mahi-consensus, Copyright (c) Mysten Labs, Inc., Apache-2.0.
// Changed: written anew in Rattle, with contracts. NOTICE says what was carried across and what was changed.

// Lookups after a round (block_store.rs, BlockStore's queries): own blocks, and others' blocks. Each reads the
// blocks that it finds from the log, and writes them as rows of the table `out`. That is cleared first, since a
// refused query leaves it all zero.
#![tactic(auto)]

ghost use Rattle.std.specs.Prelude.{◌≡◌};
ghost use Rattle.refusal.specs.Refusals.{checked};
ghost use Rattle.store.specs.Views.{of_view};
ghost use Rattle.query.specs.Query.{call_of};
ghost use Rattle.lookup_after.specs.After.{after_number, GetOwnBlocks, GetOthersBlocks};

use query::Looked;
use refusal::Refusal;
use store::StoreView;
use types::{AuthorityIndex, RoundNumber};

// The checks of every query, then 19.
fn check_after(view: &StoreView<'_>, from_excluded: RoundNumber) -> Result<(), Refusal>
    ensures { result ≡ checked (after_number (of_view call_of view.now) from_excluded) }
{
    view.check()?;
    if from_excluded == filters::HIGHEST {
        return Err(Refusal::AfterRound);
    }
    Ok(())
}

// The own authority's blocks after a round, at most `limit` of them.
pub fn get_own_blocks(
    view: &StoreView<'_>,
    from_excluded: RoundNumber,
    limit: usize,
    out: &mut [u64],
) -> Result<Looked, Refusal>
    ensures { of_view GetOwnBlocks view.now from_excluded limit result out.old out.new }
{
    if let Err(refusal) = check_after(view, from_excluded) {
        return query::refuse(refusal, out);
    }
    let rows = view.rows();
    let from = filters::first_above(rows, from_excluded);
    query::answer(view, &rows[from..], Some(view.store.authority), limit, out)
}

// An author's blocks in the first `limit` indexed rounds after a round.
pub fn get_others_blocks(
    view: &StoreView<'_>,
    from_excluded: RoundNumber,
    authority: AuthorityIndex,
    limit: usize,
    out: &mut [u64],
) -> Result<Looked, Refusal>
    ensures { of_view GetOthersBlocks view.now from_excluded authority limit
        result out.old out.new }
{
    if let Err(refusal) = check_after(view, from_excluded) {
        return query::refuse(refusal, out);
    }
    let rows = view.rows();
    let from = filters::first_above(rows, from_excluded);
    let later = &rows[from..];
    let to = filters::rounds_end(later, limit);
    query::answer(view, &later[..to], Some(authority), rows.len(), out)
}
