// Ported from block_store.rs of mahi-mahi-consensus, Copyright (c) Mysten Labs, Inc., Apache-2.0.
// Changed: written anew in Rattle, with contracts. NOTICE says what was carried across and what was changed.

// Whether one block is an ancestor of another (block_store.rs, linked): the rounds are searched from the later
// block's down.
#![tactic(auto)]

ghost use Rattle.std.specs.Prelude.{◌≡◌, Some, true, false, suc, ◌*◌, ◌/◌, ◌≤◌, ◌<◌, eqb, length};
ghost use Rattle.laws.specs.Pick.{pick};
ghost use Rattle.laws.specs.Bytes.{zeros};
ghost use Rattle.wal_position.specs.Logs.{of_log};
ghost use Rattle.rows.specs.Rows.{Ascending};
ghost use Rattle.store.specs.Views.{of_view};
ghost use Rattle.includes.specs.References.{same};
ghost use Rattle.includes.specs.Includes.{includes_of, Parses};
ghost use Rattle.reach.specs.Blocks.{read_blocks};
ghost use Rattle.reach.specs.Reaching.{searched_of};
ghost use Rattle.linked.specs.Chains.{reaches};
ghost use Rattle.linked.specs.Linked.{down_to, linked_answer};

use bincode::Decode;
use blocks::StatementBlock;
use reach::Searched;
use refusal::Refusal;
use store::{BlockStore, StoreView};
use types::{BlockReference, RoundNumber};
use wal_position::Log;

// The answer, and the store with the loads counted.
#[derive(Clone, Copy)]
pub struct LinkedAnswer {
    pub linked: bool,
    pub store: BlockStore,
}

// How many rows the parents of a round under `above` have: none where the round is not just under it.
fn parents_of(parents: Option<usize>, above: RoundNumber, round: RoundNumber) -> Option<usize>
    requires { round < above }
    ensures { result ≡ pick (eqb above (suc round)) parents (Some 0) }
{
    if above - round != 1 {
        return Some(0);
    }
    parents
}

// Goes down the indexed rounds under the later block's. Every row is read, also where no parent is left.
fn search(
    log: &Log<'_>,
    rows: &[[u64; 8]],
    later: &[u8],
    high: RoundNumber,
    earlier: BlockReference,
    work: &mut [u64],
) -> Result<Searched, Refusal>
    requires { Ascending rows.now × (8 * length rows.now ≤ length work.old) × Parses later.now }
    ensures value { result ≡ searched_of (λ blocks. reaches blocks earlier high (includes_of later.now))
        (down_to earlier.round high rows.now)
        (of_log read_blocks log.now (down_to earlier.round high rows.now)) }
    ensures work_len_unchanged { length work.new ≡ length work.old }
{
    let low = filters::lower_bound(rows, [earlier.round, 0, 0, 0, 0, 0]);
    let mut to = filters::lower_bound(rows, [high, 0, 0, 0, 0, 0]);
    let mut parents = None;
    let mut above = high;
    let mut unloaded = 0;
    let mut found = false;
    // Kept: no `for`, since a search of the rows says where each round's begin.
    while low < to {
        let round = rows[to - 1][0];
        let from = filters::lower_bound(rows, [round, 0, 0, 0, 0, 0]);
        let near = parents_of(parents, above, round);
        let s = reach::reach_round(log, &rows[from..to], from, near, later, earlier, work)?;
        unloaded += s.unloaded;
        found = s.found;
        above = round;
        parents = Some(to - from);
        to = from;
    }
    Ok(Searched {
        unloaded,
        found: found_in(found, above, earlier.round),
    })
}

// Whether the last round searched is the earlier block's, and the block was found there.
fn found_in(found: bool, above: RoundNumber, round: RoundNumber) -> bool
    ensures { result ≡ pick found (eqb above round) false }
{
    found && above == round
}

// Answers without clearing the working rows.
fn answer(
    view: &StoreView<'_>,
    later: &[u8],
    earlier: BlockReference,
    work: &mut [u64],
) -> Result<LinkedAnswer, Refusal>
    ensures value { result ≡ of_view linked_answer view.now later.now earlier (length work.old / 8) }
    ensures work_len_unchanged { length work.new ≡ length work.old }
{
    view.check()?;
    let Some((block, _)) = StatementBlock::decode(later, 0) else {
        return Err(Refusal::Block);
    };
    if work.len() / 8 < view.store.rows {
        return Err(Refusal::Rows);
    }
    let reference = block.reference;
    let searched = search(
        &view.log,
        view.rows(),
        later,
        reference.round,
        earlier,
        work,
    )?;
    Ok(LinkedAnswer {
        linked: is_linked(reference, earlier, searched.found),
        store: query::count_loads(view.store, searched.unloaded),
    })
}

// Whether the earlier block is the later one, or is reached from it by includes, one round a step.
pub fn linked(
    view: &StoreView<'_>,
    later: &[u8],
    earlier: BlockReference,
    work: &mut [u64],
) -> Result<LinkedAnswer, Refusal>
    ensures value { result ≡ of_view linked_answer view.now later.now earlier (length work.old / 8) }
    ensures work_after { work.new ≡ zeros (length work.old) }
{
    let linked = answer(view, later, earlier, work);
    tables::clear(work);
    linked
}

fn is_linked(later: BlockReference, earlier: BlockReference, found: bool) -> bool
    ensures { result ≡ pick (same later earlier) true found }
{
    later == earlier || found
}
