// Ported from block_store.rs of mahi-mahi-consensus, Copyright (c) Mysten Labs, Inc., Apache-2.0.
// Changed: written anew in Rattle, with contracts. NOTICE says what was carried across and what was changed.

// What every query is made of (block_store.rs, BlockStore's queries): the blocks of chosen rows read into the
// answer table, the loads counted. The rows of the table `out` have the reference in the block, and where its
// bytes stand in the image.
#![tactic(auto)]

ghost use Rattle.std.specs.Prelude.{◌≡◌, length, Err};
ghost use Rattle.laws.specs.Bytes.{zeros};
ghost use Rattle.wal_position.specs.Logs.{of_log};
ghost use Rattle.store.specs.Views.{of_view};
ghost use Rattle.filters.specs.Segments.{chosen};
ghost use Rattle.query.specs.Query.{answer_row, read_rows, counted, call_of, QueryAnswers};
ghost use Rattle.query.specs.Collecting.{collected_of, HoldsRows, answer_put, finished};

use bincode::Cursor;
use block_reader::ReadBlock;
use refusal::Refusal;
use store::{BlockStore, StoreView};
use types::AuthorityIndex;
use wal_position::{Log, WalPosition};

// How many rows were found, and the store with the loads counted.
#[derive(Clone, Copy)]
pub struct Looked {
    pub rows: usize,
    pub store: BlockStore,
}

// How many rows were chosen, and how many of their blocks were not loaded.
#[derive(Clone, Copy)]
struct Collected {
    rows: usize,
    unloaded: u64,
}

// Stores a row in the answer table where there is room for it.
fn put_answer(out: &mut [u64], i: usize, block: ReadBlock)
    ensures { out.new ≡ answer_put out.old i
        (answer_row block.reference block.bytes.at block.bytes.left) }
{
    if i < out.len() / 8 {
        let [a, b, c, d, e, f] = index::key_of(block.reference);
        let Cursor { at, left } = block.bytes;
        tables::put_row(out, i, [a, b, c, d, e, f, at as u64, left as u64]);
    }
}

// Reads the blocks of the rows of an author, or of every one, at most `limit` of them, into an answer
// table of zeros. All are read, also where the table is full: that too few rows are lent is told last.
fn collect(
    log: &Log<'_>,
    rows: &[[u64; 8]],
    author: Option<AuthorityIndex>,
    limit: usize,
    out: &mut [u64],
) -> Result<Collected, Refusal>
    requires { out.old ≡ zeros (length out.old) }
    ensures value { result ≡ collected_of (chosen author limit rows.now)
        (of_log read_rows log.now (chosen author limit rows.now)) }
    ensures holds_rows { HoldsRows
        (of_log read_rows log.now (chosen author limit rows.now))
        out.new }
{
    let mut n = 0;
    let mut unloaded = 0;
    for row in rows {
        if filters::is_chosen(row, author) {
            if limit <= n {
                break;
            }
            let block = block_reader::read_block(log, WalPosition(row[6]))?;
            put_answer(out, n, block);
            unloaded += filters::not_loaded(row);
            n += 1;
        }
    }
    Ok(Collected { rows: n, unloaded })
}

// The answer of a query whose rows were collected: more rows than lent are refused.
fn finish(
    store: BlockStore,
    collected: Result<Collected, Refusal>,
    lent: usize,
) -> Result<Looked, Refusal>
    ensures { result ≡ finished store collected lent }
{
    let found = collected?;
    if lent < found.rows {
        return Err(Refusal::Rows);
    }
    Ok(Looked {
        rows: found.rows,
        store: count_loads(store, found.unloaded),
    })
}

// A query that a check refused. It leaves no word in the table.
pub fn refuse(refusal: Refusal, out: &mut [u64]) -> Result<Looked, Refusal>
    ensures value { result ≡ Err refusal }
    ensures out_after { out.new ≡ zeros (length out.old) }
{
    tables::clear(out);
    Err(refusal)
}

// A query that no check refused, of these rows. A refusal leaves no word in the table.
pub fn answer(
    view: &StoreView<'_>,
    rows: &[[u64; 8]],
    author: Option<AuthorityIndex>,
    limit: usize,
    out: &mut [u64],
) -> Result<Looked, Refusal>
    ensures { QueryAnswers
        (record {
          call = of_view call_of view.now;
          number = 0;
          chosen = chosen author limit rows.now;
        })
        result out.old out.new }
{
    tables::clear(out);
    let collected = collect(&view.log, rows, author, limit, out);
    let looked = finish(view.store, collected, out.len() / 8);
    if looked.is_err() {
        tables::clear(out);
    }
    looked
}

// The counter stays at its highest number.
#[tactic(auto, unfolding(crate::specs::Query::counted))]
pub fn count_loads(store: BlockStore, n: u64) -> BlockStore
    ensures { result ≡ counted store n }
{
    BlockStore {
        loads: store.loads.saturating_add(n),
        ..store
    }
}
