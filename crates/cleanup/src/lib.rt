// Ported from block_store.rs of mahi-mahi-consensus, Copyright (c) Mysten Labs, Inc., Apache-2.0.
// Changed: written anew in Rattle, with contracts. NOTICE says what was carried across and what was changed.

// Cleanup (block_store.rs, cleanup and unload_below_round): the blocks of old rounds are unloaded.
#![tactic(auto)]

ghost use Rattle.std.specs.Prelude.{◌≡◌, map, ◌*◌, ◌≤◌, length};
ghost use Rattle.laws.specs.Bytes.{written};
ghost use Rattle.wal_position.specs.Logs.{of_log};
ghost use Rattle.rows.specs.Rows.{rows_of, flat, Ascending};
ghost use Rattle.cleanup.specs.Cleanup.{unload, unloads, cleanup_answer, cleanup_index};

use refusal::Refusal;
use store::{BlockStore, StoreView};
use types::RoundNumber;
use wal_position::Log;

// Unloads the blocks of the rows up to round t, which ascend, and counts those that were loaded.
fn unload_below_round(index: &mut [u64], count: usize, t: RoundNumber) -> u64
    requires { (8 * count ≤ length index.old) × Ascending (rows_of count index.old) }
    ensures value { result ≡ unloads t (rows_of count index.old) }
    ensures index_after { index.new ≡ written index.old 0
        (flat (map (unload t) (rows_of count index.old))) }
{
    let mut unloaded = 0;
    for i in 0..count {
        if t < index[8 * i] {
            return unloaded;
        }
        if index[8 * i + 7] != 0 {
            index[8 * i + 7] = 0;
            unloaded += 1;
        }
    }
    unloaded
}

// Unloads rounds up to t, and answers how many blocks were unloaded; t = 0 does nothing.
pub fn cleanup(
    log: &Log<'_>,
    store: BlockStore,
    index: &mut [u64],
    t: RoundNumber,
) -> Result<u64, Refusal>
    ensures value { result ≡ of_log cleanup_answer log.now store index.old t }
    ensures index_after { index.new ≡ of_log cleanup_index log.now store index.old t }
{
    let view = StoreView {
        log: *log,
        store,
        index: &*index,
    };
    view.check()?;
    if t == 0 {
        return Ok(0);
    }
    Ok(unload_below_round(index, store.rows, t))
}
