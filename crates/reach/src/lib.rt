// Ported from block_store.rs of mahi-mahi-consensus, Copyright (c) Mysten Labs, Inc., Apache-2.0.
// Changed: written anew in Rattle, with contracts. NOTICE says what was carried across and what was changed.

// One round of the search for an ancestor (block_store.rs, linked): which of its blocks are reached from those
// of the round above. A working row belongs to each index row: whether its block is reached, and where the
// block's bytes stand in the image.
#![tactic(auto)]

ghost use Rattle.std.specs.Prelude.{◌≡◌, true, false, ◌+◌, ◌*◌, ◌≤◌, length};
ghost use Rattle.laws.specs.Pick.{pick};
ghost use Rattle.laws.specs.Bytes.{AllBytes};
ghost use Rattle.wal_position.specs.Logs.{of_log};
ghost use Rattle.filters.specs.Segments.{between};
ghost use Rattle.includes.specs.References.{same};
ghost use Rattle.reach.specs.Blocks.{read_blocks};
ghost use Rattle.reach.specs.Reaching.{AllBlockPlaces, Ready, reached_in, parents_of, is_reached, meets, Marked, searched_of};

use bincode::Cursor;
use refusal::Refusal;
use types::BlockReference;
use wal_position::{Log, WalPosition};

// How many of the blocks read were not loaded, and whether the earlier block is among those that were
// reached.
#[derive(Clone, Copy)]
pub struct Searched {
    pub unloaded: u64,
    pub found: bool,
}

// Whether one of the blocks reached, of the parents' working rows, includes the reference.
fn any_includes(image: &[u8], parents: &[[u64; 8]], reference: BlockReference) -> bool
    requires { AllBlockPlaces image.now parents.now }
    ensures { result ≡ is_reached (reached_in image.now parents.now) reference }
{
    for row in parents {
        if row[0] != 0 {
            let at = row[1] as usize;
            let end = at + row[2] as usize;
            if includes::includes(&image[at..end], reference) {
                return true;
            }
        }
    }
    false
}

// Whether a parent includes the reference: the later block, or one of those reached of as many working rows
// as are given, from `from` on. The clause `bytes` says what the image's type does, for a caller that has
// the image in a log.
fn is_reached(
    image: &[u8],
    work: &[u64],
    from: usize,
    parents: Option<usize>,
    later: &[u8],
    reference: BlockReference,
) -> bool
    requires { Ready image.now later.now parents from work.now }
    ensures value { result ≡ is_reached (parents_of image.now later.now parents from work.now) reference }
    ensures bytes { AllBytes image.now }
{
    match parents {
        None => includes::includes(later, reference),
        Some(n) => any_includes(image, &rows::rows_of(work, from + n)[from..], reference),
    }
}

// Reads the blocks of a round's index rows, and stores which of them a parent includes in their working rows,
// from row `from` on. Behind these are as many rows of parents as are given; where no number is given the
// later block is the parent.
pub fn reach_round(
    log: &Log<'_>,
    rows: &[[u64; 8]],
    from: usize,
    parents: Option<usize>,
    later: &[u8],
    earlier: BlockReference,
    work: &mut [u64],
) -> Result<Searched, Refusal>
    requires { (8 * (from + length rows.now) ≤ length work.old)
        × Ready log.now.image.now later.now parents (from + length rows.now) work.old }
    ensures value { result ≡ searched_of (meets earlier
        (parents_of log.now.image.now later.now parents (from + length rows.now) work.old)) rows.now
        (of_log read_blocks log.now rows.now) }
    ensures marked { Marked log.now.image.now
        (parents_of log.now.image.now later.now parents (from + length rows.now) work.old)
        (between from (from + length rows.now) work.new) (of_log read_blocks log.now rows.now) }
    ensures work_len_unchanged { length work.new ≡ length work.old }
{
    let to = from + rows.len();
    let mut unloaded = 0;
    let mut found = false;
    for (i, row) in rows.iter().enumerate() {
        let block = block_reader::read_block(log, WalPosition(row[6]))?;
        let reached = is_reached(log.image, work, to, parents, later, block.reference);
        let Cursor { at, left } = block.bytes;
        tables::put_row(
            work,
            from + i,
            [u64::from(reached), at as u64, left as u64, 0, 0, 0, 0, 0],
        );
        found = met(found, reached, block.reference, earlier);
        unloaded += filters::not_loaded(row);
    }
    Ok(Searched { unloaded, found })
}

// Whether the earlier block was met before, or is this one.
fn met(found: bool, reached: bool, reference: BlockReference, earlier: BlockReference) -> bool
    ensures { result ≡ pick found true (pick reached (same reference earlier) false) }
{
    found || reached && reference == earlier
}
