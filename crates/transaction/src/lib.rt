// Ported from block_store.rs of mahi-mahi-consensus, Copyright (c) Mysten Labs, Inc., Apache-2.0.
// Changed: written anew in Rattle, with contracts. NOTICE says what was carried across and what was changed.

// A transaction by its locator (block_store.rs, get_transaction). The answer is a part of the image.
#![tactic(auto)]

ghost use Rattle.std.specs.Prelude.{◌≡◌, [], ◌∷◌};
ghost use Rattle.bincode.specs.Cursors.{next_element};
ghost use Rattle.types.specs.Records.{statement};
ghost use Rattle.wal_position.specs.Logs.{of_log};
ghost use Rattle.store.specs.Views.{of_view};
ghost use Rattle.transaction.specs.Transaction.{share_of, share_in, transaction_of, get_transaction};

use bincode::{Cursor, Decode};
use blocks::StatementBlock;
use refusal::Refusal;
use statements::BaseStatement;
use store::{BlockStore, StoreView};
use types::TransactionLocator;
use wal_position::WalPosition;

// The place of the transaction's bytes, if there is one, and the store with the load counted.
#[derive(Clone, Copy)]
pub struct FoundTransaction {
    pub share: Option<Cursor>,
    pub store: BlockStore,
}

// The bytes of the Share with this offset among a block's statements.
pub fn share_in(block: &[u8], offset: u64) -> Option<Cursor>
    ensures { result ≡ share_in block.now offset }
{
    let (b, _) = StatementBlock::decode(block, 0)?;
    let mut c = b.statements;
    for _ in 0..offset {
        let (_, rest) = bincode::next::<BaseStatement>(block, c)?;
        c = rest;
    }
    share_at(block, c)
}

// The bytes of the Share at a cursor's place.
fn share_at(block: &[u8], c: Cursor) -> Option<Cursor>
    ensures { result ≡ share_of (next_element statement block.now c) }
{
    let (found, _) = bincode::next::<BaseStatement>(block, c)?;
    match found {
        BaseStatement::Share(bytes) => Some(bytes),
        BaseStatement::Vote(_, _) => None,
        BaseStatement::VoteRange(_) => None,
    }
}

// The Share in the block of a row: the block is read, and its load counted, before the offset is
// looked at.
fn read_share(
    view: &StoreView<'_>,
    row: &[u64; 8],
    offset: u64,
) -> Result<FoundTransaction, Refusal>
    ensures { result ≡ of_log transaction_of view.now.log view.now.store offset (row.now ∷ []) }
{
    let block = block_reader::read_block(&view.log, WalPosition(row[6]))?;
    let Cursor { at, left } = block.bytes;
    let found = share_in(&view.log.image[at..at + left], offset);
    Ok(FoundTransaction {
        share: found.map(|share| Cursor {
            at: at + share.at,
            left: share.left,
        }),
        store: query::count_loads(view.store, filters::not_loaded(row)),
    })
}

// The transaction that a locator names: only a Share is one.
pub fn get_transaction(
    view: &StoreView<'_>,
    locator: TransactionLocator,
) -> Result<FoundTransaction, Refusal>
    ensures { result ≡ of_view get_transaction view.now locator }
{
    view.check()?;
    let rows = view.rows();
    match rows::find(rows, index::key_of(locator.block)) {
        Ok(i) => read_share(view, &rows[i], locator.offset),
        Err(_) => Ok(FoundTransaction {
            share: None,
            store: view.store,
        }),
    }
}
