// Ported from block_store.rs of mahi-mahi-consensus, Copyright (c) Mysten Labs, Inc., Apache-2.0.
// Changed: written anew in Rattle, with contracts. NOTICE says what was carried across and what was changed.

// Reads a block from the log at a position (block_store.rs, read_index): its reference, and where its bytes
// stand in the image.
#![tactic(auto)]

ghost use Rattle.std.specs.Prelude.{◌≡◌, ◌+◌, ◌^◌, ◌≤◌, ◌<◌, length};
ghost use Rattle.wal_position.specs.Logs.{of_log};
ghost use Rattle.wal_reader.specs.Answers.{entry_named};
ghost use Rattle.block_reader.specs.Reading.{plain_block, own_block_at, block_in, block_at, read_of};

use bincode::{Cursor, Decode};
use blocks::StatementBlock;
use commits::OwnBlockData;
use refusal::Refusal;
use types::BlockReference;
use wal_position::{Log, WalPosition};
use wal_reader::WalEntry;

// A block as it was read: its reference, and its bytes in the image.
#[derive(Clone, Copy)]
pub struct ReadBlock {
    pub reference: BlockReference,
    pub bytes: Cursor,
}

// The block of an entry that lies in the image.
fn block_of(image: &[u8], entry: WalEntry) -> Result<ReadBlock, Refusal>
    requires { (entry.position.0 + 16 + entry.len ≤ length image.now)
        × (entry.position.0 + 16 + entry.len ≤ 2 ^ 40) }
    ensures { result ≡ read_of (block_in (entry_named image.now entry)) }
{
    let from = entry.position.0 as usize + 16;
    let to = from + entry.len as usize;
    match entry.tag {
        1 => plain_block(&image[from..to], from),
        3 => own_block(&image[from..to], from),
        _ => Err(Refusal::Tag),
    }
}

// The block of a tag 1 entry whose payload stands at `at`.
fn plain_block(payload: &[u8], at: usize) -> Result<ReadBlock, Refusal>
    ensures { result ≡ read_of (plain_block at payload.now) }
{
    let Some((block, _)) = StatementBlock::decode(payload, 0) else {
        return Err(Refusal::Block);
    };
    Ok(ReadBlock {
        reference: block.reference,
        bytes: Cursor {
            at,
            left: payload.len(),
        },
    })
}

// The block of a tag 3 entry whose payload stands at `at`: behind its next entry.
fn own_block(payload: &[u8], at: usize) -> Result<ReadBlock, Refusal>
    requires { at < 2 ^ 62 }
    ensures { result ≡ read_of (own_block_at at payload.now) }
{
    let Some((own_block, _)) = OwnBlockData::decode(payload, 0) else {
        return Err(Refusal::OwnBlock);
    };
    Ok(ReadBlock {
        reference: own_block.block.reference,
        bytes: Cursor {
            at: at + 8,
            left: payload.len() - 8,
        },
    })
}

// Reads the block at a position (BlockStore, read_index).
pub fn read_block(log: &Log<'_>, position: WalPosition) -> Result<ReadBlock, Refusal>
    ensures { result ≡ read_of (of_log block_at log.now position.0) }
{
    let entry = wal_reader::read(log, position)?;
    block_of(log.image, entry)
}
