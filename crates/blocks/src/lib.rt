// Ported from types.rs and data.rs of mahi-mahi-consensus, Copyright (c) Mysten Labs, Inc., Apache-2.0.
// Changed: written anew in Rattle, with contracts. NOTICE says what was carried across and what was changed.

// Blocks (types.rs), and how they are decoded. The digest is not recomputed.
#![tactic(auto)]

ghost use Rattle.types.specs.Records.{BlockValue, block};
ghost use Rattle.blocks.specs.Answers.{statement_block};

use bincode::{Cursor, Decode, decode_list};
use crypto::SignatureBytes;
use statements::BaseStatement;
use types::BlockReference;

// 128 bits, in two halves.
// Kept: two halves, as document 01 has it.
#[derive(Clone, Copy)]
pub struct TimestampNs {
    pub low: u64,
    pub high: u64,
}

// Includes and statements are answered as cursors at their first elements.
#[derive(Clone, Copy)]
pub struct StatementBlock {
    pub reference: BlockReference,
    pub includes: Cursor,
    pub statements: Cursor,
    pub meta_creation_time_ns: TimestampNs,
    pub epoch_marker: bool,
    pub signature: SignatureBytes,
}

impl Decode for StatementBlock {
    ghost Value = { BlockValue };

    ghost parser = { block };

    ghost answered = { λ p b e. statement_block p b };

    fn decode(s: &[u8], at: usize) -> Option<(StatementBlock, usize)> {
        let (reference, p) = BlockReference::decode(s, at)?;
        let (includes, q) = decode_list::<BlockReference>(s, p)?;
        let (statements, t) = decode_list::<BaseStatement>(s, q)?;
        let (low, u) = u64::decode(s, t)?;
        let (high, v) = u64::decode(s, u)?;
        let (epoch_marker, w) = bool::decode(s, v)?;
        let (signature, end) = SignatureBytes::decode(s, w)?;
        Some((
            StatementBlock {
                reference,
                includes,
                statements,
                meta_creation_time_ns: TimestampNs { low, high },
                epoch_marker,
                signature,
            },
            end,
        ))
    }
}
