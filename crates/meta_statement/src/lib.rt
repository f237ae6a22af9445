// Ported from core.rs and state.rs of mahi-mahi-consensus, Copyright (c) Mysten Labs, Inc., Apache-2.0.
// Changed: written anew in Rattle, with contracts. NOTICE says what was carried across and what was changed.

// What a pending entry stands for (core.rs, `MetaStatement`; state.rs, `into_meta_statement`).
#![tactic(auto)]

ghost use Rattle.std.specs.Prelude.{◌≡◌};
ghost use Rattle.meta_statement.specs.MetaStatement.{meta_statement, meta_answer};

use bincode::{Cursor, Decode, decode_list};
use blocks::StatementBlock;
use statements::BaseStatement;
use types::BlockReference;

// A payload is answered as a cursor at its first statement.
#[derive(Clone, Copy)]
pub enum MetaStatement {
    Include(BlockReference),
    Payload(Cursor),
}

// The statement of an entry with this tag and payload.
pub fn into_meta_statement(tag: u32, payload: &[u8]) -> Option<MetaStatement>
    ensures { result ≡ meta_answer (meta_statement tag payload.now) }
{
    match tag {
        1 => {
            let (block, _) = StatementBlock::decode(payload, 0)?;
            Some(MetaStatement::Include(block.reference))
        }
        2 => {
            let (statements, _) = decode_list::<BaseStatement>(payload, 0)?;
            Some(MetaStatement::Payload(statements))
        }
        _ => None,
    }
}
