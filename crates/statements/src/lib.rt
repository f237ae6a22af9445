// Ported from types.rs of mahi-mahi-consensus, Copyright (c) Mysten Labs, Inc., Apache-2.0.
// Changed: written anew in Rattle, with contracts. NOTICE says what was carried across and what was changed.

// Statements (types.rs), and how they are decoded. A payload is a list of them: `bincode::decode_list`
// and `bincode::next` at BaseStatement.
#![tactic(auto)]

ghost use Rattle.types.specs.Records.{StatementValue, statement};
ghost use Rattle.statements.specs.Answers.{statement_of};

use bincode::{Cursor, Decode, decode_bytes};
use types::{TransactionLocator, TransactionLocatorRange};
use votes::Vote;

// The bytes of a Share are answered as a cursor at the first.
#[derive(Clone, Copy)]
pub enum BaseStatement {
    Share(Cursor),
    Vote(TransactionLocator, Vote),
    VoteRange(TransactionLocatorRange),
}

impl Decode for BaseStatement {
    ghost Value = { StatementValue };

    ghost parser = { statement };

    ghost answered = { λ p v e. statement_of v e };

    fn decode(s: &[u8], at: usize) -> Option<(BaseStatement, usize)> {
        let (variant, p) = u32::decode(s, at)?;
        match variant {
            0 => {
                let (bytes, end) = decode_bytes(s, p)?;
                Some((BaseStatement::Share(bytes), end))
            }
            1 => {
                let (locator, q) = TransactionLocator::decode(s, p)?;
                let (vote, end) = Vote::decode(s, q)?;
                Some((BaseStatement::Vote(locator, vote), end))
            }
            2 => {
                let (range, end) = TransactionLocatorRange::decode(s, p)?;
                Some((BaseStatement::VoteRange(range), end))
            }
            _ => None,
        }
    }
}
