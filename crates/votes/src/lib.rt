// Ported from types.rs of mahi-mahi-consensus, Copyright (c) Mysten Labs, Inc., Apache-2.0.
// Changed: written anew in Rattle, with contracts. NOTICE says what was carried across and what was changed.

// Votes (types.rs), and how they are decoded.
#![tactic(auto)]

ghost use Rattle.types.specs.Records.{VoteValue, vote};
ghost use Rattle.votes.specs.Answers.{vote_of};

use bincode::Decode;
use types::TransactionLocator;

// A reject may name another transaction, which the vote is for.
#[derive(Clone, Copy)]
pub enum Vote {
    Accept,
    Reject(Option<TransactionLocator>),
}

impl Decode for Vote {
    ghost Value = { VoteValue };

    ghost parser = { vote };

    ghost answered = { λ p v e. vote_of v };

    fn decode(s: &[u8], at: usize) -> Option<(Vote, usize)> {
        let (variant, p) = u32::decode(s, at)?;
        match variant {
            0 => Some((Vote::Accept, p)),
            1 => {
                let (other, end) = Option::<TransactionLocator>::decode(s, p)?;
                Some((Vote::Reject(other), end))
            }
            _ => None,
        }
    }
}
