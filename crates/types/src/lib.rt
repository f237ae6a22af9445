// Ported from types.rs of mahi-mahi-consensus, Copyright (c) Mysten Labs, Inc., Apache-2.0.
// Changed: written anew in Rattle, with contracts. NOTICE says what was carried across and what was changed.

// References, locators and ranges (types.rs), and how they are decoded. specs/ has the records of votes,
// statements and blocks too; their decoders are the crates votes, statements and blocks.
#![tactic(auto)]

ghost use Rattle.std.specs.Prelude.{◌≡◌, ◌+◌, ◌*◌};
ghost use Rattle.bincode.specs.Answers.{as_it_is, decoded};
ghost use Rattle.types.specs.Records.{reference, locator, range};

use bincode::Decode;
use crypto::BlockDigest;

pub type AuthorityIndex = u64;

pub type RoundNumber = u64;

// The bytes of a reference.
pub const REFERENCE_SIZE: usize = 56;

#[derive(Clone, Copy, PartialEq, Eq)]
pub struct BlockReference {
    pub authority: AuthorityIndex,
    pub round: RoundNumber,
    pub digest: BlockDigest,
}

#[derive(Clone, Copy)]
pub struct TransactionLocator {
    pub block: BlockReference,
    pub offset: u64,
}

#[derive(Clone, Copy)]
pub struct TransactionLocatorRange {
    pub block: BlockReference,
    pub offset_start_inclusive: u64,
    pub offset_end_exclusive: u64,
}

impl Decode for BlockReference {
    ghost use Rattle.types.specs.declared.BlockReference.{BlockReference};

    ghost Value = { BlockReference };

    ghost parser = { reference };

    ghost answered = { as_it_is };

    fn decode(s: &[u8], at: usize) -> Option<(BlockReference, usize)> {
        let (authority, p) = u64::decode(s, at)?;
        let (round, q) = u64::decode(s, p)?;
        let (digest, end) = BlockDigest::decode(s, q)?;
        Some((
            BlockReference {
                authority,
                round,
                digest,
            },
            end,
        ))
    }
}

impl Decode for TransactionLocator {
    ghost use Rattle.types.specs.declared.TransactionLocator.{TransactionLocator};

    ghost Value = { TransactionLocator };

    ghost parser = { locator };

    ghost answered = { as_it_is };

    fn decode(s: &[u8], at: usize) -> Option<(TransactionLocator, usize)> {
        let (block, p) = BlockReference::decode(s, at)?;
        let (offset, end) = u64::decode(s, p)?;
        Some((TransactionLocator { block, offset }, end))
    }
}

impl Decode for TransactionLocatorRange {
    ghost use Rattle.types.specs.declared.TransactionLocatorRange.{TransactionLocatorRange};

    ghost Value = { TransactionLocatorRange };

    ghost parser = { range };

    ghost answered = { as_it_is };

    fn decode(s: &[u8], at: usize) -> Option<(TransactionLocatorRange, usize)> {
        let (block, p) = BlockReference::decode(s, at)?;
        let (offset_start_inclusive, q) = u64::decode(s, p)?;
        let (offset_end_exclusive, end) = u64::decode(s, q)?;
        Some((
            TransactionLocatorRange {
                block,
                offset_start_inclusive,
                offset_end_exclusive,
            },
            end,
        ))
    }
}

// The i-th of the references that begin at `place`, in constant time: all have one width.
pub fn include_at(s: &[u8], place: usize, i: usize) -> Option<(BlockReference, usize)>
    ensures { result ≡ decoded (reference s.now (place + 56 * i)) }
{
    let len = s.len();
    if len < place || (len - place) / REFERENCE_SIZE < i {
        return None;
    }
    BlockReference::decode(s, place + REFERENCE_SIZE * i)
}
