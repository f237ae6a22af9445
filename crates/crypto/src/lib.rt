// Ported from crypto.rs of mahi-mahi-consensus, Copyright (c) Mysten Labs, Inc., Apache-2.0.
// Changed: written anew in Rattle, with contracts. NOTICE says what was carried across and what was changed.

// The digest and the signature of a block (crypto.rs): bytes of a fixed number, by value, and how they
// are decoded.
#![tactic(auto)]

ghost use Rattle.bincode.specs.Answers.{as_it_is};
ghost use Rattle.crypto.specs.Records.{digest, signature};

use bincode::{Decode, decode_array};

pub const BLOCK_DIGEST_SIZE: usize = 32;

pub const SIGNATURE_SIZE: usize = 64;

#[derive(Clone, Copy, PartialEq, Eq)]
pub struct BlockDigest(pub [u8; 32]);

#[derive(Clone, Copy, PartialEq, Eq)]
pub struct SignatureBytes(pub [u8; 64]);

impl Decode for BlockDigest {
    ghost use Rattle.crypto.specs.declared.BlockDigest.{BlockDigest};

    ghost Value = { BlockDigest };

    ghost parser = { digest };

    ghost answered = { as_it_is };

    fn decode(s: &[u8], at: usize) -> Option<(BlockDigest, usize)> {
        let (bytes, end) = decode_array::<BLOCK_DIGEST_SIZE>(s, at)?;
        Some((BlockDigest(bytes), end))
    }
}

impl Decode for SignatureBytes {
    ghost use Rattle.crypto.specs.declared.SignatureBytes.{SignatureBytes};

    ghost Value = { SignatureBytes };

    ghost parser = { signature };

    ghost answered = { as_it_is };

    fn decode(s: &[u8], at: usize) -> Option<(SignatureBytes, usize)> {
        let (bytes, end) = decode_array::<SIGNATURE_SIZE>(s, at)?;
        Some((SignatureBytes(bytes), end))
    }
}
