// Stores of records into bytes that a caller lends. Each answers the place behind the record, and
// asks that the record fits: its callers have tested that.
#![tactic(auto)]

ghost use Rattle.std.specs.Prelude.{◌≡◌, List, ℕ, ◌++◌, ◌+◌, ◌^◌, ◌≤◌, ◌<◌, length};
ghost use Rattle.laws.specs.Bytes.{le};
ghost use Rattle.bincode.specs.Bincode.{bool_bytes, byte_string_bytes};
ghost use Rattle.crypto.specs.Records.{digest_bytes, signature_bytes};
ghost use Rattle.types.specs.Records.{reference_bytes, locator_bytes, range_bytes, vote_bytes};
ghost use Rattle.put_records.specs.Put.{Put};
ghost use Rattle.put_records.specs.Votes.{vote_value};

use crypto::{BLOCK_DIGEST_SIZE, BlockDigest, SIGNATURE_SIZE, SignatureBytes};
use types::{BlockReference, REFERENCE_SIZE, TransactionLocator, TransactionLocatorRange};
use votes::Vote;

pub const LOCATOR_SIZE: usize = 64;

pub const RANGE_SIZE: usize = 72;

// What is laid out in bytes, at most 65,535 of them.
pub trait Encode: Copy {
    ghost layout: { Self → List ℕ };

    fn size(self) -> usize
        ensures counted { result ≡ length (layout self) }
        ensures small { result < 2 ^ 16 };

    // The place behind the record.
    fn put(self, out: &mut [u8], at: usize) -> usize
        requires { at + length (layout self) ≤ length out.old }
        ensures { Put out.old at (layout self) out.new result };
}

// A count and the bytes behind it.
pub fn put_counted(out: &mut [u8], at: usize, n: u64, bytes: &[u8]) -> usize
    requires { at + 8 + length bytes.now ≤ length out.old }
    ensures { Put out.old at (le 8 n ++ bytes.now) out.new result }
{
    fields::put_u64(out, at, n);
    fields::put_bytes(out, at + 8, bytes);
    at + 8 + bytes.len()
}

impl Encode for bool {
    ghost layout = { bool_bytes };

    fn size(self) -> usize {
        1
    }

    fn put(self, out: &mut [u8], at: usize) -> usize {
        out[at] = u8::from(self);
        at + 1
    }
}

// Kept: two impls for a digest and a signature; both are no more than a call of put_counted.
impl Encode for BlockDigest {
    ghost layout = { digest_bytes };

    fn size(self) -> usize {
        8 + BLOCK_DIGEST_SIZE
    }

    fn put(self, out: &mut [u8], at: usize) -> usize {
        let bytes = self.0;
        put_counted(out, at, 32, &bytes)
    }
}

impl Encode for SignatureBytes {
    ghost layout = { signature_bytes };

    fn size(self) -> usize {
        8 + SIGNATURE_SIZE
    }

    fn put(self, out: &mut [u8], at: usize) -> usize {
        let bytes = self.0;
        put_counted(out, at, 64, &bytes)
    }
}

impl Encode for BlockReference {
    ghost layout = { reference_bytes };

    fn size(self) -> usize {
        REFERENCE_SIZE
    }

    #[tactic(auto, using(crate::proofs::Lengths::length_reference))]
    fn put(self, out: &mut [u8], at: usize) -> usize {
        fields::put_u64(out, at, self.authority);
        fields::put_u64(out, at + 8, self.round);
        self.digest.put(out, at + 16)
    }
}

impl Encode for TransactionLocator {
    ghost layout = { locator_bytes };

    fn size(self) -> usize {
        LOCATOR_SIZE
    }

    #[tactic(auto, using(crate::proofs::Lengths::length_locator))]
    fn put(self, out: &mut [u8], at: usize) -> usize {
        let p = self.block.put(out, at);
        fields::put_u64(out, p, self.offset);
        p + 8
    }
}

impl Encode for TransactionLocatorRange {
    ghost layout = { range_bytes };

    fn size(self) -> usize {
        RANGE_SIZE
    }

    #[tactic(auto, using(crate::proofs::Lengths::length_range))]
    fn put(self, out: &mut [u8], at: usize) -> usize {
        let p = self.block.put(out, at);
        fields::put_u64(out, p, self.offset_start_inclusive);
        fields::put_u64(out, p + 8, self.offset_end_exclusive);
        p + 16
    }
}

impl Encode for Vote {
    ghost layout = { λ v. vote_bytes (vote_value v) };

    fn size(self) -> usize {
        match self {
            Vote::Accept => 4,
            Vote::Reject(None) => 5,
            Vote::Reject(Some(_)) => 5 + LOCATOR_SIZE,
        }
    }

    fn put(self, out: &mut [u8], at: usize) -> usize {
        match self {
            Vote::Accept => {
                fields::put_u32(out, at, 0);
                at + 4
            }
            Vote::Reject(None) => {
                fields::put_u32(out, at, 1);
                false.put(out, at + 4)
            }
            Vote::Reject(Some(other)) => {
                fields::put_u32(out, at, 1);
                let p = true.put(out, at + 4);
                other.put(out, p)
            }
        }
    }
}
