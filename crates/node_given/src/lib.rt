// What a caller of the crate node gives an encoder as words, and the words that an encoder answers.
#![tactic(auto)]

ghost use Rattle.std.specs.Prelude.{◌≡◌, MatchOption};
ghost use Rattle.std.proofs.Math.Option.{none, some};
ghost use Rattle.put_records.specs.Votes.{vote_value};
ghost use Rattle.encode.specs.Encoding.{Encodes};
ghost use Rattle.encode_blocks.specs.Whole.{laid_out};
ghost use Rattle.node_log.specs.Answers.{Gives};
ghost use Rattle.node_given.specs.Given.{locator_of, range_of, vote_given, vote_with, block_fields_of, encoded_words};

use blocks::TimestampNs;
use crypto::SignatureBytes;
use encode::EncodeError;
use encode_blocks::BlockFields;
use types::{TransactionLocator, TransactionLocatorRange};
use votes::Vote;

// Of an encoder.
#[tactic(auto, unfolding(crate::specs::Given::encoded_words))]
pub fn put_encoded(answer: &mut [u64; 2], encoded: Result<usize, EncodeError>) -> u8
    ensures { Gives 0 (encoded_words encoded) result answer.new }
{
    *answer = match encoded {
        Ok(end) => [1, end as u64],
        Err(EncodeError::Malformed) => [0, 0],
        Err(EncodeError::NoRoom) => [2, 0],
    };
    0
}

// The locator in seven words.
#[tactic(auto, unfolding(crate::specs::Given::locator_of))]
fn locator_of(words: &[u64; 7]) -> TransactionLocator
    ensures { result ≡ locator_of words.now }
{
    TransactionLocator {
        block: node_store::reference_at(words, 0),
        offset: words[6],
    }
}

// The range in eight words.
#[tactic(auto, unfolding(crate::specs::Given::range_of))]
pub fn range_of(words: &[u64; 8]) -> TransactionLocatorRange
    ensures { result ≡ range_of words.now }
{
    TransactionLocatorRange {
        block: node_store::reference_at(words, 0),
        offset_start_inclusive: words[6],
        offset_end_exclusive: words[7],
    }
}

// The vote of a kind, where there is such a kind; `other` counts for the last kind alone.
#[tactic(auto, unfolding(crate::specs::Given::vote_given, laws::specs::Pick::pick))]
fn vote_of(kind: u64, other: TransactionLocator) -> Option<Vote>
    ensures { MatchOption result (vote_given kind other ≡ none)
        (λ vote. vote_given kind other ≡ some (vote_value vote)) }
{
    match kind {
        0 => Some(Vote::Accept),
        1 => Some(Vote::Reject(None)),
        2 => Some(Vote::Reject(Some(other))),
        _ => None,
    }
}

// The statement Vote, of a locator's words, a kind and the words of the locator that a Reject may name.
pub fn encode_vote(
    out: &mut [u8],
    at: usize,
    locator: &[u64; 7],
    kind: u64,
    other: &[u64; 7],
) -> Result<usize, EncodeError>
    ensures { Encodes out.old at
        (laid_out (vote_with (locator_of locator.now))
        (vote_given kind (locator_of other.now))) result out.new }
{
    let Some(vote) = vote_of(kind, locator_of(other)) else {
        return Err(EncodeError::Malformed);
    };
    encode::encode_vote(out, at, locator_of(locator), vote)
}

// A block but for its lists, in eleven words beside its signature.
#[tactic(auto, unfolding(crate::specs::Given::block_fields_of, node_store::specs::Stores::flagged))]
pub fn block_fields(words: &[u64; 11], signature: &[u8; 64]) -> BlockFields
    ensures { result ≡ block_fields_of words.now signature.now }
{
    BlockFields {
        reference: node_store::reference_at(words, 0),
        include_count: words[6],
        statement_count: words[7],
        meta_creation_time_ns: TimestampNs {
            low: words[8],
            high: words[9],
        },
        epoch_marker: words[10] != 0,
        signature: SignatureBytes(*signature),
    }
}
