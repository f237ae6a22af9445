// What each call of the crate node on a log answers, and each that decodes a record, put into the words that its
// caller lends: the answer of a call of another crate, as words and as a number.
// Kept: a number as the answer of each call, as the interface for C has it.
#![tactic(auto)]

ghost use Rattle.std.specs.Prelude.{◌≡◌};
ghost use Rattle.node_log.specs.Answers.{append_words, entry_words, Reads, Steps, DecodesBlock, DecodesReference};

use blocks::StatementBlock;
use node_words::{number_at, stop_word};
use refusal::{Refusal, number_of};
use types::BlockReference;
use wal::{RefusedAt, WalEntry, WalPosition, WalWriter, WalkStep};

#[tactic(auto, unfolding(crate::specs::Answers::append_words))]
pub fn append_words(used: u64, found: Result<(WalPosition, WalWriter), Refusal>) -> [u64; 3]
    ensures { result ≡ append_words used found }
{
    match found {
        Ok((position, writer)) => [0, position.0, writer.used],
        Err(refusal) => [u64::from(refusal.number()), 0, used],
    }
}

// An entry's position, tag, length and checksum.
#[tactic(auto, unfolding(crate::specs::Answers::entry_words))]
fn entry_words(e: WalEntry) -> [u64; 4]
    ensures { result ≡ entry_words e }
{
    [e.position.0, u64::from(e.tag), e.len, u64::from(e.checksum)]
}

// Of a read.
#[tactic(auto, unfolding(crate::specs::Answers::read_words, crate::specs::Answers::entry_words))]
pub fn put_found(answer: &mut [u64; 5], found: Result<WalEntry, Refusal>) -> u8
    ensures { Reads found result answer.new }
{
    *answer = match found {
        Ok(entry) => {
            let [position, tag, len, checksum] = entry_words(entry);
            [0, position, tag, len, checksum]
        }
        Err(refusal) => [u64::from(refusal.number()), 0, 0, 0, 0],
    };
    number_of(&found)
}

// Of a walk's step.
#[tactic(auto, using(node_words::proofs::Words::stop_small), unfolding(crate::specs::Answers::step_words, crate::specs::Answers::entry_words))]
pub fn put_step(answer: &mut [u64; 6], step: Result<WalkStep, RefusedAt>) -> u8
    ensures { Steps step result answer.new }
{
    *answer = match step {
        Ok(found) => match found {
            WalkStep::Entry(entry) => {
                let [position, tag, len, checksum] = entry_words(entry);
                [0, 0, position, tag, len, checksum]
            }
            WalkStep::Stopped(stop) => [0, stop_word(stop) + 1, 0, 0, 0, 0],
        },
        Err(at) => [u64::from(at.refusal.number()), 4, at.start.0, 0, 0, 0],
    };
    number_at(&step)
}

// Of a decoded block.
#[tactic(auto, unfolding(crate::specs::Answers::block_words, node_words::specs::Words::flag, index::specs::Keys::key_words, index::specs::Keys::digest_words))]
pub fn put_block(answer: &mut [u64; 15], decoded: Option<(StatementBlock, usize)>) -> u8
    ensures { DecodesBlock decoded result answer.new }
{
    let Some((block, end)) = decoded else {
        *answer = [0; 15];
        return 0;
    };
    let [a, b, c, d, e, f] = index::key_of(block.reference);
    *answer = [
        1,
        a,
        b,
        c,
        d,
        e,
        f,
        block.includes.at as u64,
        block.includes.left as u64,
        block.statements.at as u64,
        block.statements.left as u64,
        block.meta_creation_time_ns.low,
        block.meta_creation_time_ns.high,
        u64::from(block.epoch_marker),
        end as u64,
    ];
    0
}

// Of a decoded reference.
#[tactic(auto, unfolding(crate::specs::Answers::reference_words, index::specs::Keys::key_words, index::specs::Keys::digest_words))]
pub fn put_decoded(answer: &mut [u64; 8], decoded: Option<(BlockReference, usize)>) -> u8
    ensures { DecodesReference decoded result answer.new }
{
    let Some((reference, end)) = decoded else {
        *answer = [0; 8];
        return 0;
    };
    let [a, b, c, d, e, f] = index::key_of(reference);
    *answer = [1, a, b, c, d, e, f, end as u64];
    0
}
