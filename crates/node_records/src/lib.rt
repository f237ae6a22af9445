// What each call of the crate node that decodes a record answers, put into the words that its caller lends (a
// decoded block or reference: node_log).
// Kept: a number as the answer of each call, as the interface for C has it.
#![tactic(auto)]

ghost use Rattle.std.specs.Prelude.{◌≡◌};
ghost use Rattle.node_records.specs.Answers.{locator_words, vote_words, range_words, DecodesStatement, DecodesPayload, DecodesOwnBlock, DecodesCommit, DecodesCommitData};

use bincode::Cursor;
use commits::{Commit, CommitData, OwnBlockData};
use node_words::put_words;
use statements::BaseStatement;
use types::{TransactionLocator, TransactionLocatorRange};
use votes::Vote;

#[tactic(auto, unfolding(crate::specs::Answers::locator_words, index::specs::Keys::key_words, index::specs::Keys::digest_words))]
fn locator_words(locator: TransactionLocator) -> [u64; 7]
    ensures { result ≡ locator_words locator }
{
    let [a, b, c, d, e, f] = index::key_of(locator.block);
    [a, b, c, d, e, f, locator.offset]
}

// The kind, and the locator that a reject may name.
#[tactic(auto, unfolding(crate::specs::Answers::vote_words, crate::specs::Answers::locator_words, index::specs::Keys::key_words, index::specs::Keys::digest_words))]
fn vote_words(vote: Vote) -> [u64; 8]
    ensures { result ≡ vote_words vote }
{
    match vote {
        Vote::Accept => [0; 8],
        Vote::Reject(None) => [1, 0, 0, 0, 0, 0, 0, 0],
        Vote::Reject(Some(other)) => {
            let [a, b, c, d, e, f, offset] = locator_words(other);
            [2, a, b, c, d, e, f, offset]
        }
    }
}

#[tactic(auto, unfolding(crate::specs::Answers::range_words, index::specs::Keys::key_words, index::specs::Keys::digest_words))]
fn range_words(range: TransactionLocatorRange) -> [u64; 8]
    ensures { result ≡ range_words range }
{
    let [a, b, c, d, e, f] = index::key_of(range.block);
    [
        a,
        b,
        c,
        d,
        e,
        f,
        range.offset_start_inclusive,
        range.offset_end_exclusive,
    ]
}

// Of a decoded statement: what its kind has, among zeros.
#[tactic(auto, unfolding(crate::specs::Answers::statement_words, crate::specs::Answers::kind_words, crate::specs::Answers::locator_words, crate::specs::Answers::range_words, text::specs::Clipped::clipped, index::specs::Keys::key_words, index::specs::Keys::digest_words))]
pub fn put_statement(answer: &mut [u64; 28], decoded: Option<(BaseStatement, usize)>) -> u8
    ensures { DecodesStatement decoded result answer.new }
{
    *answer = [0; 28];
    let Some((statement, end)) = decoded else {
        return 0;
    };
    answer[0] = 1;
    answer[27] = end as u64;
    match statement {
        BaseStatement::Share(bytes) => put_words(answer, 2, &[bytes.at as u64, bytes.left as u64]),
        BaseStatement::Vote(locator, vote) => {
            answer[1] = 1;
            put_words(answer, 4, &locator_words(locator));
            put_words(answer, 11, &vote_words(vote));
        }
        BaseStatement::VoteRange(range) => {
            answer[1] = 2;
            put_words(answer, 19, &range_words(range));
        }
    }
    0
}

// Of a decoded payload.
#[tactic(auto, unfolding(crate::specs::Answers::payload_words))]
pub fn put_payload(answer: &mut [u64; 4], decoded: Option<(Cursor, usize)>) -> u8
    ensures { DecodesPayload decoded result answer.new }
{
    *answer = match decoded {
        Some((statements, end)) => [1, statements.at as u64, statements.left as u64, end as u64],
        None => [0; 4],
    };
    0
}

// Of a decoded own block: the words of its block, and the next entry.
#[tactic(auto, unfolding(crate::specs::Answers::own_block_words, node_log::specs::Answers::block_words, text::specs::Clipped::clipped, index::specs::Keys::key_words, index::specs::Keys::digest_words))]
pub fn put_own_block(answer: &mut [u64; 16], decoded: Option<(OwnBlockData, usize)>) -> u8
    ensures { DecodesOwnBlock decoded result answer.new }
{
    let Some((own_block, end)) = decoded else {
        *answer = [0; 16];
        return 0;
    };
    let mut words = [0u64; 15];
    node_log::put_block(&mut words, Some((own_block.block, end)));
    put_words(answer, 0, &words);
    put_words(answer, 15, &[own_block.next_entry.0]);
    0
}

// Of a decoded commit.
#[tactic(auto, unfolding(crate::specs::Answers::commit_words))]
pub fn put_commit(answer: &mut [u64; 6], decoded: Option<(Commit, usize)>) -> u8
    ensures { DecodesCommit decoded result answer.new }
{
    let Some((Commit { commits, state }, end)) = decoded else {
        *answer = [0; 6];
        return 0;
    };
    *answer = [
        1,
        commits.at as u64,
        commits.left as u64,
        state.at as u64,
        state.left as u64,
        end as u64,
    ];
    0
}

// Of an element of a commit's list.
#[tactic(auto, unfolding(crate::specs::Answers::commit_data_words, index::specs::Keys::key_words, index::specs::Keys::digest_words))]
pub fn put_commit_data(answer: &mut [u64; 10], decoded: Option<(CommitData, usize)>) -> u8
    ensures { DecodesCommitData decoded result answer.new }
{
    let Some((CommitData { leader, sub_dag }, end)) = decoded else {
        *answer = [0; 10];
        return 0;
    };
    let [a, b, c, d, e, f] = index::key_of(leader);
    *answer = [
        1,
        a,
        b,
        c,
        d,
        e,
        f,
        sub_dag.at as u64,
        sub_dag.left as u64,
        end as u64,
    ];
    0
}
