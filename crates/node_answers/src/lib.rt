// What each call of the crate node on a block store answers, put into the words that its caller lends: the
// answer of a call of another crate, as words and as a number.
#![tactic(auto)]

ghost use Rattle.node_answers.specs.Answers.{Tells, Cleans, Logs, Looks, Shows, Links};

use insert::Inserted;
use linked::LinkedAnswer;
use lookup::Looked;
use node_store::keep_store;
use node_words::span_words;
use refusal::{Refusal, number_of};
use transaction::FoundTransaction;

// Of a question.
#[tactic(auto, unfolding(crate::specs::Answers::told_words, node_words::specs::Words::flag))]
pub fn put_told(answer: &mut [u64; 2], told: Result<bool, Refusal>) -> u8
    ensures { Tells told result answer.new }
{
    *answer = match told {
        Ok(yes) => [0, u64::from(yes)],
        Err(refusal) => [u64::from(refusal.number()), 0],
    };
    number_of(&told)
}

// Of a cleanup.
#[tactic(auto, unfolding(crate::specs::Answers::cleaned_words))]
pub fn put_cleaned(answer: &mut [u64; 2], cleaned: Result<u64, Refusal>) -> u8
    ensures { Cleans cleaned result answer.new }
{
    *answer = match cleaned {
        Ok(unloaded) => [0, unloaded],
        Err(refusal) => [u64::from(refusal.number()), 0],
    };
    number_of(&cleaned)
}

// Of an insert, with the store; `used` is the log's length before it.
#[tactic(auto, unfolding(crate::specs::Answers::inserted_words, crate::specs::Answers::kept, node_store::specs::Stores::store_after, refusal::specs::Refusals::number_of))]
pub fn put_inserted(
    store: &mut [u64; 140],
    answer: &mut [u64; 3],
    used: u64,
    inserted: Result<Inserted, Refusal>,
) -> u8
    ensures { Logs used inserted result store.old store.new answer.new }
{
    match inserted {
        Ok(found) => {
            keep_store(store, Some(found.store));
            *answer = [0, found.position.0, found.writer.used];
            0
        }
        Err(refusal) => {
            let number = refusal.number();
            *answer = [u64::from(number), 0, used];
            number
        }
    }
}

// Of a lookup, with the store.
#[tactic(auto, unfolding(crate::specs::Answers::looked_words, crate::specs::Answers::kept, node_store::specs::Stores::store_after, refusal::specs::Refusals::number_of))]
pub fn put_looked(
    store: &mut [u64; 140],
    answer: &mut [u64; 2],
    looked: Result<Looked, Refusal>,
) -> u8
    ensures { Looks looked result store.old store.new answer.new }
{
    match looked {
        Ok(found) => {
            keep_store(store, Some(found.store));
            *answer = [0, found.rows as u64];
            0
        }
        Err(refusal) => {
            let number = refusal.number();
            *answer = [u64::from(number), 0];
            number
        }
    }
}

// Of a transaction's lookup, with the store.
#[tactic(auto, unfolding(crate::specs::Answers::transaction_words, crate::specs::Answers::kept, node_store::specs::Stores::store_after, refusal::specs::Refusals::number_of, node_words::specs::Words::span_words))]
pub fn put_transaction(
    store: &mut [u64; 140],
    answer: &mut [u64; 4],
    transaction: Result<FoundTransaction, Refusal>,
) -> u8
    ensures { Shows transaction result store.old store.new answer.new }
{
    match transaction {
        Ok(found) => {
            keep_store(store, Some(found.store));
            let [there, at, len] = span_words(found.share);
            *answer = [0, there, at, len];
            0
        }
        Err(refusal) => {
            let number = refusal.number();
            *answer = [u64::from(number), 0, 0, 0];
            number
        }
    }
}

// Of the question for an ancestor, with the store.
#[tactic(auto, unfolding(crate::specs::Answers::linked_words, crate::specs::Answers::kept, node_store::specs::Stores::store_after, refusal::specs::Refusals::number_of, node_words::specs::Words::flag))]
pub fn put_linked(
    store: &mut [u64; 140],
    answer: &mut [u64; 2],
    linked: Result<LinkedAnswer, Refusal>,
) -> u8
    ensures { Links linked result store.old store.new answer.new }
{
    match linked {
        Ok(found) => {
            keep_store(store, Some(found.store));
            *answer = [0, u64::from(found.linked)];
            0
        }
        Err(refusal) => {
            let number = refusal.number();
            *answer = [u64::from(number), 0];
            number
        }
    }
}
