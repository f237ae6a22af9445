// The words of a store, which a caller of the crate node keeps between calls, and the store and the
// reference that words stand for.
// Kept: a number as the answer of each call, as the interface for C has it.
#![tactic(auto)]

ghost use Rattle.std.specs.Prelude.{◌≡◌, ◌+◌, ◌≤◌, get_or};
ghost use Rattle.laws.specs.Bytes.{written};
ghost use Rattle.text.specs.Clipped.{clipped};
ghost use Rattle.node_store.specs.Stores.{be, viewed, words_at, digest_at, reference_at, summary_in, store_of, store_words, reference_kept, store_after, recovery_number, resumed_used, opened_number, opened_words, opened_after};

use crypto::BlockDigest;
use index::StoreSummary;
use refusal::number_of;
use store::{BlockStore, StoreView};
use types::BlockReference;
use wal_position::Log;

// Word i of those from index at on, or 0 where there is none.
fn word_at(words: &[u64], at: usize, i: usize) -> u64
    ensures { result ≡ get_or words.now (at + i) 0 }
{
    words
        .get(at..)
        .and_then(|rest| rest.get(i))
        .copied()
        .unwrap_or(0)
}

// The 128 words from index at on.
fn rounds_at(words: &[u64], at: usize) -> [u64; 128]
    ensures { result ≡ words_at words.now at 128 }
{
    let mut rounds = [0u64; 128];
    for (i, round) in rounds.iter_mut().enumerate() {
        *round = word_at(words, at, i);
    }
    rounds
}

// A digest with the bytes of a word from index at on.
fn put_be(digest: [u8; 32], at: usize, x: u64) -> [u8; 32]
    requires { at + 8 ≤ 32 }
    ensures { result ≡ written digest at (be 8 x) }
{
    let mut d = digest;
    fields::put_bytes(&mut d, at, &x.to_be_bytes());
    d
}

// The digest in words 2 to 5 of those from index at on.
fn digest_at(words: &[u64], at: usize) -> BlockDigest
    ensures { result.0 ≡ digest_at words.now at }
{
    let a = put_be([0u8; 32], 0, word_at(words, at, 2));
    let b = put_be(a, 8, word_at(words, at, 3));
    let c = put_be(b, 16, word_at(words, at, 4));
    BlockDigest(put_be(c, 24, word_at(words, at, 5)))
}

// The reference in the six words from index at on.
pub fn reference_at(words: &[u64], at: usize) -> BlockReference
    ensures { result ≡ reference_at words.now at }
{
    let digest = digest_at(words, at);
    BlockReference {
        authority: word_at(words, at, 1),
        round: word_at(words, at, 0),
        digest,
    }
}

// The summary in the words of a store.
fn summary_of(words: &[u64]) -> StoreSummary
    ensures { result ≡ summary_in words.now }
{
    let is_there = word_at(words, 4, 0) != 0;
    let last_own_block = is_there.then_some(reference_at(words, 5));
    StoreSummary {
        highest_round: word_at(words, 11, 0),
        last_seen_by_authority: rounds_at(words, 12),
        last_own_block,
    }
}

// The store in a store's words.
pub fn store_of(words: &[u64; 140]) -> BlockStore
    ensures { result ≡ store_of words.now }
{
    let summary = summary_of(words);
    BlockStore {
        committee_size: word_at(words, 0, 0),
        authority: word_at(words, 1, 0),
        rows: word_at(words, 2, 0) as usize,
        loads: word_at(words, 3, 0),
        summary,
    }
}

// The store in a store's words, with the log and the index rows that a call is lent beside them.
pub fn view_of<'a>(
    k: u64,
    image: &'a [u8],
    used: u64,
    words: &[u64; 140],
    index: &'a [u64],
) -> StoreView<'a>
    ensures { result ≡ viewed k image.entry used words.now index.entry }
{
    StoreView {
        log: Log {
            exponent: k,
            image,
            used,
        },
        store: store_of(words),
        index,
    }
}

fn put_store(out: &mut [u64], s: BlockStore)
    ensures { out.new ≡ clipped out.old 0 (store_words s) }
{
    let words = [s.committee_size, s.authority, s.rows as u64, s.loads];
    node_words::put_words(out, 0, &words);
    node_words::put_summary(out, 4, s.summary);
}

// The six words of the reference in a store's words.
#[tactic(auto, unfolding(crate::specs::Stores::words_at))]
fn lent_reference(words: &[u64]) -> [u64; 6]
    ensures { result ≡ words_at words.now 5 6 }
{
    [
        word_at(words, 5, 0),
        word_at(words, 6, 0),
        word_at(words, 7, 0),
        word_at(words, 8, 0),
        word_at(words, 9, 0),
        word_at(words, 10, 0),
    ]
}

// Puts back the words of the reference that a call was lent, where the store that it leaves has no own
// block: they say nothing there, and are the caller's.
#[tactic(auto, unfolding(crate::specs::Stores::reference_kept))]
fn keep_reference(out: &mut [u64], lent: &[u64; 6], last_own_block: Option<BlockReference>)
    ensures { out.new ≡ reference_kept lent.now last_own_block out.old }
{
    match last_own_block {
        None => node_words::put_words(out, 5, lent),
        Some(_) => {}
    }
}

// Puts the store that a call leaves; a refused one leaves none, and the words as they are.
#[tactic(auto, unfolding(crate::specs::Stores::store_after))]
pub fn keep_store(out: &mut [u64; 140], kept: Option<BlockStore>)
    ensures { out.new ≡ store_after out.old kept }
{
    if let Some(store) = kept {
        let lent = lent_reference(out);
        put_store(out, store);
        keep_reference(out, &lent, store.summary.last_own_block);
    }
}

// The number in the words of a recovery's answer. A word that is no number of a refusal comes from no
// recovery, and is refused with 18.
fn recovery_number(recovered: &[u64; 161]) -> u8
    ensures { result ≡ recovery_number recovered.now }
{
    let number = recovered[0];
    if 19 < number {
        return 18;
    }
    number as u8
}

// The recovery's number, then the committee's: 0, or the refusal's number.
fn open_number(size: u64, own: u64, recovered: &[u64; 161]) -> u8
    ensures { result ≡ opened_number size own recovered.now }
{
    let refusal = recovery_number(recovered);
    if refusal != 0 {
        return refusal;
    }
    number_of(&committee::check_committee(size, own))
}

// Stores E, where the writer goes on; a refused recovery leaves `used` as it is.
pub fn resume(recovered: &[u64; 161], used: &mut u64) -> u8
    ensures { (result ≡ recovery_number recovered.now)
        × (used.new ≡ resumed_used recovered.now used.old) }
{
    let refusal = recovery_number(recovered);
    if refusal != 0 {
        return refusal;
    }
    *used = recovered[3];
    0
}

// Puts the store that a recovery leaves, whose answer's words are `recovered`; a refusal leaves the words
// as they are.
pub fn open_store(out: &mut [u64; 140], size: u64, own: u64, recovered: &[u64; 161]) -> u8
    ensures { (result ≡ opened_number size own recovered.now)
        × (out.new ≡ opened_after size own recovered.now out.old) }
{
    let refusal = open_number(size, own, recovered);
    if refusal != 0 {
        return refusal;
    }
    put_opened(out, size, own, recovered);
    0
}

fn put_opened(out: &mut [u64], size: u64, own: u64, recovered: &[u64])
    ensures { out.new ≡ clipped out.old 0 (opened_words size own recovered.now) }
{
    let words = [
        size,
        own,
        word_at(recovered, 8, 0),
        0,
        word_at(recovered, 25, 0),
        word_at(recovered, 25, 1),
        word_at(recovered, 25, 2),
        word_at(recovered, 25, 3),
        word_at(recovered, 25, 4),
        word_at(recovered, 25, 5),
        word_at(recovered, 25, 6),
        word_at(recovered, 25, 7),
    ];
    node_words::put_words(out, 0, &words);
    let rounds = rounds_at(recovered, 33);
    node_words::put_words(out, 12, &rounds);
}
