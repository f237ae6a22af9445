// Words that a caller of the crate node lends for an answer.
#![tactic(auto)]

ghost use Rattle.std.specs.Prelude.{◌≡◌, ◌≤◌, length};
ghost use Rattle.text.specs.Clipped.{clipped};
ghost use Rattle.node_words.specs.Words.{stop_word, walked_words, number_at, span_words, found_words, head_words, summary_words, recovered_words};

use bincode::Cursor;
use index::StoreSummary;
use recovered::Recovered;
use types::BlockReference;
use wal::{RefusedAt, Stop, Walked};

// Puts words from index at on, as far as out reaches.
pub fn put_words(out: &mut [u64], at: usize, words: &[u64])
    ensures { out.new ≡ clipped out.old at words.now }
{
    if out.len() <= at {
        return;
    }
    let n = words.len().min(out.len() - at);
    out[at..at + n].copy_from_slice(&words[..n]);
}

// Kept: a From<Stop> for u64 could stand in the crate wal alone, and these codes are the C interface's.
#[tactic(auto, unfolding(crate::specs::Words::stop_word))]
pub fn stop_word(stop: Stop) -> u64
    ensures { result ≡ stop_word stop }
{
    match stop {
        Stop::End => 0,
        Stop::Zeros => 1,
        Stop::Torn => 2,
    }
}

// A walk's answer: the number, the start of the entry concerned, the stop code, E and the unread count.
#[tactic(auto, unfolding(crate::specs::Words::walked_words))]
pub fn walk_words(walked: Result<Walked, RefusedAt>) -> [u64; 5]
    ensures { result ≡ walked_words walked }
{
    match walked {
        Ok(walk) => [0, 0, stop_word(walk.stop), walk.end.0, walk.unread],
        Err(at) => [u64::from(at.refusal.number()), at.start.0, 3, 0, 0],
    }
}

// The number that a walk answers: 0 where it is not refused.
#[tactic(auto, unfolding(crate::specs::Words::number_at))]
pub fn number_at<T>(answer: &Result<T, RefusedAt>) -> u8
    ensures { result ≡ number_at answer.now }
{
    match answer {
        Ok(_) => 0,
        Err(at) => at.refusal.number(),
    }
}

// Bytes that may be missing: whether they are there, where they begin, and how many they are.
#[tactic(auto, unfolding(crate::specs::Words::span_words))]
pub fn span_words(span: Option<Cursor>) -> [u64; 3]
    ensures { result ≡ span_words span }
{
    match span {
        None => [0; 3],
        Some(bytes) => [1, bytes.at as u64, bytes.left as u64],
    }
}

fn put_span(out: &mut [u64], at: usize, span: Option<Cursor>)
    ensures { out.new ≡ clipped out.old at (span_words span) }
{
    let words = span_words(span);
    put_words(out, at, &words);
}

// A reference that may be missing: whether it is there, and its row's key.
#[tactic(auto, unfolding(crate::specs::Words::found_words, index::specs::Keys::key_words, index::specs::Keys::digest_words))]
fn found_words(reference: Option<BlockReference>) -> [u64; 7]
    ensures { result ≡ found_words reference }
{
    let Some(reference) = reference else {
        return [0; 7];
    };
    let [a, b, c, d, e, f] = index::key_of(reference);
    [1, a, b, c, d, e, f]
}

fn put_reference(out: &mut [u64], at: usize, reference: Option<BlockReference>)
    ensures { out.new ≡ clipped out.old at (found_words reference) }
{
    let words = found_words(reference);
    put_words(out, at, &words);
}

// The walk's answer, and how many rows each table has.
fn put_head(out: &mut [u64], r: Recovered)
    ensures { out.new ≡ clipped out.old 0 (head_words r) }
{
    let walked = r.walked;
    let words = walk_words(walked);
    put_words(out, 0, &words);
    let counts = [
        r.replay.pending as u64,
        r.replay.blocks.unprocessed as u64,
        r.replay.committed as u64,
        r.replay.blocks.index as u64,
    ];
    put_words(out, 5, &counts);
}

// The own block, the highest round and the last seen rounds, from index at on; of the last, that they are 128.
pub fn put_summary(out: &mut [u64], at: usize, s: StoreSummary)
    requires { at ≤ 25 }
    ensures { (out.new ≡ clipped out.old at (summary_words s))
        × (length s.last_seen_by_authority ≡ 128) }
{
    put_reference(out, at, s.last_own_block);
    let highest = [s.highest_round];
    put_words(out, at + 7, &highest);
    let rounds = s.last_seen_by_authority;
    put_words(out, at + 8, &rounds);
}

// A recovery's answer.
pub fn put_recovered(out: &mut [u64; 161], r: Recovered)
    ensures { out.new ≡ recovered_words r }
{
    put_head(out, r);
    let s = r.replay;
    let last_own_block = s.last_own_block;
    put_span(out, 9, last_own_block);
    let state = s.state;
    put_span(out, 12, state);
    let committed_state = s.committed_state;
    put_span(out, 15, committed_state);
    put_reference(out, 18, s.last_committed_leader);
    put_summary(out, 25, s.blocks.summary);
}
