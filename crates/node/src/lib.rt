// The node's calls for programs in C or Rust (include/kadzhomir.h). A slice is passed as a pointer and a number
// of elements, an array of fixed length as a pointer, and what a call may write overlaps nothing else; no
// compiler holds a caller in C to that. Fixed answers, stores and references are arrays, so that no contract has
// to say what a short one gets. A store is words that the caller keeps. Each call answers the refusal's number,
// 0 where there is none; one that decodes or encodes a record refuses nothing, and its words say what it found.
#![tactic(auto)]

ghost use Rattle.std.specs.Prelude.{◌≡◌, ◌+◌, ◌*◌, ◌/◌, length};
ghost use Rattle.std.proofs.Math.Option.{some};
ghost use Rattle.laws.specs.Bytes.{zeros};
ghost use Rattle.laws.specs.Parse.{many};
ghost use Rattle.checksum.specs.Crc32.{crc32};
ghost use Rattle.bincode.specs.Answers.{decoded_as, decoded, list_answer};
ghost use Rattle.types.specs.Records.{reference as parsed_reference, reference_bytes, statement, statement_bytes, share, vote_range, block as parsed_block, block_bytes, payload, payload_bytes};
ghost use Rattle.statements.specs.Answers.{statement_of};
ghost use Rattle.blocks.specs.Answers.{statement_block};
ghost use Rattle.commits.specs.Records.{own_block, commit_data, commit};
ghost use Rattle.commits.specs.Answers.{own_block_of, commit_of, commits_of};
ghost use Rattle.encode_blocks.specs.Whole.{whole, laid_out};
ghost use Rattle.encode_blocks.specs.Blocks.{block_from};
ghost use Rattle.encode_commits.specs.Commits.{own_block_with, commit_data_with, commit_with};
ghost use Rattle.wal_reader.specs.Answers.{read_answer};
ghost use Rattle.wal.specs.Answers.{walk_step_answer, walk_answer};
ghost use Rattle.replay_log.specs.Answers.{tables};
ghost use Rattle.exists.specs.Exists.{block_exists, block_exists_at, all_blocks_exist_at};
ghost use Rattle.cleanup.specs.Cleanup.{cleanup_answer, cleanup_index};
ghost use Rattle.query.specs.Query.{call_of};
ghost use Rattle.lookup.specs.Lookups.{get_block, get_blocks_by_round, get_blocks_at_authority_round};
ghost use Rattle.lookup_after.specs.After.{get_own_blocks, get_others_blocks};
ghost use Rattle.transaction.specs.Transaction.{get_transaction};
ghost use Rattle.linked.specs.Linked.{linked_answer};
ghost use Rattle.node_store.specs.Stores.{reference_of, store_of, recovery_number, resumed_used, opened_number, opened_after};
ghost use Rattle.node_log.specs.Answers.{Reads, Steps, DecodesBlock, DecodesReference};
ghost use Rattle.node_records.specs.Answers.{DecodesStatement, DecodesPayload, DecodesOwnBlock, DecodesCommit, DecodesCommitData};
ghost use Rattle.node_given.specs.Given.{locator_of, range_of, vote_given, vote_with, block_fields_of, EncodesWords};
ghost use Rattle.node_answers.specs.Answers.{Tells, Cleans, Shows, Links};
ghost use Rattle.node.specs.Calls.{GivesWalk, GivesRecovery, GivesPage, GivesAppend, GivesInsert, GivesLookup};

use bincode::Decode;
use blocks::StatementBlock;
use commits::{Commit, CommitData, OwnBlockData};
use node_words::number_at;
use refusal::number_of;
use statements::BaseStatement;
use types::TransactionLocator;
use wal::{Log, WalPosition, WalWriter};

// 0.2.1: major * 65536 + minor * 256 + patch.
pub const VERSION: u32 = 0x0000_0201;

// Appends an entry to a log of `used` bytes, and answers the refusal's number, 0 where there is none.
#[unsafe(no_mangle)]
pub extern "C" fn kadzhomir_append(
    k: u64,
    used: u64,
    image: &mut [u8],
    tag: u32,
    payload: &[u8],
    answer: &mut [u64; 3],
) -> u8
    ensures { GivesAppend (record { exponent = k; used = used }) tag payload.now
        result answer.new image.old image.new }
{
    let writer = WalWriter { exponent: k, used };
    let found = wal::append(writer, image, tag, payload);
    *answer = node_log::append_words(used, found);
    number_of(&found)
}

// Reads the entry at a position.
#[unsafe(no_mangle)]
pub extern "C" fn kadzhomir_read(
    k: u64,
    image: &[u8],
    used: u64,
    position: u64,
    answer: &mut [u64; 5],
) -> u8
    ensures { Reads (read_answer k image.now used position) result answer.new }
{
    let log = Log {
        exponent: k,
        image,
        used,
    };
    let found = wal::read(&log, WalPosition(position));
    node_log::put_found(answer, found)
}

// One step of a walk that has listed the entries up to e.
#[unsafe(no_mangle)]
pub extern "C" fn kadzhomir_walk_step(
    k: u64,
    image: &[u8],
    used: u64,
    e: u64,
    answer: &mut [u64; 6],
) -> u8
    ensures { Steps (walk_step_answer k image.now used e) result answer.new }
{
    let log = Log {
        exponent: k,
        image,
        used,
    };
    let step = wal::walk_step(&log, WalPosition(e));
    node_log::put_step(answer, step)
}

// Walks a log of `used` bytes, and answers the refusal's number, 0 where there is none.
#[unsafe(no_mangle)]
pub extern "C" fn kadzhomir_walk(k: u64, image: &[u8], used: u64, answer: &mut [u64; 5]) -> u8
    ensures { GivesWalk (walk_answer k image.now used) result answer.new }
{
    let log = Log {
        exponent: k,
        image,
        used,
    };
    let found = wal::walk(&log);
    *answer = node_words::walk_words(found);
    number_at(&found)
}

// Recovers what a log holds into the tables, and answers the refusal's number, 0 where there is none.
#[unsafe(no_mangle)]
pub extern "C" fn kadzhomir_recover(
    k: u64,
    image: &[u8],
    used: u64,
    size: u64,
    own: u64,
    pending: &mut [u64],
    unprocessed: &mut [u64],
    committed: &mut [u64],
    index: &mut [u64],
    answer: &mut [u64; 161],
) -> u8
    ensures { GivesRecovery k image.now used size own
        (tables pending.old unprocessed.old committed.old index.old)
        result answer.new
        (tables pending.new unprocessed.new committed.new index.new) }
{
    let log = Log {
        exponent: k,
        image,
        used,
    };
    let r = recovery::recover(&log, size, own, pending, unprocessed, committed, index);
    node_words::put_recovered(answer, r);
    number_at(&r.walked)
}

// Recovers what a log holds into the tables, as `kadzhomir_recover` does, and fills `out` with the recovery page:
// what does not fit is left out, and the length of the whole text is stored. Answers the refusal's number, 0 where
// there is none.
#[unsafe(no_mangle)]
pub extern "C" fn kadzhomir_recovery_page(
    k: u64,
    image: &[u8],
    used: u64,
    size: u64,
    own: u64,
    pending: &mut [u64],
    unprocessed: &mut [u64],
    committed: &mut [u64],
    index: &mut [u64],
    out: &mut [u8],
    length: &mut u64,
) -> u8
    ensures { GivesPage k image.now used size own
        (tables pending.old unprocessed.old committed.old index.old)
        out.old result length.new
        (tables pending.new unprocessed.new committed.new index.new)
        out.new }
{
    let log = Log {
        exponent: k,
        image,
        used,
    };
    let r = page::recovery_page(&log, size, own, pending, unprocessed, committed, index, out);
    *length = r.length as u64;
    number_of(&r.recovered)
}

// Puts the store that a recovery for this committee and own authority leaves: its answer is `recovered`.
// Refused with the recovery's number, then with 18 for the committee; a refusal leaves the store's words as they
// are.
#[unsafe(no_mangle)]
pub extern "C" fn kadzhomir_open(
    size: u64,
    own: u64,
    recovered: &[u64; 161],
    store: &mut [u64; 140],
) -> u8
    ensures { (result ≡ opened_number size own recovered.now)
        × (store.new ≡ opened_after size own recovered.now store.old) }
{
    node_store::open_store(store, size, own, recovered)
}

// The writer to go on with after a recovery, whose answer is `recovered`: E becomes `used`. A refused recovery
// leaves it as it is.
#[unsafe(no_mangle)]
pub extern "C" fn kadzhomir_writer(recovered: &[u64; 161], used: &mut u64) -> u8
    ensures { (result ≡ recovery_number recovered.now)
        × (used.new ≡ resumed_used recovered.now used.old) }
{
    node_store::resume(recovered, used)
}

// Logs a block's bytes with tag 1, and indexes it.
#[unsafe(no_mangle)]
pub extern "C" fn kadzhomir_insert_block(
    k: u64,
    used: u64,
    image: &mut [u8],
    store: &mut [u64; 140],
    index: &mut [u64],
    block: &[u8],
    answer: &mut [u64; 3],
) -> u8
    ensures { GivesInsert (record { exponent = k; used = used }) 1 block.now
        image.old index.old store.old
        result store.new answer.new image.new index.new }
{
    let s = node_store::store_of(store);
    let writer = WalWriter { exponent: k, used };
    let r = insert::insert_block(writer, image, s, index, block);
    node_answers::put_inserted(store, answer, used, r)
}

// Logs an own block, its next entry and its bytes, with tag 3, and indexes it.
#[unsafe(no_mangle)]
pub extern "C" fn kadzhomir_insert_own_block(
    k: u64,
    used: u64,
    image: &mut [u8],
    store: &mut [u64; 140],
    index: &mut [u64],
    own_block: &[u8],
    answer: &mut [u64; 3],
) -> u8
    ensures { GivesInsert (record { exponent = k; used = used }) 3 own_block.now
        image.old index.old store.old
        result store.new answer.new image.new index.new }
{
    let s = node_store::store_of(store);
    let writer = WalWriter { exponent: k, used };
    let r = insert::insert_own_block(writer, image, s, index, own_block);
    node_answers::put_inserted(store, answer, used, r)
}

// Unloads rounds up to t.
#[unsafe(no_mangle)]
pub extern "C" fn kadzhomir_cleanup(
    k: u64,
    image: &[u8],
    used: u64,
    store: &[u64; 140],
    index: &mut [u64],
    t: u64,
    answer: &mut [u64; 2],
) -> u8
    ensures cleans { Cleans
        (cleanup_answer k image.now used (store_of store.now) index.old t)
        result answer.new }
    ensures index_after { index.new
        ≡ cleanup_index k image.now used (store_of store.now) index.old t }
{
    let s = node_store::store_of(store);
    let log = Log {
        exponent: k,
        image,
        used,
    };
    let cleaned = cleanup::cleanup(&log, s, index, t);
    node_answers::put_cleaned(answer, cleaned)
}

// Whether a reference is indexed.
#[unsafe(no_mangle)]
pub extern "C" fn kadzhomir_block_exists(
    k: u64,
    image: &[u8],
    used: u64,
    store: &[u64; 140],
    index: &[u64],
    reference: &[u64; 6],
    answer: &mut [u64; 2],
) -> u8
    ensures { Tells
        (block_exists k image.now used (store_of store.now) index.now
        (reference_of reference.now))
        result answer.new }
{
    let view = node_store::view_of(k, image, used, store, index);
    let x = node_store::reference_at(reference, 0);
    let told = exists::block_exists(&view, x);
    node_answers::put_told(answer, told)
}

// Whether an authority has a block in a round.
#[unsafe(no_mangle)]
pub extern "C" fn kadzhomir_block_exists_at_authority_round(
    k: u64,
    image: &[u8],
    used: u64,
    store: &[u64; 140],
    index: &[u64],
    authority: u64,
    round: u64,
    answer: &mut [u64; 2],
) -> u8
    ensures { Tells
        (block_exists_at k image.now used (store_of store.now) index.now authority round)
        result answer.new }
{
    let view = node_store::view_of(k, image, used, store, index);
    let told = exists::block_exists_at_authority_round(&view, authority, round);
    node_answers::put_told(answer, told)
}

// Whether each of the authorities has a block in a round; no in a round without blocks.
#[unsafe(no_mangle)]
pub extern "C" fn kadzhomir_all_blocks_exists_at_authority_round(
    k: u64,
    image: &[u8],
    used: u64,
    store: &[u64; 140],
    index: &[u64],
    authorities: &[u64],
    round: u64,
    answer: &mut [u64; 2],
) -> u8
    ensures { Tells
        (all_blocks_exist_at k image.now used (store_of store.now) index.now
        authorities.now round)
        result answer.new }
{
    let view = node_store::view_of(k, image, used, store, index);
    let told = exists::all_blocks_exists_at_authority_round(&view, authorities, round);
    node_answers::put_told(answer, told)
}

// The block with this reference, as a row of `out`.
#[unsafe(no_mangle)]
pub extern "C" fn kadzhomir_get_block(
    k: u64,
    image: &[u8],
    used: u64,
    store: &mut [u64; 140],
    index: &[u64],
    reference: &[u64; 6],
    out: &mut [u64],
    answer: &mut [u64; 2],
) -> u8
    ensures { GivesLookup
        (get_block (call_of k image.now used (store_of store.old) index.now)
        (reference_of reference.now))
        store.old result store.new answer.new out.old out.new }
{
    let view = node_store::view_of(k, image, used, store, index);
    let x = node_store::reference_at(reference, 0);
    let r = lookup::get_block(&view, x, out);
    node_answers::put_looked(store, answer, r)
}

// The blocks of a round.
#[unsafe(no_mangle)]
pub extern "C" fn kadzhomir_get_blocks_by_round(
    k: u64,
    image: &[u8],
    used: u64,
    store: &mut [u64; 140],
    index: &[u64],
    round: u64,
    out: &mut [u64],
    answer: &mut [u64; 2],
) -> u8
    ensures { GivesLookup
        (get_blocks_by_round (call_of k image.now used (store_of store.old) index.now)
        round)
        store.old result store.new answer.new out.old out.new }
{
    let view = node_store::view_of(k, image, used, store, index);
    let r = lookup::get_blocks_by_round(&view, round, out);
    node_answers::put_looked(store, answer, r)
}

// The blocks of an authority in a round.
#[unsafe(no_mangle)]
pub extern "C" fn kadzhomir_get_blocks_at_authority_round(
    k: u64,
    image: &[u8],
    used: u64,
    store: &mut [u64; 140],
    index: &[u64],
    authority: u64,
    round: u64,
    out: &mut [u64],
    answer: &mut [u64; 2],
) -> u8
    ensures { GivesLookup
        (get_blocks_at_authority_round (call_of k image.now used (store_of store.old) index.now)
        authority round)
        store.old result store.new answer.new out.old out.new }
{
    let view = node_store::view_of(k, image, used, store, index);
    let r = lookup::get_blocks_at_authority_round(&view, authority, round, out);
    node_answers::put_looked(store, answer, r)
}

// The own authority's blocks after a round, at most `limit` of them.
#[unsafe(no_mangle)]
pub extern "C" fn kadzhomir_get_own_blocks(
    k: u64,
    image: &[u8],
    used: u64,
    store: &mut [u64; 140],
    index: &[u64],
    from_excluded: u64,
    limit: usize,
    out: &mut [u64],
    answer: &mut [u64; 2],
) -> u8
    ensures { GivesLookup
        (get_own_blocks (call_of k image.now used (store_of store.old) index.now)
        from_excluded limit)
        store.old result store.new answer.new out.old out.new }
{
    let view = node_store::view_of(k, image, used, store, index);
    let r = lookup_after::get_own_blocks(&view, from_excluded, limit, out);
    node_answers::put_looked(store, answer, r)
}

// An author's blocks in the first `limit` indexed rounds after a round.
#[unsafe(no_mangle)]
pub extern "C" fn kadzhomir_get_others_blocks(
    k: u64,
    image: &[u8],
    used: u64,
    store: &mut [u64; 140],
    index: &[u64],
    from_excluded: u64,
    authority: u64,
    limit: usize,
    out: &mut [u64],
    answer: &mut [u64; 2],
) -> u8
    ensures { GivesLookup
        (get_others_blocks (call_of k image.now used (store_of store.old) index.now)
        from_excluded authority limit)
        store.old result store.new answer.new out.old out.new }
{
    let view = node_store::view_of(k, image, used, store, index);
    let r = lookup_after::get_others_blocks(&view, from_excluded, authority, limit, out);
    node_answers::put_looked(store, answer, r)
}

// The transaction that a locator names.
#[unsafe(no_mangle)]
pub extern "C" fn kadzhomir_get_transaction(
    k: u64,
    image: &[u8],
    used: u64,
    store: &mut [u64; 140],
    index: &[u64],
    reference: &[u64; 6],
    offset: u64,
    answer: &mut [u64; 4],
) -> u8
    ensures { Shows
        (get_transaction k image.now used (store_of store.old) index.now
        (record { block = reference_of reference.now; offset = offset }))
        result store.old store.new answer.new }
{
    let view = node_store::view_of(k, image, used, store, index);
    let block = node_store::reference_at(reference, 0);
    let locator = TransactionLocator { block, offset };
    let r = transaction::get_transaction(&view, locator);
    node_answers::put_transaction(store, answer, r)
}

// Whether a block is an ancestor of the later one, whose bytes are given. The working rows end zero.
#[unsafe(no_mangle)]
pub extern "C" fn kadzhomir_linked(
    k: u64,
    image: &[u8],
    used: u64,
    store: &mut [u64; 140],
    index: &[u64],
    later: &[u8],
    earlier: &[u64; 6],
    work: &mut [u64],
    answer: &mut [u64; 2],
) -> u8
    ensures links { Links
        (linked_answer k image.now used (store_of store.old) index.now
        later.now (reference_of earlier.now) (length work.old / 8))
        result store.old store.new answer.new }
    ensures work_after { work.new ≡ zeros (length work.old) }
{
    let view = node_store::view_of(k, image, used, store, index);
    let x = node_store::reference_at(earlier, 0);
    let r = linked::linked(&view, later, x, work);
    node_answers::put_linked(store, answer, r)
}

// Decodes the block at a place.
#[unsafe(no_mangle)]
pub extern "C" fn kadzhomir_decode_block(bytes: &[u8], at: usize, answer: &mut [u64; 15]) -> u8
    ensures { DecodesBlock (decoded_as (λ b e. statement_block at b)
        (parsed_block bytes.now at)) result answer.new }
{
    let decoded = StatementBlock::decode(bytes, at);
    node_log::put_block(answer, decoded)
}

// The i-th of the references that stand at a place.
#[unsafe(no_mangle)]
pub extern "C" fn kadzhomir_include_at(
    bytes: &[u8],
    place: usize,
    i: usize,
    answer: &mut [u64; 8],
) -> u8
    ensures { DecodesReference (decoded (parsed_reference bytes.now (place + 56 * i)))
        result answer.new }
{
    let decoded = types::include_at(bytes, place, i);
    node_log::put_decoded(answer, decoded)
}

// Decodes the own block at a place: the words of its block, and the next entry.
#[unsafe(no_mangle)]
pub extern "C" fn kadzhomir_decode_own_block(bytes: &[u8], at: usize, answer: &mut [u64; 16]) -> u8
    ensures { DecodesOwnBlock (decoded_as (λ o e. own_block_of at o)
        (own_block bytes.now at)) result answer.new }
{
    let decoded = OwnBlockData::decode(bytes, at);
    node_records::put_own_block(answer, decoded)
}

// Decodes the statement at a place.
#[unsafe(no_mangle)]
pub extern "C" fn kadzhomir_decode_statement(bytes: &[u8], at: usize, answer: &mut [u64; 28]) -> u8
    ensures { DecodesStatement (decoded_as (λ v e. statement_of v e)
        (statement bytes.now at)) result answer.new }
{
    let decoded = BaseStatement::decode(bytes, at);
    node_records::put_statement(answer, decoded)
}

// Decodes the payload at a place: statements behind their number.
#[unsafe(no_mangle)]
pub extern "C" fn kadzhomir_decode_payload(bytes: &[u8], at: usize, answer: &mut [u64; 4]) -> u8
    ensures { DecodesPayload (list_answer at (payload bytes.now at)) result answer.new }
{
    let decoded = bincode::decode_list::<BaseStatement>(bytes, at);
    node_records::put_payload(answer, decoded)
}

// Decodes the commit at a place: the elements of its list behind their number, and the committed state.
#[unsafe(no_mangle)]
pub extern "C" fn kadzhomir_decode_commit(bytes: &[u8], at: usize, answer: &mut [u64; 6]) -> u8
    ensures { DecodesCommit (decoded_as (commits_of at) (commit bytes.now at)) result answer.new }
{
    let decoded = Commit::decode(bytes, at);
    node_records::put_commit(answer, decoded)
}

// Decodes an element of a commit's list at a place: a leader and its sub-dag.
#[unsafe(no_mangle)]
pub extern "C" fn kadzhomir_decode_commit_data(
    bytes: &[u8],
    at: usize,
    answer: &mut [u64; 10],
) -> u8
    ensures { DecodesCommitData (decoded_as (λ c e. commit_of at c)
        (commit_data bytes.now at)) result answer.new }
{
    let decoded = CommitData::decode(bytes, at);
    node_records::put_commit_data(answer, decoded)
}

// Encodes a reference at a place of `out`, as each encoder below does: what does not fit, or is no record, leaves
// `out` as it was.
#[unsafe(no_mangle)]
pub extern "C" fn kadzhomir_encode_reference(
    out: &mut [u8],
    at: usize,
    reference: &[u64; 6],
    answer: &mut [u64; 2],
) -> u8
    ensures { EncodesWords out.old at
        (some (reference_bytes (reference_of reference.now)))
        result answer.new out.new }
{
    let x = node_store::reference_at(reference, 0);
    let encoded = encode::encode_record(out, at, x);
    node_given::put_encoded(answer, encoded)
}

// Encodes the statement Share of some bytes.
#[unsafe(no_mangle)]
pub extern "C" fn kadzhomir_encode_share(
    out: &mut [u8],
    at: usize,
    bytes: &[u8],
    answer: &mut [u64; 2],
) -> u8
    ensures { EncodesWords out.old at (some (statement_bytes (share bytes.now)))
        result answer.new out.new }
{
    let encoded = encode::encode_share(out, at, bytes);
    node_given::put_encoded(answer, encoded)
}

// Encodes the statement Vote: kind 0 accepts, 1 rejects, 2 rejects and names another locator.
#[unsafe(no_mangle)]
pub extern "C" fn kadzhomir_encode_vote(
    out: &mut [u8],
    at: usize,
    locator: &[u64; 7],
    kind: u64,
    other: &[u64; 7],
    answer: &mut [u64; 2],
) -> u8
    ensures { EncodesWords out.old at
        (laid_out (vote_with (locator_of locator.now))
        (vote_given kind (locator_of other.now)))
        result answer.new out.new }
{
    let encoded = node_given::encode_vote(out, at, locator, kind, other);
    node_given::put_encoded(answer, encoded)
}

// Encodes the statement VoteRange.
#[unsafe(no_mangle)]
pub extern "C" fn kadzhomir_encode_vote_range(
    out: &mut [u8],
    at: usize,
    range: &[u64; 8],
    answer: &mut [u64; 2],
) -> u8
    ensures { EncodesWords out.old at
        (some (statement_bytes (vote_range (range_of range.now))))
        result answer.new out.new }
{
    let x = node_given::range_of(range);
    let encoded = encode::encode_vote_range(out, at, x);
    node_given::put_encoded(answer, encoded)
}

// Encodes a payload, of statements that are encoded one behind the other.
#[unsafe(no_mangle)]
pub extern "C" fn kadzhomir_encode_payload(
    out: &mut [u8],
    at: usize,
    statements: &[u8],
    count: u64,
    answer: &mut [u64; 2],
) -> u8
    ensures { EncodesWords out.old at
        (laid_out payload_bytes (whole (many statement count) statements.now))
        result answer.new out.new }
{
    let encoded = encode_blocks::encode_payload(out, at, statements, count);
    node_given::put_encoded(answer, encoded)
}

// Encodes a block, of its fields and of includes and statements that are encoded one behind the other.
#[unsafe(no_mangle)]
pub extern "C" fn kadzhomir_encode_block(
    out: &mut [u8],
    at: usize,
    block: &[u64; 11],
    signature: &[u8; 64],
    includes: &[u8],
    statements: &[u8],
    answer: &mut [u64; 2],
) -> u8
    ensures { EncodesWords out.old at
        (laid_out block_bytes (block_from (block_fields_of block.now signature.now)
        includes.now statements.now))
        result answer.new out.new }
{
    let fields = node_given::block_fields(block, signature);
    let encoded = encode_blocks::encode_block(out, at, fields, includes, statements);
    node_given::put_encoded(answer, encoded)
}

// Encodes an own block: the next entry, and a block that is encoded already.
#[unsafe(no_mangle)]
pub extern "C" fn kadzhomir_encode_own_block(
    out: &mut [u8],
    at: usize,
    next_entry: u64,
    block: &[u8],
    answer: &mut [u64; 2],
) -> u8
    ensures { EncodesWords out.old at
        (laid_out (own_block_with next_entry) (whole parsed_block block.now))
        result answer.new out.new }
{
    let encoded = encode_commits::encode_own_block(out, at, WalPosition(next_entry), block);
    node_given::put_encoded(answer, encoded)
}

// Encodes an element of a commit's list: a leader and its sub-dag, of references that are encoded one behind the
// other.
#[unsafe(no_mangle)]
pub extern "C" fn kadzhomir_encode_commit_data(
    out: &mut [u8],
    at: usize,
    leader: &[u64; 6],
    sub_dag: &[u8],
    count: u64,
    answer: &mut [u64; 2],
) -> u8
    ensures { EncodesWords out.old at
        (laid_out (commit_data_with (reference_of leader.now))
        (whole (many parsed_reference count) sub_dag.now))
        result answer.new out.new }
{
    let x = node_store::reference_at(leader, 0);
    let encoded = encode_commits::encode_commit_data(out, at, x, sub_dag, count);
    node_given::put_encoded(answer, encoded)
}

// Encodes a commit, of the elements of its list, encoded one behind the other, and of the committed state.
#[unsafe(no_mangle)]
pub extern "C" fn kadzhomir_encode_commit(
    out: &mut [u8],
    at: usize,
    commits: &[u8],
    count: u64,
    state: &[u8],
    answer: &mut [u64; 2],
) -> u8
    ensures { EncodesWords out.old at
        (laid_out (commit_with state.now) (whole (many commit_data count) commits.now))
        result answer.new out.new }
{
    let encoded = encode_commits::encode_commit(out, at, commits, count, state);
    node_given::put_encoded(answer, encoded)
}

// The CRC-32 of some bytes.
#[unsafe(no_mangle)]
pub extern "C" fn kadzhomir_crc32(bytes: &[u8]) -> u32
    ensures { result ≡ crc32 bytes.now }
{
    checksum::hash(bytes)
}

// The library's version.
#[unsafe(no_mangle)]
pub extern "C" fn kadzhomir_version() -> u32
    ensures { result ≡ 513 }
{
    VERSION
}
