// Runs the calls of the block store on the cases of the file `stdin` and writes what each answers and
// leaves. Answer tables and working rows are lent full of sevens, since their old contents are never
// read.
//
// `stdin` and `stdout` were made by tools/model/store_cases.py. Refusals are those of a model written
// from document 01. Served calls are those of the unedited Rust (tools/oracle) wherever it has an
// answer, and the model must agree with it.
//
// Numbers in `stdin` have 8 bytes. It begins with the count of cases. Each is its name behind its
// length, the exponent, used, committee size, own authority, rows counted and loads, the words lent for
// index, answers and working rows, the image and the words of the index, each behind its length, and the
// count of its calls. A call is its kind and its arguments; references and byte strings are as bincode
// has them.
#![tactic(auto)]

use bincode::Decode;
use case_lines::{
    behind, bytes_at, end_line, feed_reference, feed_table, feed_word, hex, number, number_at,
    plus, show_place,
};
use crypto::BlockDigest;
use index::StoreSummary;
use insert::Inserted;
use linked::LinkedAnswer;
use lookup::Looked;
use refusal::{Refusal, number_of};
use std::io;
use store::{BlockStore, StoreView};
use transaction::FoundTransaction;
use types::{AuthorityIndex, BlockReference, RoundNumber, TransactionLocator};
use wal::{Log, WalPosition, WalWriter};

// The log's exponent and length, and the store.
#[derive(Clone, Copy)]
pub struct Setting {
    pub exponent: u64,
    pub used: u64,
    pub store: BlockStore,
}

impl Setting {
    fn log<'a>(self, image: &'a [u8]) -> Log<'a> {
        Log {
            exponent: self.exponent,
            image,
            used: self.used,
        }
    }

    fn view<'a>(self, image: &'a [u8], index: &'a [u64]) -> StoreView<'a> {
        StoreView {
            log: self.log(image),
            store: self.store,
            index,
        }
    }
}

// A lookup, whose answer is a table of blocks, with the arguments of its call in their order.
#[derive(Clone, Copy)]
pub enum Lookup {
    Block(BlockReference),
    Round(RoundNumber),
    AtAuthorityRound(AuthorityIndex, RoundNumber),
    Own(RoundNumber, usize),
    Others(RoundNumber, AuthorityIndex, usize),
}

// Another call that changes neither image nor index, with its arguments in their order.
#[derive(Clone, Copy)]
pub enum Question<'a> {
    Transaction(TransactionLocator),
    Linked(&'a [u8], BlockReference),
    Exists(BlockReference),
    ExistsAt(AuthorityIndex, RoundNumber),
    AllExist(RoundNumber, Authorities),
}

// The first `count` of the words, where there are so many.
#[derive(Clone, Copy)]
pub struct Authorities {
    pub count: usize,
    pub words: [u64; 8],
}

// A call of a case. An insert has the tag and the payload.
#[derive(Clone, Copy)]
pub enum Call<'a> {
    Open,
    Insert(u64, &'a [u8]),
    Cleanup(RoundNumber),
    Look(Lookup),
    Ask(Question<'a>),
}

// ---- Reading

fn reference_at(s: &[u8], at: usize) -> BlockReference {
    let Some((reference, _)) = BlockReference::decode(s, at) else {
        return BlockReference {
            authority: 0,
            round: 0,
            digest: BlockDigest([0; 32]),
        };
    };
    reference
}

// The place behind the words whose number stands at `at`.
fn behind_words(s: &[u8], at: usize) -> usize {
    let n = number_at(s, at) as usize;
    // So many words as 2^60 are behind every input, and their bytes may have no number.
    let bytes = if n < 0x1000_0000_0000_0000 { 8 * n } else { n };
    plus(plus(at, 8), bytes)
}

fn load_words(s: &[u8], at: usize, t: &mut [u64]) {
    let n = number_at(s, at) as usize;
    let mut place = plus(at, 8);
    for word in t.iter_mut().take(n) {
        *word = number_at(s, place);
        place = plus(place, 8);
    }
}

fn load_bytes(bytes: &[u8], image: &mut [u8]) {
    for (byte, given) in image.iter_mut().zip(bytes) {
        *byte = *given;
    }
}

// The authorities whose number stands at `at`, the first eight of them.
fn authorities_at(s: &[u8], at: usize) -> Authorities {
    let mut words = [0u64; 8];
    load_words(s, at, &mut words);
    Authorities {
        count: number_at(s, at) as usize,
        words,
    }
}

// The lookup of a kind whose arguments stand at `at`, and the place behind them.
fn lookup_at(s: &[u8], kind: u64, at: usize) -> (Lookup, usize) {
    let one = number_at(s, at);
    let second = plus(at, 8);
    let two = number_at(s, second);
    let third = plus(at, 16);
    let three = number_at(s, third);
    match kind {
        4 => (Lookup::Block(reference_at(s, at)), plus(at, 56)),
        5 => (Lookup::Round(one), second),
        6 => (Lookup::AtAuthorityRound(one, two), third),
        7 => (Lookup::Own(one, two as usize), third),
        _ => (Lookup::Others(one, two, three as usize), plus(at, 24)),
    }
}

// The question of a kind whose arguments stand at `at`, and the place behind them.
fn question_at(s: &[u8], kind: u64, at: usize) -> (Question<'_>, usize) {
    let second = plus(at, 8);
    match kind {
        9 => {
            let locator = TransactionLocator {
                block: reference_at(s, at),
                offset: number_at(s, plus(at, 56)),
            };
            (Question::Transaction(locator), plus(at, 64))
        }
        10 => {
            let earlier = behind(s, at);
            let linked = Question::Linked(bytes_at(s, at), reference_at(s, earlier));
            (linked, plus(earlier, 56))
        }
        11 => (Question::Exists(reference_at(s, at)), plus(at, 56)),
        12 => {
            let exists = Question::ExistsAt(number_at(s, at), number_at(s, second));
            (exists, plus(at, 16))
        }
        _ => {
            let all = Question::AllExist(number_at(s, at), authorities_at(s, second));
            (all, behind_words(s, second))
        }
    }
}

// The call at `at`, and the place behind it.
fn call_at(s: &[u8], at: usize) -> (Call<'_>, usize) {
    let kind = number_at(s, at);
    let start = plus(at, 8);
    let second = plus(at, 16);
    match kind {
        1 => (Call::Open, start),
        2 => {
            let insert = Call::Insert(number_at(s, start), bytes_at(s, second));
            (insert, behind(s, second))
        }
        0 | 3 => (Call::Cleanup(number_at(s, start)), second),
        4..=8 => {
            let (lookup, end) = lookup_at(s, kind, start);
            (Call::Look(lookup), end)
        }
        _ => {
            let (question, end) = question_at(s, kind, start);
            (Call::Ask(question), end)
        }
    }
}

// ---- Writing

// The name of a call, and its number: 0 where it is not refused.
fn show_number<T>(rt: &impl Print, name: &[u8], answer: &Result<T, Refusal>) -> io::Result<()> {
    rt.write_all(name)?;
    number(rt, u64::from(number_of(answer)))
}

fn show_table(rt: &impl Print, t: &[u64]) -> io::Result<()> {
    hex(rt, u64::from(!feed_table(0xffff_ffff, t)), 8)
}

// The highest round, the last seen rounds and the own reference.
fn show_summary(rt: &impl Print, s: StoreSummary) -> io::Result<()> {
    let one = feed_word(0xffff_ffff, s.highest_round);
    let two = feed_table(one, &s.last_seen_by_authority);
    let three = feed_reference(two, s.last_own_block);
    hex(rt, u64::from(!three), 8)
}

// Used, rows and loads, and checksums of the image, the index and the summary.
fn show_setting(rt: &impl Print, setting: Setting, image: &[u8], index: &[u64]) -> io::Result<()> {
    let store = setting.store;
    number(rt, setting.used)?;
    number(rt, store.rows as u64)?;
    number(rt, store.loads)?;
    hex(rt, u64::from(checksum::hash(image)), 8)?;
    show_table(rt, index)?;
    show_summary(rt, store.summary)?;
    end_line(rt)
}

// Round, authority, first word of the digest, and the place and the length of the block's bytes.
fn show_row(rt: &impl Print, row: &[u64; 8]) -> io::Result<()> {
    let [round, authority, first, _, _, _, place, length] = *row;
    print!(rt; "{round}")?;
    number(rt, authority)?;
    hex(rt, first, 16)?;
    number(rt, place)?;
    number(rt, length)?;
    end_line(rt)
}

fn show_answer(rt: &impl Print, name: &[u8], answer: Result<bool, Refusal>) -> io::Result<()> {
    rt.write_all(name)?;
    match answer {
        Ok(true) => print!(rt; " YES")?,
        Ok(false) => print!(rt; " NO")?,
        Err(refusal) => number(rt, u64::from(refusal.number()))?,
    }
    end_line(rt)
}

// ---- Calls that change image or index. A refused one leaves the setting as it is, but for `open`.

fn open(rt: &impl Print, setting: Setting, image: &[u8], index: &mut [u64]) -> io::Result<Setting> {
    let mut pending = [7u64; 512];
    let mut unprocessed = [7u64; 512];
    let mut committed = [7u64; 512];
    let size = setting.store.committee_size;
    let own = setting.store.authority;
    let recovered = recovery::recover(
        &setting.log(image),
        size,
        own,
        &mut pending,
        &mut unprocessed,
        &mut committed,
        index,
    );
    let opened = BlockStore::open(size, own, recovered);
    show_number(rt, b"open", &opened)?;
    // A refused recovery leaves no row and no summary.
    let empty = BlockStore {
        rows: 0,
        loads: 0,
        summary: StoreSummary::new(),
        ..setting.store
    };
    let after = Setting {
        store: opened.unwrap_or(empty),
        ..setting
    };
    show_setting(rt, after, image, index)?;
    Ok(after)
}

fn insert(
    rt: &impl Print,
    setting: Setting,
    tag: u64,
    payload: &[u8],
    image: &mut [u8],
    index: &mut [u64],
) -> io::Result<Setting> {
    let store = setting.store;
    let writer = WalWriter {
        exponent: setting.exponent,
        used: setting.used,
    };
    let answer = if tag == 3 {
        insert::insert_own_block(writer, image, store, index, payload)
    } else {
        insert::insert_block(writer, image, store, index, payload)
    };
    show_number(rt, b"insert", &answer)?;
    let inserted = answer.unwrap_or(Inserted {
        position: WalPosition(0),
        writer,
        store,
    });
    number(rt, inserted.position.0)?;
    let after = Setting {
        used: inserted.writer.used,
        store: inserted.store,
        ..setting
    };
    show_setting(rt, after, image, index)?;
    Ok(after)
}

fn clean(
    rt: &impl Print,
    setting: Setting,
    round: RoundNumber,
    image: &[u8],
    index: &mut [u64],
) -> io::Result<()> {
    print!(rt; "cleanup")?;
    match cleanup::cleanup(&setting.log(image), setting.store, index, round) {
        Ok(unloaded) => print!(rt; " UNLOADED {unloaded}")?,
        Err(refusal) => number(rt, u64::from(refusal.number()))?,
    }
    show_setting(rt, setting, image, index)
}

// ---- Calls that read. Each gives the store after it: a refused one leaves it as it is.

// Number, rows, loads and a checksum of the answer table; then the rows.
fn show_looked(
    rt: &impl Print,
    name: &[u8],
    store: BlockStore,
    answer: Result<Looked, Refusal>,
    out: &[u64],
) -> io::Result<BlockStore> {
    show_number(rt, name, &answer)?;
    let looked = answer.unwrap_or(Looked { rows: 0, store });
    number(rt, looked.rows as u64)?;
    number(rt, looked.store.loads)?;
    show_table(rt, out)?;
    end_line(rt)?;
    for row in out.as_chunks().0.iter().take(looked.rows) {
        show_row(rt, row)?;
    }
    Ok(looked.store)
}

fn look(
    rt: &impl Print,
    view: &StoreView<'_>,
    lookup: Lookup,
    out: &mut [u64],
) -> io::Result<BlockStore> {
    let store = view.store;
    match lookup {
        Lookup::Block(reference) => {
            let answer = lookup::get_block(view, reference, out);
            show_looked(rt, b"get_block", store, answer, out)
        }
        Lookup::Round(round) => {
            let answer = lookup::get_blocks_by_round(view, round, out);
            show_looked(rt, b"get_blocks_by_round", store, answer, out)
        }
        Lookup::AtAuthorityRound(authority, round) => {
            let answer = lookup::get_blocks_at_authority_round(view, authority, round, out);
            show_looked(rt, b"get_blocks_at_authority_round", store, answer, out)
        }
        Lookup::Own(from, limit) => {
            let answer = lookup_after::get_own_blocks(view, from, limit, out);
            show_looked(rt, b"get_own_blocks", store, answer, out)
        }
        Lookup::Others(from, authority, limit) => {
            let answer = lookup_after::get_others_blocks(view, from, authority, limit, out);
            show_looked(rt, b"get_others_blocks", store, answer, out)
        }
    }
}

fn get_transaction(
    rt: &impl Print,
    view: &StoreView<'_>,
    locator: TransactionLocator,
) -> io::Result<BlockStore> {
    let answer = transaction::get_transaction(view, locator);
    show_number(rt, b"get_transaction", &answer)?;
    let found = answer.unwrap_or(FoundTransaction {
        share: None,
        store: view.store,
    });
    show_place(rt, view.log.image, found.share)?;
    number(rt, found.store.loads)?;
    end_line(rt)?;
    Ok(found.store)
}

fn linked(
    rt: &impl Print,
    view: &StoreView<'_>,
    later: &[u8],
    earlier: BlockReference,
    work: &mut [u64],
) -> io::Result<BlockStore> {
    let answer = linked::linked(view, later, earlier, work);
    show_number(rt, b"linked", &answer)?;
    let found = answer.unwrap_or(LinkedAnswer {
        linked: false,
        store: view.store,
    });
    number(rt, u64::from(found.linked))?;
    number(rt, found.store.loads)?;
    show_table(rt, work)?;
    end_line(rt)?;
    Ok(found.store)
}

fn ask(
    rt: &impl Print,
    view: &StoreView<'_>,
    question: Question<'_>,
    work: &mut [u64],
) -> io::Result<BlockStore> {
    match question {
        Question::Transaction(locator) => return get_transaction(rt, view, locator),
        Question::Linked(later, earlier) => return linked(rt, view, later, earlier, work),
        Question::Exists(reference) => {
            let answer = exists::block_exists(view, reference);
            show_answer(rt, b"block_exists", answer)?;
        }
        Question::ExistsAt(authority, round) => {
            let answer = exists::block_exists_at_authority_round(view, authority, round);
            show_answer(rt, b"block_exists_at_authority_round", answer)?;
        }
        Question::AllExist(round, authorities) => {
            // More than eight are not asked about.
            if let Some(all) = authorities.words.get(..authorities.count) {
                let answer = exists::all_blocks_exists_at_authority_round(view, all, round);
                show_answer(rt, b"all_blocks_exists_at_authority_round", answer)?;
            }
        }
    }
    Ok(view.store)
}

// ---- The cases

// Makes a call, and gives the setting after it.
fn run_call(
    rt: &impl Print,
    setting: Setting,
    call: Call<'_>,
    image: &mut [u8],
    index: &mut [u64],
    out: &mut [u64],
    work: &mut [u64],
) -> io::Result<Setting> {
    match call {
        Call::Open => open(rt, setting, image, index),
        Call::Insert(tag, payload) => insert(rt, setting, tag, payload, image, index),
        Call::Cleanup(round) => {
            clean(rt, setting, round, image, index)?;
            Ok(setting)
        }
        Call::Look(lookup) => {
            let store = look(rt, &setting.view(image, index), lookup, out)?;
            Ok(Setting { store, ..setting })
        }
        Call::Ask(question) => {
            let store = ask(rt, &setting.view(image, index), question, work)?;
            Ok(Setting { store, ..setting })
        }
    }
}

// The calls whose number stands at `at`; answers the place behind them.
fn run_calls(
    rt: &impl Print,
    start: Setting,
    s: &[u8],
    at: usize,
    image: &mut [u8],
    index: &mut [u64],
    out: &mut [u64],
    work: &mut [u64],
) -> io::Result<usize> {
    let mut setting = start;
    let mut place = plus(at, 8);
    for _ in 0..number_at(s, at) {
        let (call, end) = call_at(s, place);
        setting = run_call(rt, setting, call, image, index, out, work)?;
        place = end;
    }
    Ok(place)
}

fn setting_at(s: &[u8], at: usize) -> Setting {
    Setting {
        exponent: number_at(s, at),
        used: number_at(s, plus(at, 8)),
        store: BlockStore {
            committee_size: number_at(s, plus(at, 16)),
            authority: number_at(s, plus(at, 24)),
            rows: number_at(s, plus(at, 32)) as usize,
            loads: number_at(s, plus(at, 40)),
            summary: StoreSummary::new(),
        },
    }
}

// Lends the memory, each part as long as the case says: the words at `at`, the image at `from`.
fn lend(
    rt: &impl Print,
    s: &[u8],
    at: usize,
    from: usize,
    image: &mut [u8],
    index: &mut [u64],
    out: &mut [u64],
    work: &mut [u64],
) -> io::Result<usize> {
    let i = image.len().min(number_at(s, from) as usize);
    let x = index.len().min(number_at(s, plus(at, 48)) as usize);
    let o = out.len().min(number_at(s, plus(at, 56)) as usize);
    let w = work.len().min(number_at(s, plus(at, 64)) as usize);
    run_calls(
        rt,
        setting_at(s, at),
        s,
        behind_words(s, behind(s, from)),
        &mut image[..i],
        &mut index[..x],
        &mut out[..o],
        &mut work[..w],
    )
}

// The case at `at`, and the place behind it.
fn show_case(rt: &HostRuntime, s: &[u8], at: usize) -> io::Result<usize> {
    let mut image = [0u8; 16384];
    let mut index = [7u64; 512];
    let mut out = [7u64; 512];
    let mut work = [7u64; 512];
    let numbers = behind(s, at);
    let from = plus(numbers, 72);
    rt.write_all(bytes_at(s, at))?;
    end_line(rt)?;
    load_bytes(bytes_at(s, from), &mut image);
    load_words(s, behind(s, from), &mut index);
    lend(
        rt, s, numbers, from, &mut image, &mut index, &mut out, &mut work,
    )
}

fn main(rt: HostRuntime) -> io::Result<()> {
    case_lines::run_cases::<524288, _>(&rt, show_case)
}
