// Runs recovery on the logs of the file `stdin` and writes what it answers: a refusal's number and
// start and how many words of the tables it leaves other than zero, or the recovered state. The
// tables are lent full of sevens, since their old contents are never read.
//
// `stdin` and `stdout` were made by tools/model/recovery_cases.py. Refusals, stop words, E and unread
// counts are those of a model written from document 01. The recovered state is that of the unedited
// Rust (tools/oracle) wherever it has an answer, and else the model's: regions of 64 and 256 bytes, and
// torn ends.
//
// Numbers in `stdin` have 8 bytes. It begins with the count of cases. Each is its form, the exponent,
// used, committee size, own authority and the words lent for each table, and then its name and its
// image, each behind its length. Form 0 is shown in full, form 1 in a line for each cut, form 2 in one
// line.
#![tactic(auto)]

use bincode::Cursor;
use case_lines::{
    behind, bytes_at, end_line, feed_reference, feed_table, feed_word, hex, number, number_at,
    plus, show_place, stop_word,
};
use index::StoreSummary;
use recovery::Recovered;
use state::Replay;
use std::io;
use types::BlockReference;
use wal::{Log, RefusedAt};

// The arguments of a call, but for the image.
#[derive(Clone, Copy)]
pub struct Call {
    pub form: u64,
    pub exponent: u64,
    pub used: u64,
    pub size: u64,
    pub own: u64,
    pub pending: u64,
    pub unprocessed: u64,
    pub committed: u64,
    pub index: u64,
}

// The tables as a call left them.
#[derive(Clone, Copy)]
pub struct Tables<'a> {
    pub pending: &'a [u64],
    pub unprocessed: &'a [u64],
    pub committed: &'a [u64],
    pub index: &'a [u64],
}

impl<'a> Tables<'a> {
    fn all(self) -> [&'a [u64]; 4] {
        [self.pending, self.unprocessed, self.committed, self.index]
    }
}

// ---- Checksums

fn feed_span(register: u32, span: Option<Cursor>) -> u32 {
    match span {
        None => feed_table(register, &[0; 3]),
        Some(bytes) => feed_table(register, &[1, bytes.at as u64, bytes.left as u64]),
    }
}

fn feed_summary(register: u32, s: StoreSummary) -> u32 {
    let one = feed_word(register, s.highest_round);
    let two = feed_table(one, &s.last_seen_by_authority);
    feed_reference(two, s.last_own_block)
}

// The state but for the tables.
fn feed_state(register: u32, s: Replay) -> u32 {
    let counts = [
        s.pending as u64,
        s.blocks.unprocessed as u64,
        s.committed as u64,
        s.blocks.index as u64,
    ];
    let mut fed = feed_table(register, &counts);
    for span in [s.last_own_block, s.state, s.committed_state] {
        fed = feed_span(fed, span);
    }
    feed_summary(
        feed_reference(fed, s.last_committed_leader),
        s.blocks.summary,
    )
}

fn feed_tables(tables: Tables) -> u32 {
    let mut register = 0xffff_ffff;
    for table in tables.all() {
        register = feed_table(register, table);
    }
    register
}

// ---- The state in full

fn show_sum(rt: &impl Print, register: u32) -> io::Result<()> {
    hex(rt, u64::from(!register), 8)?;
    end_line(rt)
}

// The count of a table and a checksum of all its words.
fn show_table(rt: &impl Print, name: &[u8], t: &[u64], count: usize) -> io::Result<()> {
    rt.write_all(name)?;
    number(rt, count as u64)?;
    show_sum(rt, feed_table(0xffff_ffff, t))
}

// Position, kind, and the reference's round, authority and first word of the digest, or the length.
fn show_pending_row(rt: &impl Print, row: &[u64; 8]) -> io::Result<()> {
    let [position, kind, round, authority, first, ..] = *row;
    print!(rt; "{position}")?;
    number(rt, kind)?;
    number(rt, round)?;
    number(rt, authority)?;
    hex(rt, first, 16)?;
    end_line(rt)
}

// Round, authority, first word of the digest, position.
fn show_block_row(rt: &impl Print, row: &[u64; 8]) -> io::Result<()> {
    let [round, authority, first, _, _, _, position, _] = *row;
    print!(rt; "{round}")?;
    number(rt, authority)?;
    hex(rt, first, 16)?;
    number(rt, position)?;
    end_line(rt)
}

fn show_pending(rt: &impl Print, t: &[u64], count: usize) -> io::Result<()> {
    show_table(rt, b"pending", t, count)?;
    for row in t.as_chunks().0.iter().take(count) {
        show_pending_row(rt, row)?;
    }
    Ok(())
}

fn show_blocks(rt: &impl Print, name: &[u8], t: &[u64], count: usize) -> io::Result<()> {
    show_table(rt, name, t, count)?;
    for row in t.as_chunks().0.iter().take(count) {
        show_block_row(rt, row)?;
    }
    Ok(())
}

fn show_span(rt: &impl Print, name: &[u8], image: &[u8], span: Option<Cursor>) -> io::Result<()> {
    rt.write_all(name)?;
    show_place(rt, image, span)?;
    end_line(rt)
}

// Whether it is there, round, authority and the first word of the digest.
fn show_reference(
    rt: &impl Print,
    name: &[u8],
    reference: Option<BlockReference>,
) -> io::Result<()> {
    let [round, authority, first, _, _, _] = reference.map_or([0; 6], index::key_of);
    rt.write_all(name)?;
    number(rt, u64::from(reference.is_some()))?;
    number(rt, round)?;
    number(rt, authority)?;
    hex(rt, first, 16)?;
    end_line(rt)
}

// The highest round, the last seen rounds of the first four authorities, and a checksum of them all.
fn show_summary(rt: &impl Print, s: StoreSummary) -> io::Result<()> {
    let seen = s.last_seen_by_authority;
    print!(rt; "highest {} seen", s.highest_round)?;
    for round in &seen[..4] {
        number(rt, *round)?;
    }
    show_sum(rt, feed_table(0xffff_ffff, &seen))?;
    show_reference(rt, b"own reference", s.last_own_block)
}

fn show_replay(rt: &impl Print, image: &[u8], s: Replay, tables: Tables) -> io::Result<()> {
    show_pending(rt, tables.pending, s.pending)?;
    show_blocks(rt, b"unprocessed", tables.unprocessed, s.blocks.unprocessed)?;
    show_blocks(rt, b"committed", tables.committed, s.committed)?;
    show_blocks(rt, b"index", tables.index, s.blocks.index)?;
    show_span(rt, b"own block", image, s.last_own_block)?;
    show_span(rt, b"state", image, s.state)?;
    show_span(rt, b"committed state", image, s.committed_state)?;
    show_reference(rt, b"leader", s.last_committed_leader)?;
    show_summary(rt, s.blocks.summary)
}

// ---- The answer

// The words other than zero.
fn count_words(tables: Tables) -> u64 {
    let mut count: u64 = 0;
    for table in tables.all() {
        let words = table.iter().filter(|word| **word != 0).count();
        count = count.saturating_add(words as u64);
    }
    count
}

fn show_refusal(rt: &impl Print, at: RefusedAt, tables: Tables) -> io::Result<()> {
    print!(rt; "REFUSED {}", at.refusal.number())?;
    number(rt, at.start.0)?;
    number(rt, count_words(tables))?;
    end_line(rt)
}

// In full, or as a checksum of the state and every word of the tables in the stop's line.
fn show_state(
    rt: &impl Print,
    form: u64,
    image: &[u8],
    s: Replay,
    tables: Tables,
) -> io::Result<()> {
    if form != 0 {
        return show_sum(rt, feed_state(feed_tables(tables), s));
    }
    end_line(rt)?;
    show_replay(rt, image, s, tables)
}

fn show(rt: &impl Print, form: u64, image: &[u8], r: Recovered, tables: Tables) -> io::Result<()> {
    match r.walked {
        Ok(walked) => {
            stop_word(rt, walked.stop)?;
            number(rt, walked.end.0)?;
            number(rt, walked.unread)?;
            show_state(rt, form, image, r.replay, tables)
        }
        Err(at) => show_refusal(rt, at, tables),
    }
}

// ---- The call

fn ask(
    rt: &impl Print,
    call: Call,
    image: &[u8],
    pending: &mut [u64],
    unprocessed: &mut [u64],
    committed: &mut [u64],
    index: &mut [u64],
) -> io::Result<()> {
    let log = Log {
        exponent: call.exponent,
        image,
        used: call.used,
    };
    let r = recovery::recover(
        &log,
        call.size,
        call.own,
        pending,
        unprocessed,
        committed,
        index,
    );
    let tables = Tables {
        pending,
        unprocessed,
        committed,
        index,
    };
    show(rt, call.form, image, r, tables)
}

// Lends the tables, each as long as the case says.
fn run(rt: &impl Print, call: Call, image: &[u8]) -> io::Result<()> {
    let mut pending = [7u64; 512];
    let mut unprocessed = [7u64; 512];
    let mut committed = [7u64; 512];
    let mut index = [7u64; 512];
    ask(
        rt,
        call,
        image,
        &mut pending[..512.min(call.pending as usize)],
        &mut unprocessed[..512.min(call.unprocessed as usize)],
        &mut committed[..512.min(call.committed as usize)],
        &mut index[..512.min(call.index as usize)],
    )
}

// The log cut at every byte.
fn run_cuts(rt: &impl Print, call: Call, image: &[u8]) -> io::Result<()> {
    for used in 0..=call.used {
        print!(rt; "{used} ")?;
        run(rt, Call { used, ..call }, image)?;
    }
    Ok(())
}

// ---- The cases

fn call_at(s: &[u8], at: usize) -> Call {
    Call {
        form: number_at(s, at),
        exponent: number_at(s, plus(at, 8)),
        used: number_at(s, plus(at, 16)),
        size: number_at(s, plus(at, 24)),
        own: number_at(s, plus(at, 32)),
        pending: number_at(s, plus(at, 40)),
        unprocessed: number_at(s, plus(at, 48)),
        committed: number_at(s, plus(at, 56)),
        index: number_at(s, plus(at, 64)),
    }
}

// The case at `at`, and the place behind it.
fn show_case(rt: &impl Print, s: &[u8], at: usize) -> io::Result<usize> {
    let call = call_at(s, at);
    let name = plus(at, 72);
    let image = behind(s, name);
    rt.write_all(bytes_at(s, name))?;
    end_line(rt)?;
    if call.form == 1 {
        run_cuts(rt, call, bytes_at(s, image))?;
    } else {
        run(rt, call, bytes_at(s, image))?;
    }
    Ok(behind(s, image))
}

fn main(rt: HostRuntime) -> io::Result<()> {
    case_lines::run_cases::<262144, _>(&rt, show_case)
}
