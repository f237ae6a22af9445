// Runs the page's two calls on the cases of the file `stdin` and writes a line for each: where tables
// are lent, the refusal's number or 0; the length of the whole text; a checksum of the whole buffer;
// and where tables are lent, one of all their words. Behind it stands as much of the text as the
// buffer holds, where the case says so, and a line feed. Buffer and tables are lent full of sevens,
// so that a checksum tells what a call leaves alone.
//
// `stdin` and `stdout` were made by tools/model/page_cases.py, a model written from the documents.
//
// Numbers in `stdin` have 8 bytes. It begins with the count of cases. Each is its form, whether the
// text is shown, the length of the buffer, the exponent, used, committee size, own authority and the
// words lent for each table, and then its name and its bytes, each behind its length. Form 0 is
// `input_page` of these bytes, where the numbers behind the buffer's length are not used; form 1 is
// `recovery_page` of the image that they are.
#![tactic(auto)]

use case_lines::{behind, bytes_at, end_line, feed_table, hex, number, number_at, plus};
use refusal::number_of;
use std::io;
use wal_position::Log;

// The longest text of an input.
const TEXT: usize = 309301;

// The words of 128 rows, as many as a case lends.
const WORDS: usize = 1024;

// The arguments of a call, but for the bytes.
#[derive(Clone, Copy)]
pub struct Call {
    pub form: u64,
    pub shown: u64,
    pub room: u64,
    pub exponent: u64,
    pub used: u64,
    pub size: u64,
    pub own: u64,
    pub pending: u64,
    pub unprocessed: u64,
    pub committed: u64,
    pub index: u64,
}

// ---- What is written

// The length of the whole text, and the checksum of the buffer.
fn show_length(rt: &impl Print, length: usize, out: &[u8]) -> io::Result<()> {
    number(rt, length as u64)?;
    hex(rt, u64::from(checksum::hash(out)), 8)
}

fn show_tables(
    rt: &impl Print,
    pending: &[u64],
    unprocessed: &[u64],
    committed: &[u64],
    index: &[u64],
) -> io::Result<()> {
    let mut register = 0xffff_ffff;
    for table in [pending, unprocessed, committed, index] {
        register = feed_table(register, table);
    }
    hex(rt, u64::from(!register), 8)
}

fn show_text(rt: &impl Print, shown: u64, length: usize, out: &[u8]) -> io::Result<()> {
    end_line(rt)?;
    if shown == 0 {
        return Ok(());
    }
    rt.write_all(&out[..length.min(out.len())])?;
    end_line(rt)
}

// ---- The calls

fn ask_input(rt: &impl Print, call: Call, input: &[u8], out: &mut [u8]) -> io::Result<()> {
    let length = page::input_page(input, out);
    show_length(rt, length, out)?;
    show_text(rt, call.shown, length, out)
}

fn ask_recovery(
    rt: &impl Print,
    call: Call,
    image: &[u8],
    pending: &mut [u64],
    unprocessed: &mut [u64],
    committed: &mut [u64],
    index: &mut [u64],
    out: &mut [u8],
) -> io::Result<()> {
    let log = Log {
        exponent: call.exponent,
        image,
        used: call.used,
    };
    let page = page::recovery_page(
        &log,
        call.size,
        call.own,
        pending,
        unprocessed,
        committed,
        index,
        out,
    );
    number(rt, u64::from(number_of(&page.recovered)))?;
    show_length(rt, page.length, out)?;
    show_tables(rt, pending, unprocessed, committed, index)?;
    show_text(rt, call.shown, page.length, out)
}

// Lends the tables, each as long as the case says.
fn run_recovery(rt: &impl Print, call: Call, image: &[u8], out: &mut [u8]) -> io::Result<()> {
    let mut pending = [7u64; WORDS];
    let mut unprocessed = [7u64; WORDS];
    let mut committed = [7u64; WORDS];
    let mut index = [7u64; WORDS];
    ask_recovery(
        rt,
        call,
        image,
        &mut pending[..WORDS.min(call.pending as usize)],
        &mut unprocessed[..WORDS.min(call.unprocessed as usize)],
        &mut committed[..WORDS.min(call.committed as usize)],
        &mut index[..WORDS.min(call.index as usize)],
        out,
    )
}

// Lends the buffer, as long as the case says.
fn run(rt: &impl Print, call: Call, bytes: &[u8], text: &mut [u8]) -> io::Result<()> {
    let n = text.len().min(call.room as usize);
    let out = &mut text[..n];
    if call.form == 0 {
        ask_input(rt, call, bytes, out)
    } else {
        run_recovery(rt, call, bytes, out)
    }
}

// ---- The cases

fn call_at(s: &[u8], at: usize) -> Call {
    Call {
        form: number_at(s, at),
        shown: number_at(s, plus(at, 8)),
        room: number_at(s, plus(at, 16)),
        exponent: number_at(s, plus(at, 24)),
        used: number_at(s, plus(at, 32)),
        size: number_at(s, plus(at, 40)),
        own: number_at(s, plus(at, 48)),
        pending: number_at(s, plus(at, 56)),
        unprocessed: number_at(s, plus(at, 64)),
        committed: number_at(s, plus(at, 72)),
        index: number_at(s, plus(at, 80)),
    }
}

// The case at `at`, and the place behind it.
fn show_case(rt: &impl Print, s: &[u8], at: usize) -> io::Result<usize> {
    let name = plus(at, 88);
    let bytes = behind(s, name);
    rt.write_all(bytes_at(s, name))?;
    print!(rt; ":")?;
    let mut text = [7u8; TEXT];
    run(rt, call_at(s, at), bytes_at(s, bytes), &mut text)?;
    Ok(behind(s, bytes))
}

fn main(rt: HostRuntime) -> io::Result<()> {
    case_lines::run_cases::<524288, _>(&rt, show_case)
}
