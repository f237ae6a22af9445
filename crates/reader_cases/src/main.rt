// Writes a log with `append_to`, reads it and damaged copies of it with `next` of an iterator, and shows what
// `into_meta_statement` makes of each entry that is listed. The two calls are made through `append_through` and
// `step_through`.
//
// The file `stdout` was made by tools/model/reader_cases.py, a model written from document 01.
#![tactic(auto)]

use case_lines::{blank, end_line, hex, number, part, refused, stop_word};
use meta_statement::MetaStatement;
use std::io;
use wal::{Log, Refusal, WalEntry, WalPosition, WalWriter, WalkStep};
use wal_iterator::Stepped;

// ---- Writing a log

fn show_place(rt: &impl Print, place: Result<WalPosition, Refusal>, used: u64) -> io::Result<()> {
    print!(rt; "append")?;
    match place {
        Ok(position) => number(rt, position.0)?,
        Err(refusal) => refused(rt, refusal)?,
    }
    print!(rt; " used")?;
    number(rt, used)?;
    end_line(rt)
}

// Appends, shows the answer and the writer's used, and gives the writer back.
fn put(
    rt: &impl Print,
    writer: WalWriter,
    image: &mut [u8],
    tag: u32,
    payload: &[u8],
) -> io::Result<WalWriter> {
    let moved = wal_iterator::append_through(writer, image, tag, payload);
    show_place(rt, moved.place, moved.writer.used)?;
    Ok(moved.writer)
}

// A block of authority 2 in round 3, without includes or statements.
fn block() -> [u8; 161] {
    let mut b = [0u8; 161];
    b[0] = 2;
    b[8] = 3;
    b[16] = 32;
    b[24] = 0xab;
    b[55] = 0xcd;
    b[89] = 64;
    b[97] = 1;
    b
}

// The same with an epoch marker that is no bool.
fn bad_block() -> [u8; 161] {
    let mut b = block();
    b[88] = 2;
    b
}

// An own block: the next entry, 5, and a block of authority 1 in round 4.
fn own_block() -> [u8; 169] {
    let mut b = [0u8; 169];
    b[0] = 5;
    b[8] = 1;
    b[16] = 4;
    b[24] = 32;
    b[97] = 64;
    b
}

// A payload with one Share, of the bytes `abc`.
fn share() -> [u8; 23] {
    let mut p = [0u8; 23];
    p[0] = 1;
    p[12] = 3;
    p[20] = b'a';
    p[21] = b'b';
    p[22] = b'c';
    p
}

// The first region, of 256 bytes: a payload, a block, and a payload that does not decode.
fn first_region(rt: &impl Print, image: &mut [u8]) -> io::Result<WalWriter> {
    let empty = WalWriter {
        exponent: 8,
        used: 0,
    };
    let one = put(rt, empty, image, 2, &share())?;
    let two = put(rt, one, image, 1, &block())?;
    put(rt, two, image, 2, b"1234567")
}

// The second: a block that does not decode, an empty entry, and a payload too long for a region, which is refused.
fn second_region(rt: &impl Print, writer: WalWriter, image: &mut [u8]) -> io::Result<WalWriter> {
    let one = put(rt, writer, image, 1, &bad_block())?;
    let two = put(rt, one, image, 4, b"")?;
    let long = [b'x'; 241];
    put(rt, two, image, 2, &long)
}

// The third: an own block, an entry of a tag that stands for nothing, and a payload of no statement.
fn third_region(rt: &impl Print, writer: WalWriter, image: &mut [u8]) -> io::Result<WalWriter> {
    let one = put(rt, writer, image, 3, &own_block())?;
    let two = put(rt, one, image, 6, b"123456789")?;
    put(rt, two, image, 2, &[0u8; 8])
}

// Appends that are refused: the image has no room, the exponent is too low, used is past the image.
fn refused_appends(rt: &impl Print, writer: WalWriter, image: &mut [u8]) -> io::Result<()> {
    put(rt, writer, image, 1, &block())?;
    let low = WalWriter {
        exponent: 5,
        used: 0,
    };
    put(rt, low, image, 2, b"")?;
    let past = WalWriter {
        exponent: 8,
        used: 801,
    };
    put(rt, past, image, 2, b"")?;
    Ok(())
}

// The log, and the length that it has.
fn write_log(rt: &impl Print, image: &mut [u8]) -> io::Result<u64> {
    let one = first_region(rt, image)?;
    let two = second_region(rt, one, image)?;
    let three = third_region(rt, two, image)?;
    refused_appends(rt, three, image)?;
    Ok(three.used)
}

// ---- Reading it

// A reference's authority and round and its digest's checksum; a payload's number of statements, and where the
// first stands in it.
fn show_meta(rt: &impl Print, statement: Option<MetaStatement>) -> io::Result<()> {
    match statement {
        None => print!(rt; "nothing")?,
        Some(MetaStatement::Include(reference)) => {
            print!(rt; "include {} {}", reference.authority, reference.round)?;
            hex(rt, u64::from(checksum::hash(&reference.digest.0)), 8)?;
        }
        Some(MetaStatement::Payload(statements)) => {
            print!(rt; "payload {} {}", statements.left, statements.at)?;
        }
    }
    end_line(rt)
}

fn show_entry(rt: &impl Print, image: &[u8], entry: WalEntry, end: WalPosition) -> io::Result<()> {
    number(rt, entry.position.0)?;
    number(rt, u64::from(entry.tag))?;
    number(rt, entry.len)?;
    hex(rt, u64::from(entry.checksum), 8)?;
    show_end(rt, end)?;
    let start = entry.position.add(16);
    let payload = part(image, start.0 as usize, end.0 as usize);
    show_meta(rt, meta_statement::into_meta_statement(entry.tag, payload))
}

fn show_end(rt: &impl Print, end: WalPosition) -> io::Result<()> {
    print!(rt; " E")?;
    number(rt, end.0)?;
    end_line(rt)
}

// What a step answered, and E after it.
fn show_step(rt: &impl Print, image: &[u8], stepped: Stepped) -> io::Result<()> {
    let Stepped {
        step,
        position: end,
    } = stepped;
    print!(rt; "next")?;
    match step {
        Ok(WalkStep::Entry(entry)) => show_entry(rt, image, entry, end),
        Ok(WalkStep::Stopped(stop)) => {
            blank(rt)?;
            stop_word(rt, stop)?;
            show_end(rt, end)
        }
        Err(at) => {
            refused(rt, at.refusal)?;
            number(rt, at.start.0)?;
            show_end(rt, end)
        }
    }
}

// The steps of an iterator from the log's start up to its stop or refusal, and E then.
fn show_steps(rt: &impl Print, log: &Log<'_>) -> io::Result<WalPosition> {
    let mut e = WalPosition(0);
    loop {
        let stepped = wal_iterator::step_through(log, e);
        show_step(rt, log.image, stepped)?;
        let step = match stepped.step {
            Ok(step) => step,
            Err(_) => return Ok(stepped.position),
        };
        let WalkStep::Entry(_) = step else {
            return Ok(stepped.position);
        };
        e = stepped.position;
    }
}

// The same, and one step more: the iterator is where the stop or refusal left it, and answers the same again.
fn show_log(rt: &impl Print, k: u64, image: &[u8], used: u64) -> io::Result<()> {
    print!(rt; "log")?;
    number(rt, k)?;
    number(rt, used)?;
    end_line(rt)?;
    let log = Log {
        exponent: k,
        image,
        used,
    };
    let e = show_steps(rt, &log)?;
    show_step(rt, image, wal_iterator::step_through(&log, e))
}

// The log at some cuts, and with an exponent and a used that every call refuses.
fn show_cuts(rt: &impl Print, image: &[u8], used: u64) -> io::Result<()> {
    for cut in [used, 700, 600, 500, 440, 0] {
        show_log(rt, 8, image, cut)?;
    }
    show_log(rt, 5, image, used)?;
    show_log(rt, 8, image, 801)
}

fn main(rt: HostRuntime) -> io::Result<()> {
    let mut image = [0u8; 800];
    let used = write_log(&rt, &mut image)?;
    show_cuts(&rt, &image, used)?;
    // The second entry's payload, its length, and its length with a checksum that is not 0.
    image[70] = 1;
    show_log(&rt, 8, &image, used)?;
    image[47] = 15;
    show_log(&rt, 8, &image, used)?;
    image[47] = 0;
    show_log(&rt, 8, &image, used)
}
