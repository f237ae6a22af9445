// Runs the small example of each row of the refusal table that the log's calls can give, damaged entries, and the
// two logs of document 01 at every cut. The file `stdout` was made by tools/model/wal_cases.py, a model
// written from document 01.
#![tactic(auto)]

use case_lines::{blank, end_line, number, plus, refused, stop_word};
use std::io;
use wal::{Log, Refusal, RefusedAt, WalEntry, WalPosition, WalWriter, Walked};

fn show_appended(
    rt: &impl Print,
    appended: Result<(WalPosition, WalWriter), Refusal>,
) -> io::Result<()> {
    print!(rt; "append")?;
    match appended {
        Ok((position, writer)) => {
            number(rt, position.0)?;
            number(rt, writer.used)?;
        }
        Err(refusal) => refused(rt, refusal)?,
    }
    end_line(rt)
}

fn show_found(rt: &impl Print, found: Result<WalEntry, Refusal>) -> io::Result<()> {
    print!(rt; "read")?;
    match found {
        Ok(entry) => {
            number(rt, entry.position.0)?;
            number(rt, u64::from(entry.tag))?;
            number(rt, entry.len)?;
            number(rt, u64::from(entry.checksum))?;
        }
        Err(refusal) => refused(rt, refusal)?,
    }
    end_line(rt)
}

fn show_walked(rt: &impl Print, walked: Result<Walked, RefusedAt>) -> io::Result<()> {
    print!(rt; "walk")?;
    match walked {
        Ok(walk) => {
            blank(rt)?;
            stop_word(rt, walk.stop)?;
            number(rt, walk.end.0)?;
            number(rt, walk.unread)?;
        }
        Err(at) => {
            refused(rt, at.refusal)?;
            number(rt, at.start.0)?;
        }
    }
    end_line(rt)
}

// The three calls on one image.
fn show_calls(
    rt: &impl Print,
    k: u64,
    image: &mut [u8],
    used: u64,
    payload: &[u8],
    position: u64,
) -> io::Result<()> {
    let log = Log {
        exponent: k,
        image,
        used,
    };
    show_found(rt, wal::read(&log, WalPosition(position)))?;
    show_walked(rt, wal::walk(&log))?;
    let writer = WalWriter { exponent: k, used };
    show_appended(rt, wal::append(writer, image, 2, payload))
}

fn put(writer: WalWriter, image: &mut [u8], tag: u32, payload: &[u8]) -> WalWriter {
    match wal::append(writer, image, tag, payload) {
        Ok((_, next)) => next,
        Err(_) => writer,
    }
}

fn first_log(image: &mut [u8]) -> u64 {
    let empty = WalWriter {
        exponent: 6,
        used: 0,
    };
    let one = put(empty, image, 2, b"123456789");
    let two = put(one, image, 4, b"");
    put(two, image, 2, b"123456789").used
}

fn second_log(image: &mut [u8]) -> u64 {
    let empty = WalWriter {
        exponent: 6,
        used: 0,
    };
    let payload = [b'x'; 34];
    let one = put(empty, image, 1, &payload);
    put(one, image, 3, b"").used
}

// Rows 1 to 4.
fn append_rows(rt: &impl Print) -> io::Result<()> {
    let mut small = [0u8; 64];
    show_calls(rt, 5, &mut small, 0, b"", 0)?;
    show_calls(rt, 29, &mut small, 0, b"", 0)?;
    show_calls(rt, 6, &mut small, 65, b"", 0)?;
    let long = [b'x'; 49];
    show_calls(rt, 6, &mut small, 0, &long, 0)?;
    let mut short = [0u8; 88];
    let used = first_log(&mut short);
    number(rt, used)?;
    end_line(rt)?;
    show_calls(rt, 6, &mut short, 41, b"123456789", 0)?;
    let mut enough = [0u8; 89];
    show_calls(rt, 6, &mut enough, 41, b"123456789", 0)
}

// Rows 5 to 7, by a header in which one field is set.
fn header_rows(rt: &impl Print) -> io::Result<()> {
    let mut image = [0u8; 64];
    image[0] = 1;
    show_calls(rt, 6, &mut image, 16, b"", 0)?;
    image[8] = 15;
    show_calls(rt, 6, &mut image, 16, b"", 0)?;
    image[8] = 16;
    show_calls(rt, 6, &mut image, 16, b"", 0)?;
    image[8] = 65;
    show_calls(rt, 6, &mut image, 16, b"", 0)?;
    image[0] = 0;
    image[8] = 16;
    show_calls(rt, 6, &mut image, 16, b"", 0)?;
    image[4] = 1;
    show_calls(rt, 6, &mut image, 16, b"", 0)
}

// Rows 16 and 17, and what is there, in the first log.
fn read_rows(rt: &impl Print, image: &[u8], used: u64) -> io::Result<()> {
    let log = Log {
        exponent: 6,
        image,
        used,
    };
    for position in [0, 25, 41, 49, 64, 80, 88, 89] {
        show_found(rt, wal::read(&log, WalPosition(position)))?;
    }
    show_found(rt, wal::read(&log, WalPosition::MAX))
}

fn reads(rt: &impl Print) -> io::Result<()> {
    let mut image = [0u8; 128];
    let used = first_log(&mut image);
    read_rows(rt, &image, used)
}

fn show_damaged(rt: &impl Print, image: &[u8], used: u64, position: u64) -> io::Result<()> {
    let log = Log {
        exponent: 6,
        image,
        used,
    };
    show_found(rt, wal::read(&log, WalPosition(position)))?;
    show_walked(rt, wal::walk(&log))
}

// The first log with its first payload changed: the fifth byte, the first five, and the first four. Five may pass (crates/burst).
fn damaged_payloads(rt: &impl Print) -> io::Result<()> {
    let mut image = [0u8; 128];
    let used = first_log(&mut image);
    image[20] = 0x34;
    show_damaged(rt, &image, used, 0)?;
    image[16] = 0x70;
    image[17] = 0x34;
    image[18] = 0x42;
    image[19] = 0xef;
    show_damaged(rt, &image, used, 0)?;
    image[20] = b'5';
    show_damaged(rt, &image, used, 0)
}

// The same with what the checksum does not cover: a tag; a length of 0, and one past used; and the last header's length and checksum.
fn damaged_headers(rt: &impl Print) -> io::Result<()> {
    let mut image = [0u8; 128];
    let used = first_log(&mut image);
    image[12] = 3;
    show_damaged(rt, &image, used, 0)?;
    image[33] = 0;
    show_damaged(rt, &image, used, 25)?;
    image[72] = 26;
    show_damaged(rt, &image, used, 64)?;
    image[72] = 0;
    show_damaged(rt, &image, used, 64)?;
    for i in 64..68 {
        image[i] = 0;
    }
    show_damaged(rt, &image, used, 64)
}

fn show_listing(rt: &impl Print, input: &[u8]) -> io::Result<()> {
    let mut text = [0u8; 512];
    let end = listing::list(input, &mut text).min(text.len());
    rt.write_all(&text[..end])
}

fn show_cut(rt: &impl Print, c: usize, input: &[u8]) -> io::Result<()> {
    print!(rt; "cut")?;
    number(rt, c as u64)?;
    end_line(rt)?;
    show_listing(rt, input)
}

// The listing of each beginning of the input that holds the exponent.
fn show_cuts(rt: &impl Print, input: &[u8]) -> io::Result<()> {
    for cut in 0..input.len() {
        show_cut(rt, cut, &input[..cut + 1])?;
    }
    Ok(())
}

// An input of the listing: the exponent, and behind it the image, up to each place within used.
fn show_log(rt: &impl Print, image: &[u8; 128], used: u64) -> io::Result<()> {
    let mut input = [0u8; 129];
    input[0] = 6;
    input[1..].copy_from_slice(image);
    match input.get(..plus(used as usize, 1)) {
        Some(begun) => show_cuts(rt, begun),
        None => Ok(()),
    }
}

fn cuts(rt: &impl Print) -> io::Result<()> {
    let mut image = [0u8; 128];
    let first = first_log(&mut image);
    show_log(rt, &image, first)?;
    let mut other = [0u8; 128];
    let second = second_log(&mut other);
    show_log(rt, &other, second)
}

fn main(rt: HostRuntime) -> io::Result<()> {
    append_rows(&rt)?;
    header_rows(&rt)?;
    reads(&rt)?;
    damaged_payloads(&rt)?;
    damaged_headers(&rt)?;
    cuts(&rt)?;
    show_listing(&rt, b"")?;
    show_listing(&rt, &[0u8; 65537])
}
