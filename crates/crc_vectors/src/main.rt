// Runs the checksum on published and independently computed vectors, and writes one line for each:
// the checksum in eight hexadecimal digits. The file `stdout` has what they should be: the check
// value 123456789 of the CRC catalogue (CRC-32/ISO-HDLC), the vectors that are published with zlib's
// and other CRC-32 libraries, and for the rest what zlib computes (tools/model/crc_vectors.py).
#![tactic(auto)]

use std::io;

fn show(rt: &impl Print, bytes: &[u8]) -> io::Result<()> {
    println!(rt; "{:08x}", checksum::hash(bytes))
}

fn show_first(rt: &impl Print, n: usize, bytes: &[u8]) -> io::Result<()> {
    if n <= bytes.len() {
        show(rt, &bytes[..n])?;
    }
    Ok(())
}

// The bytes start, start + step, .. modulo 256.
fn fill(bytes: &mut [u8], start: u8, step: u8) {
    let mut b = start;
    for byte in bytes.iter_mut() {
        *byte = b;
        b = b.wrapping_add(step);
    }
}

fn texts(rt: &impl Print) -> io::Result<()> {
    show(rt, b"123456789")?;
    show(rt, b"")?;
    show(rt, b"a")?;
    show(rt, b"abc")?;
    show(rt, b"message digest")?;
    show(rt, b"abcdefghijklmnopqrstuvwxyz")?;
    show(
        rt,
        b"ABCDEFGHIJKLMNOPQRSTUVWXYZabcdefghijklmnopqrstuvwxyz0123456789",
    )?;
    show(
        rt,
        b"12345678901234567890123456789012345678901234567890123456789012345678901234567890",
    )?;
    show(rt, b"The quick brown fox jumps over the lazy dog")
}

fn bytes(rt: &impl Print) -> io::Result<()> {
    show(rt, &[0u8; 1])?;
    show(rt, &[0xffu8; 1])?;
    show(rt, &[0u8; 4])?;
    show(rt, &[0xffu8; 4])?;
    show(rt, &[0u8; 32])?;
    show(rt, &[0xffu8; 32])
}

fn ascending(rt: &impl Print) -> io::Result<()> {
    let mut short = [0u8; 32];
    fill(&mut short, 0, 1);
    show(rt, &short)?;
    fill(&mut short, 31, 255);
    show(rt, &short)?;
    let mut all = [0u8; 256];
    fill(&mut all, 0, 1);
    show(rt, &all)
}

fn long(rt: &impl Print) -> io::Result<()> {
    let mut zeros = [0u8; 65536];
    show(rt, &zeros)?;
    fill(&mut zeros, 7, 13);
    show(rt, &zeros)?;
    show_first(rt, 65521, &zeros)
}

// Bytes of which no two runs of 256 are alike, so that no lane is fed what another one is.
fn fill_apart(bytes: &mut [u8]) {
    for (i, byte) in bytes.iter_mut().enumerate() {
        *byte = ((i % 256 * 167 + i / 256 % 256 * 59) % 256) as u8;
    }
}

// Each number of octets at which blocks of eight lanes begin, one less and one more, and some that have blocks of each length.
fn show_lengths(rt: &impl Print, bytes: &[u8]) -> io::Result<()> {
    for n in [
        63, 64, 65, 127, 128, 129, 255, 256, 257, 1023, 1024, 1025, 1535, 8191, 8192,
    ] {
        show_first(rt, n, bytes)?;
    }
    Ok(())
}

fn lengths(rt: &impl Print) -> io::Result<()> {
    let mut apart = [0u8; 8192];
    fill_apart(&mut apart);
    show_lengths(rt, &apart)
}

fn main(rt: HostRuntime) -> io::Result<()> {
    texts(&rt)?;
    bytes(&rt)?;
    ascending(&rt)?;
    long(&rt)?;
    lengths(&rt)
}
