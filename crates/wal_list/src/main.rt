// Lists a log: reads one byte, the region exponent, and then the image from standard input, and
// writes the listing to standard output.
#![tactic(auto)]

use std::io;

// One byte more than the listing takes, so that a longer input is seen to be longer.
const INPUT: usize = 65537;

// A line has at most 32 bytes for an entry of at least 16, and the last line at most 18.
const TEXT: usize = 131200;

fn main(rt: HostRuntime) -> io::Result<()> {
    let mut input = [0u8; INPUT];
    let n = case_lines::read_full(&mut rt.stdin(), &mut input)?;
    let mut text = [0u8; TEXT];
    let end = listing::list(&input[..n], &mut text);
    rt.write_all(&text[..end.min(text.len())])
}
