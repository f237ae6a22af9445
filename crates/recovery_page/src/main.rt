// Prints the recovery page: reads the region exponent, the committee size and the own authority, a
// byte each, and then the image from standard input, and writes the page to standard output.
//
// `stdin` and `stdout` were made by tools/model/page_cases.py, a model written from the documents.
#![tactic(auto)]

use std::io;

// One byte more than the page takes, so that a longer input is seen to be longer.
const INPUT: usize = 65537;

// The longest text that the call's contract allows: 4,237 lines of 73 bytes.
const TEXT: usize = 309301;

fn main(rt: HostRuntime) -> io::Result<()> {
    let mut input = [0u8; INPUT];
    let n = case_lines::read_full(&mut rt.stdin(), &mut input)?;
    let mut text = [0u8; TEXT];
    let end = page::input_page(&input[..n], &mut text);
    rt.write_all(&text[..end])
}
