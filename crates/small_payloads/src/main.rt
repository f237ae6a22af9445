// Writes every payload of at most 21 bytes that decodes without trailing bytes to standard output, in
// hexadecimal, one a line, by length and then by unsigned byte order. Standard input is not read.
#![tactic(auto)]

use std::io;

// The length of the whole text.
const TEXT: usize = 11066;

fn main(rt: HostRuntime) -> io::Result<()> {
    let mut text = [0u8; TEXT];
    let end = payloads::list_small(&mut text);
    rt.write_all(&text[..end])
}
