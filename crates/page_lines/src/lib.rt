// The lines of the recovery page, as text in a buffer that the caller lends. What does not fit is left out,
// and the answer is where the text would end.
#![tactic(auto)]

ghost use Rattle.std.specs.Prelude.{[], ◌∷◌, ◌++◌, ◌+◌, ◌-◌, ◌^◌, ◌≤◌, ◌<◌, ◌≡◌};
ghost use Rattle.laws.specs.Ascii.{line_feed};
ghost use Rattle.text.specs.Columns.{blanks};
ghost use Rattle.text.specs.Put.{Put};
ghost use Rattle.page_lines.specs.Lines.{heading, number_line};
ghost use Rattle.page_lines.specs.Words.{count_field, kind_field, row_text, foot_text};

use wal::Stop;

// The columns of a line.
const COLUMNS: usize = 72;

// The end of a line that began at `start`: blanks up to its last column, and the line feed.
fn put_end(out: &mut [u8], start: usize, at: usize) -> usize
    requires { (start ≤ at) × (at < 2 ^ 61) }
    ensures { Put at (blanks (72 - (at - start)) ++ (line_feed ∷ [])) out.old out.new result }
{
    let end = text::put_blanks(out, at, text::missing(COLUMNS, at - start));
    text::put_byte(out, end, b'\n')
}

// A number in 13 columns, and the blank behind it.
fn put_count(out: &mut [u8], at: usize, n: u64) -> usize
    requires { at < 2 ^ 60 }
    ensures put { Put at (count_field n) out.old out.new result }
    ensures upper_bound { result ≤ at + 21 }
{
    let end = text::put_right(out, at, 13, n);
    text::put_byte(out, end, b' ')
}

pub fn put_heading(out: &mut [u8], at: usize) -> usize
    requires { at < 2 ^ 59 }
    ensures put { Put at heading out.old out.new result }
    ensures value { result ≡ at + 73 }
{
    let end = text::put_bytes(out, at, b"PENDING");
    put_end(out, at, end)
}

// The line of a refused recovery.
pub fn put_number_line(out: &mut [u8], number: u8) -> usize
    ensures { Put 0 (number_line number) out.old out.new result }
{
    let end = text::put_right(out, 0, 13, u64::from(number));
    put_end(out, 0, end)
}

pub fn put_foot(
    out: &mut [u8],
    at: usize,
    pending: u64,
    unprocessed: u64,
    committed: u64,
    stop: Stop,
) -> usize
    requires { at < 2 ^ 59 }
    ensures put { Put at (foot_text pending unprocessed committed stop) out.old out.new result }
    ensures value { result ≡ at + 73 }
{
    let second = put_count(out, at, pending);
    let third = put_count(out, second, unprocessed);
    let fourth = put_count(out, third, committed);
    let end = listing::put_word(out, fourth, stop);
    put_end(out, at, end)
}

// Kind, author and round. A payload, of kind 2, leaves author and round blank.
fn put_kind(out: &mut [u8], at: usize, kind: u64, author: u64, round: u64) -> usize
    requires { at < 2 ^ 60 }
    ensures put { Put at (kind_field kind author round) out.old out.new result }
    ensures upper_bound { result ≤ at + 50 }
{
    if kind == 2 {
        let third = text::put_left(out, at, 8, b"payload");
        return text::put_blanks(out, third, 25);
    }
    let third = text::put_left(out, at, 8, b"block");
    let fourth = text::put_byte(out, third, b' ');
    let fifth = text::put_right(out, fourth, 3, author);
    let sixth = text::put_byte(out, fifth, b' ');
    text::put_right(out, sixth, 20, round)
}

// The line of a pending entry: position, kind, round and author are the first words of its row.
pub fn put_row(out: &mut [u8], at: usize, row: &[u64; 8]) -> usize
    requires { at < 2 ^ 59 }
    ensures put { Put at (row_text row.now) out.old out.new result }
    ensures value { result ≡ at + 73 }
{
    let [position, kind, round, author, ..] = *row;
    let second = put_count(out, at, position);
    let end = put_kind(out, second, kind, author, round);
    put_end(out, at, end)
}
