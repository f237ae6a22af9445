// Text into a buffer that the caller lends, as C's snprintf writes it: what does not fit is left out,
// and the answer is where the text would end.
#![tactic(auto)]

ghost use Rattle.std.specs.Prelude.{◌+◌, ◌-◌, ◌≤◌, ◌<◌, ◌%◌, ◌^◌, ◌≡◌, [], ◌∷◌, length};
ghost use Rattle.text.specs.Clipped.{clipped};
ghost use Rattle.text.specs.Digits.{decimal, hex_digit, hex_digits, hex8, hex_bytes};
ghost use Rattle.text.specs.Columns.{blanks, right, left};
ghost use Rattle.text.specs.Put.{Put};

// Puts the byte b at index at.
pub fn put_byte(out: &mut [u8], at: usize, b: u8) -> usize
    requires { at < 2 ^ 63 }
    ensures { Put at (b ∷ []) out.old out.new result }
{
    store(out, at, b);
    at + 1
}

// Puts text from index at on.
pub fn put_bytes(out: &mut [u8], at: usize, text: &[u8]) -> usize
    requires { at < 2 ^ 63 }
    ensures { Put at text.now out.old out.new result }
{
    for (i, b) in text.iter().enumerate() {
        store(out, at + i, *b);
    }
    at + text.len()
}

// Puts n in decimal, from index at on. The calls of itself are fewer than the digits of n.
pub fn put_decimal(out: &mut [u8], at: usize, n: u64) -> usize
    requires { at < 2 ^ 63 }
    ensures { Put at (decimal n) out.old out.new result }
{
    if n < 10 {
        return put_byte(out, at, 48 + n as u8);
    }
    let next = put_decimal(out, at, n / 10);
    store(out, next, 48 + (n % 10) as u8);
    next + 1
}

// Puts the last `digits` hexadecimal digits of n, from index at on.
fn put_hex(out: &mut [u8], at: usize, n: u32, digits: usize) -> usize
    requires { (at < 2 ^ 63) × (digits ≤ 8) }
    ensures { Put at (hex_digits digits n) out.old out.new result }
{
    for done in 0..digits {
        let left = digits - 1 - done;
        store(out, at + done, hex_digit(n >> (4 * left)));
    }
    at + digits
}

// Puts n as eight hexadecimal digits, from index at on.
pub fn put_hex8(out: &mut [u8], at: usize, n: u32) -> usize
    requires { at < 2 ^ 63 }
    ensures { Put at (hex8 n) out.old out.new result }
{
    put_hex(out, at, n, 8)
}

// Puts each byte as two hexadecimal digits, from index at on.
pub fn put_hex_bytes(out: &mut [u8], at: usize, bytes: &[u8]) -> usize
    requires { (at < 2 ^ 61) × (length bytes.now < 2 ^ 61) }
    ensures { Put at (hex_bytes bytes.now) out.old out.new result }
{
    let mut next = at;
    for b in bytes {
        next = put_hex(out, next, u32::from(*b), 2);
    }
    next
}

// ---- Columns

// Puts n blanks, from index at on.
pub fn put_blanks(out: &mut [u8], at: usize, n: usize) -> usize
    requires { (at < 2 ^ 62) × (n < 2 ^ 62) }
    ensures { Put at (blanks n) out.old out.new result }
{
    for i in 0..n {
        store(out, at + i, b' ');
    }
    at + n
}

// How many blanks fill text of `len` bytes up to `width` columns: none where it is wider.
pub fn missing(width: usize, len: usize) -> usize
    ensures { result ≡ width - len }
{
    width.saturating_sub(len)
}

// How many decimal digits n has.
fn count_digits(n: u64) -> usize
    ensures { result ≡ length (decimal n) }
{
    // Kept: a loop that divides by ten, since there is no range or list of elements to go over.
    let mut count = 1;
    let mut left = n;
    while 10 <= left {
        count += 1;
        left /= 10;
    }
    count
}

// Puts n in decimal, to the right in `width` columns, from index at on. A wider number is put whole.
pub fn put_right(out: &mut [u8], at: usize, width: usize, n: u64) -> usize
    requires { (at < 2 ^ 61) × (width < 2 ^ 61) }
    ensures { Put at (right width (decimal n)) out.old out.new result }
{
    let start = put_blanks(out, at, missing(width, count_digits(n)));
    put_decimal(out, start, n)
}

// Puts a word to the left in `width` columns, from index at on. A wider word is put whole.
pub fn put_left(out: &mut [u8], at: usize, width: usize, word: &[u8]) -> usize
    requires { (at < 2 ^ 60) × (width < 2 ^ 60) × (length word.now < 2 ^ 60) }
    ensures { Put at (left width word.now) out.old out.new result }
{
    let end = put_bytes(out, at, word);
    put_blanks(out, end, missing(width, word.len()))
}

// ---- Bytes and digits

// Stores b at index at, unless the buffer ends before it.
fn store(out: &mut [u8], at: usize, b: u8)
    ensures { out.new ≡ clipped out.old at (b ∷ []) }
{
    // Kept: an index under an if. After a write through `out.get_mut(at)` nothing is known of the buffer: its proof did not close.
    if at < out.len() {
        out[at] = b;
    }
}

// The hexadecimal digit of the low four bits of n.
fn hex_digit(n: u32) -> u8
    ensures { result ≡ hex_digit (n % 16) }
{
    let d = (n % 16) as u8;
    if d < 10 { 48 + d } else { 87 + d }
}
