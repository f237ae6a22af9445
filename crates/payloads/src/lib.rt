// Payloads, the lists of statements of tag 2 entries: every payload of at most 21 bytes as text, and a
// payload decoded and encoded again.
#![tactic(auto)]

ghost use Rattle.std.specs.Prelude.{◌≡◌, true, [], ◌++◌, ◌^◌, ◌≤◌, ◌<◌, length, get_or};
ghost use Rattle.laws.specs.Bytes.{le};
ghost use Rattle.laws.specs.Parse.{many};
ghost use Rattle.text.specs.Put.{Put};
ghost use Rattle.types.specs.Records.{statement};
ghost use Rattle.encode_blocks.specs.Whole.{is_whole};
ghost use Rattle.payloads.specs.Small.{share_payload, small_payloads, payload_line, ListSmall, PayloadAgain};

use bincode::decode_list;
use encode::EncodeError;
use statements::BaseStatement;

// The most bytes of a small payload, and of its statements, which stand behind their count.
const PAYLOAD_MAX: usize = 21;

const STATEMENTS_MAX: usize = 13;

// How many small payloads there are.
const COUNT: u64 = 258;

// Decodes the payload at the start of s and encodes it again, at the start of out. Bytes behind the
// payload are ignored, as its decoder ignores them.
pub fn payload_again(s: &[u8], out: &mut [u8]) -> Result<usize, EncodeError>
    ensures { PayloadAgain s.now out.old result out.new }
{
    let Some((statements, end)) = decode_list::<BaseStatement>(s, 0) else {
        return Err(EncodeError::Malformed);
    };
    encode_blocks::encode_payload(out, 0, &s[statements.at..end], statements.left as u64)
}

// Puts the line of the payload of some encoded statements.
fn put_payload(out: &mut [u8], at: usize, statements: &[u8], count: u64) -> usize
    requires at_bound { (at < 2 ^ 61) × (length statements.now ≤ 13) }
    requires statements_value { is_whole (many statement count) statements.now ≡ true }
    ensures { Put at (payload_line (le 8 count ++ statements.now)) out.old
        out.new result }
{
    let mut payload = [0u8; PAYLOAD_MAX];
    // They are whole statements and there is room, so that the encoder answers Ok.
    let Ok(end) = encode_blocks::encode_payload(&mut payload, 0, statements, count) else {
        return at;
    };
    let next = text::put_hex_bytes(out, at, &payload[..end]);
    text::put_bytes(out, next, b"\n")
}

// Puts the line of the payload whose only statement is a Share.
fn put_share(out: &mut [u8], at: usize, bytes: &[u8]) -> usize
    requires { (at < 2 ^ 61) × (length bytes.now ≤ 1) }
    ensures { Put at (payload_line (share_payload bytes.now)) out.old out.new result }
{
    let mut statement = [0u8; STATEMENTS_MAX];
    // There is room, so that the encoder answers Ok.
    let Ok(end) = encode::encode_share(&mut statement, 0, bytes) else {
        return at;
    };
    put_payload(out, at, &statement[..end], 1)
}

// Puts the line of the small payload i.
fn put_small(out: &mut [u8], at: usize, i: u64) -> usize
    requires { (at < 2 ^ 61) × (i < 258) }
    ensures { Put at (payload_line (get_or small_payloads i [])) out.old out.new result }
{
    match i {
        0 => put_payload(out, at, b"", 0),
        1 => put_share(out, at, b""),
        _ => put_share(out, at, &[(i - 2) as u8]),
    }
}

// Fills out with the small payloads, in hexadecimal and a line each. What does not fit is left out,
// and the answer is the length of the whole text.
pub fn list_small(out: &mut [u8]) -> usize
    ensures { ListSmall out.old result out.new }
{
    let mut at = 0;
    for i in 0..COUNT {
        at = put_small(out, at, i);
    }
    at
}
