// Words that a caller lends, as rows of eight: a key of six, and two of value.
#![tactic(auto)]

ghost use Rattle.std.specs.Prelude.{◌≡◌, ◌*◌, ◌≤◌, length};
ghost use Rattle.rows.specs.Rows.{rows_of, key, compared, Ascending, place_of, leading_below};

use std::cmp::Ordering;

// The first `count` rows of the words, as arrays.
pub fn rows_of(t: &[u64], count: usize) -> &[[u64; 8]]
    requires { 8 * count ≤ length t.now }
    ensures { result.now ≡ rows_of count t.now }
{
    t[..8 * count].as_chunks().0
}

// The key of a row.
#[tactic(auto, using(crate::proofs::Rows::key_of_row))]
pub fn key(row: &[u64; 8]) -> [u64; 6]
    ensures { result ≡ key row.now }
{
    let [a, b, c, d, e, f, _, _] = *row;
    [a, b, c, d, e, f]
}

// Where the key of a row, its first six words, stands to k.
// Kept: a loop, since `cmp` of keys takes 1.30 s, and this 1.05 s, for 8 * 10^8 rows one after the other.
pub fn compare_key<const N: usize>(row: &[u64; N], k: &[u64; 6]) -> Ordering
    requires { 6 ≤ N }
    ensures { result ≡ compared (key row.now) k.now }
{
    for j in 0..6 {
        if row[j] < k[j] {
            return Ordering::Less;
        }
        if k[j] < row[j] {
            return Ordering::Greater;
        }
    }
    Ordering::Equal
}

// Finds k among ascending rows, or where it belongs. Keys mostly arrive in order, so the last row is
// looked at first.
pub fn find(rows: &[[u64; 8]], k: [u64; 6]) -> Result<usize, usize>
    requires { Ascending rows.now }
    ensures { result ≡ place_of k rows.now }
{
    let Some((last, before)) = rows.split_last() else {
        return Err(0);
    };
    match compare_key(last, &k) {
        Ordering::Less => Err(rows.len()),
        Ordering::Equal => Ok(before.len()),
        Ordering::Greater => before.binary_search_by(|row| compare_key(row, &k)),
    }
}

// The index of the first row whose first word is at least p, or the count where there is none.
pub fn position_of_first_from(rows: &[[u64; 8]], p: u64) -> usize
    ensures { result ≡ leading_below p rows.now }
{
    rows.iter()
        .position(|row| p <= row[0])
        .unwrap_or(rows.len())
}
