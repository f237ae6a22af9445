// Tables of rows that a caller lends: rows put, inserted, replaced, dropped, cleared. Lengths are in words,
// counts in rows. Each function asks that its rows lie within the table: its callers have tested that.
// Kept: words and a count, where what only reads takes rows. Room is lent behind the rows, and std does not
// say what the words are after a write through `as_chunks_mut`.
#![tactic(auto)]

ghost use Rattle.std.specs.Prelude.{◌≡◌, ◌++◌, ◌+◌, ◌-◌, ◌*◌, ◌≤◌, length};
ghost use Rattle.laws.specs.Bytes.{bytes_at, written, zeros};
ghost use Rattle.rows.specs.Rows.{rows_of, Ascending, leading_below};
ghost use Rattle.tables.specs.Tables.{has_room, pushed, dropped, upserted, upsert_count};

// Zeros the whole table.
pub fn clear(t: &mut [u64])
    ensures { t.new ≡ zeros (length t.old) }
{
    t.fill(0);
}

// Stores a row in the place of row i.
pub fn put_row(t: &mut [u64], i: usize, row: [u64; 8])
    requires { 8 * i + 8 ≤ length t.old }
    ensures { t.new ≡ written t.old (8 * i) row }
{
    t[8 * i..8 * i + 8].copy_from_slice(&row);
}

// Puts a row before row i: the rows from i on move up by one.
pub fn insert_row(t: &mut [u64], count: usize, i: usize, row: [u64; 8])
    requires { (i ≤ count) × (8 * count + 8 ≤ length t.old) }
    ensures { t.new ≡ written t.old (8 * i)
        (row ++ bytes_at t.old (8 * i) (8 * (count - i))) }
{
    t.copy_within(8 * i..8 * count, 8 * i + 8);
    put_row(t, i, row);
}

// Removes the first n rows: the others move down, and what they leave is zeroed.
pub fn drop_rows(t: &mut [u64], count: usize, n: usize)
    requires { (n ≤ count) × (8 * count ≤ length t.old) }
    ensures { t.new ≡ written t.old 0
        (bytes_at t.old (8 * n) (8 * (count - n)) ++ zeros (8 * n)) }
{
    t.copy_within(8 * n..8 * count, 0);
    t[8 * (count - n)..8 * count].fill(0);
}

// Stores a row behind the last one, and answers whether there is room for it.
pub fn push_row(t: &mut [u64], count: usize, row: [u64; 8]) -> bool
    requires { 8 * count ≤ length t.old }
    ensures value { result ≡ has_room (length t.old) count }
    ensures t_after { t.new ≡ pushed t.old count row }
{
    if t.len() - 8 * count < 8 {
        return false;
    }
    put_row(t, count, row);
    true
}

// Removes the leading rows whose first word is below p, and answers how many rows are left.
pub fn drop_before(t: &mut [u64], count: usize, p: u64) -> usize
    requires { 8 * count ≤ length t.old }
    ensures value { result ≡ count - leading_below p (rows_of count t.old) }
    ensures t_after { t.new ≡ dropped t.old count (leading_below p (rows_of count t.old)) }
{
    let n = rows::position_of_first_from(rows::rows_of(t, count), p);
    drop_rows(t, count, n);
    count - n
}

// Stores a row among ascending rows: in the place of the row with its key, or at the place of its key. Answers
// how many rows there are then, or `None` where there is no room.
pub fn upsert_row(t: &mut [u64], count: usize, row: [u64; 8]) -> Option<usize>
    requires { (8 * count ≤ length t.old) × Ascending (rows_of count t.old) }
    ensures value { result ≡ upsert_count t.old count row }
    ensures t_after { t.new ≡ upserted t.old count row }
{
    match rows::find(rows::rows_of(t, count), rows::key(&row)) {
        Ok(i) => {
            put_row(t, i, row);
            Some(count)
        }
        Err(i) => {
            if t.len() - 8 * count < 8 {
                return None;
            }
            insert_row(t, count, i, row);
            Some(count + 1)
        }
    }
}
