// The pages of the recovery page, put from the rows of a table into a buffer that the caller lends. What does
// not fit is left out, and the answer is where the text would end.
#![tactic(auto)]

ghost use Rattle.std.specs.Prelude.{map, ◌+◌, ◌*◌, ◌^◌, ◌≤◌, ◌<◌, ◌≡◌, length};
ghost use Rattle.laws.specs.Parse.{joined};
ghost use Rattle.text.specs.Put.{Put};
ghost use Rattle.page_lines.specs.Words.{row_text, foot_text};
ghost use Rattle.page_text.specs.Page.{page, pages};

use wal::Stop;

// The rows of a full page: 60 lines less the heading and the foot.
const PAGE_ROWS: usize = 58;

// The lines of rows.
fn put_rows(out: &mut [u8], at: usize, rows: &[[u64; 8]]) -> usize
    requires { (at < 2 ^ 58) × (length rows.now ≤ 2 ^ 40) }
    ensures put { Put at (joined row_text rows.now) out.old out.new result }
    ensures value { result ≡ at + 73 * length rows.now }
{
    let mut next = at;
    for row in rows {
        next = page_lines::put_row(out, next, row);
    }
    next
}

// A page with these rows, of `pending` in all.
fn put_page(
    out: &mut [u8],
    at: usize,
    rows: &[[u64; 8]],
    pending: usize,
    unprocessed: usize,
    committed: usize,
    stop: Stop,
) -> usize
    requires { (at < 2 ^ 57) × (length rows.now ≤ 2 ^ 40) }
    ensures put { Put at (page (foot_text pending unprocessed committed stop)
        (map row_text rows.now)) out.old out.new result }
    ensures value { result ≡ at + (73 * length rows.now + 146) }
{
    let body = page_lines::put_heading(out, at);
    let foot = put_rows(out, body, rows);
    page_lines::put_foot(
        out,
        foot,
        pending as u64,
        unprocessed as u64,
        committed as u64,
        stop,
    )
}

// The pages of all pending rows.
pub fn put_pages(
    out: &mut [u8],
    pending: &[[u64; 8]],
    unprocessed: usize,
    committed: usize,
    stop: Stop,
) -> usize
    requires { length pending.now ≤ 2 ^ 40 }
    ensures { Put 0 (pages (foot_text (length pending.now) unprocessed committed stop)
        (map row_text pending.now)) out.old out.new result }
{
    let mut at = 0;
    let mut rest = pending;
    loop {
        let (rows, later) = rest.split_at(rest.len().min(PAGE_ROWS));
        at = put_page(out, at, rows, pending.len(), unprocessed, committed, stop);
        if later.is_empty() {
            return at;
        }
        rest = later;
    }
}
