// The recovery page: what is pending in a log, for the office wall, as text in a buffer that the caller
// lends. What does not fit is left out, and the answer is the length of the whole text.
#![tactic(auto)]

ghost use Rattle.std.specs.Prelude.{◌≤◌};
ghost use Rattle.text.specs.Put.{Put};
ghost use Rattle.wal_position.specs.Logs.{of_log};
ghost use Rattle.replay_log.specs.Answers.{tables};
ghost use Rattle.page_text.specs.Page.{input_page};
ghost use Rattle.page.specs.Answers.{FillsRecoveryPage};

use page_lines::put_number_line;
use refusal::Refusal;
use rows::rows_of;
use wal::Log;

// The most bytes of input: exponent, committee size, own authority and the image.
const INPUT_MAX: usize = 65536;

// The words of a table of 4,096 rows.
const TABLE_WORDS: usize = 32768;

// Whether the recovery was accepted, and the length of the whole text.
#[derive(Clone, Copy)]
pub struct Paged {
    pub recovered: Result<(), Refusal>,
    pub length: usize,
}

// Recovers what a log holds, as `recovery::recover` does into the same tables, and fills out with the page:
// what is pending, or the number of a refusal.
pub fn recovery_page(
    log: &Log<'_>,
    size: u64,
    own: u64,
    pending: &mut [u64],
    unprocessed: &mut [u64],
    committed: &mut [u64],
    index: &mut [u64],
    out: &mut [u8],
) -> Paged
    ensures { of_log FillsRecoveryPage log.now size own
        (tables pending.old unprocessed.old committed.old index.old)
        out.old result
        (tables pending.new unprocessed.new committed.new index.new)
        out.new }
{
    let r = recovery::recover(log, size, own, pending, unprocessed, committed, index);
    let replay = r.replay;
    match r.walked {
        Ok(walked) => {
            let length = page_put::put_pages(
                out,
                rows_of(pending, replay.pending),
                replay.blocks.unprocessed,
                replay.committed,
                walked.stop,
            );
            Paged {
                recovered: Ok(()),
                length,
            }
        }
        Err(at) => {
            let length = put_number_line(out, at.refusal.number());
            Paged {
                recovered: Err(at.refusal),
                length,
            }
        }
    }
}

// Fills out with the page of an input: exponent, committee size and own authority, a byte each, and the
// image. Its tables, 1 MiB in all, are on the stack.
pub fn input_page(input: &[u8], out: &mut [u8]) -> usize
    ensures put { Put 0 (input_page input.now) out.old out.new result }
    ensures upper_bound { result ≤ 309301 }
{
    if INPUT_MAX < input.len() {
        return put_number_line(out, Refusal::Used.number());
    }
    let [exponent, size, own, image @ ..] = input else {
        return put_number_line(out, Refusal::RegionExponent.number());
    };
    let log = Log {
        exponent: u64::from(*exponent),
        image,
        used: image.len() as u64,
    };
    let mut pending = [0; TABLE_WORDS];
    let mut unprocessed = [0; TABLE_WORDS];
    let mut committed = [0; TABLE_WORDS];
    let mut index = [0; TABLE_WORDS];
    let page = recovery_page(
        &log,
        u64::from(*size),
        u64::from(*own),
        &mut pending,
        &mut unprocessed,
        &mut committed,
        &mut index,
        out,
    );
    page.length
}
