// Why a call is refused: the table of document 01, "What a call answers", with its numbers.
#![tactic(auto)]

ghost use Rattle.std.specs.Prelude.{◌≡◌};
ghost use Rattle.refusal.specs.Refusals.{number, number_of};

// Each with the number of its row in the table.
#[derive(Clone, Copy, Debug, PartialEq, Eq)]
pub enum Refusal {
    // 1: the region exponent is not 6 to 28.
    RegionExponent = 1,
    // 2: the log's length exceeds the image or 2^40.
    Used,
    // 3: the payload and its header exceed a region.
    EntryTooLarge,
    // 4: padding and entry pass the image's end or 2^40.
    ImageFull,
    // 5: a header has length 0 and a checksum.
    ChecksumWithoutLength,
    // 6: a header's length is 1 to 15, or passes its region's end.
    Length,
    // 7: the checksum is not the payload's.
    Checksum,
    // 8: the tag is not 1 to 5, or in a lookup neither 1 nor 3.
    Tag,
    // 9: a block does not decode.
    Block,
    // 10: an own block does not decode.
    OwnBlock,
    // 11: a payload that is still pending does not decode.
    Payload,
    // 12: a commit does not decode.
    Commit,
    // 13: a block's authority is not in the committee.
    Authority,
    // 14: the own authority has a block in this round already.
    SecondOwnBlock,
    // 15: a table needs more rows than were lent.
    Rows,
    // 16: no entry stands at this position.
    NoEntry,
    // 17: the position, or the entry there, passes the log's end.
    PastUsed,
    // 18: the committee, the own authority or the index rows.
    Store,
    // 19: there is no round after 2^64 - 1.
    AfterRound,
}

impl Refusal {
    pub fn number(self) -> u8
        ensures { result ≡ number self }
    {
        self as u8
    }
}

// The number that a call answers: 0 where it is not refused.
#[tactic(auto, unfolding(crate::specs::Refusals::number_of))]
pub fn number_of<T>(answer: &Result<T, Refusal>) -> u8
    ensures { result ≡ number_of answer.now }
{
    match answer {
        Ok(_) => 0,
        Err(refusal) => refusal.number(),
    }
}
