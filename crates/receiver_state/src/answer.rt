// Answers, and their numbers.
ghost use Rattle.std.specs.Prelude.{◌≡◌};
ghost use Rattle.receiver_state.specs.Meaning.{row_number, number_of};

use refusals::refusal::{Refusal, row_of};

// What dropped a part or a text: a row of 01's table
#[derive(Clone, Copy, Debug, PartialEq, Eq)]
pub enum Row {
    OpeningInText, // 11: an opening ends while a text is under way
    NotDueByte, // 12: part open, place 0, the byte is not the opening's due byte
    NoPictureCode, // 13: block byte 1 is no picture code
    NoKind, // 14: byte 2 is not one of the 18 kinds
    StartInPart, // 15: a start kind while a part is open
    NotDueKind, // 16: a data or end kind with no part open, or not the due one
    OtherPicture, // 17: due kind, other picture code than the start's
    BlockByte, // 18: a later block byte breaks its rule
    NotFE, // 19: the byte behind the block is not `FE`
    WrongCheckByte, // 20
    NotFF, // 21: the last byte is not `FF`
    NotHighestMode, // 22: an end text's `FF`, and status 2 is not the highest mode
    UnmarkedPicture, // 51: a listed code that is unmarked (Request 101)
}

// A call's answer, or its refusal. 01's numbers: 0 quiet, 1 part begun, 2 data text taken, 3
// complete, which tells the part's number (1 intensity, 2 echo top, 3 quality); 11 to 22 and 51
// (Request 101), the row that dropped; refusals 1 and 2.
#[derive(Clone, Copy, Debug, PartialEq, Eq)]
pub enum Answer {
    Quiet,
    Begun,
    Taken,
    Complete(u8),
    Dropped(Row),
    Refused(Refusal),
}

// 01's number of a row
pub fn row_number(row: Row) -> u8
    ensures { result ≡ row_number row }
{
    match row {
        Row::OpeningInText => 11,
        Row::NotDueByte => 12,
        Row::NoPictureCode => 13,
        Row::NoKind => 14,
        Row::StartInPart => 15,
        Row::NotDueKind => 16,
        Row::OtherPicture => 17,
        Row::BlockByte => 18,
        Row::NotFE => 19,
        Row::WrongCheckByte => 20,
        Row::NotFF => 21,
        Row::NotHighestMode => 22,
        Row::UnmarkedPicture => 51,
    }
}

impl From<Row> for u8 {
    ghost from_gives = { λ row n. n ≡ row_number row };

    fn from(row: Row) -> u8 {
        row_number(row)
    }
}

// 01's number of an answer; a refusal's is that of its row
pub fn number_of(a: Answer) -> u8
    ensures { result ≡ number_of a }
{
    match a {
        Answer::Quiet => 0,
        Answer::Begun => 1,
        Answer::Taken => 2,
        Answer::Complete(_) => 3,
        Answer::Dropped(row) => row_number(row),
        Answer::Refused(refusal) => row_of(refusal),
    }
}

impl From<Answer> for u8 {
    ghost from_gives = { λ answer n. n ≡ number_of answer };

    fn from(answer: Answer) -> u8 {
        number_of(answer)
    }
}
