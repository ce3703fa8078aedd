// The refusals, and the rows of the table that they stand for.
ghost use Rattle.std.specs.Prelude.{◌≡◌, Some};
ghost use Rattle.refusals.specs.Rows.{row_of};
ghost use Rattle.refusals.specs.Words.{words_of};

use std::error::Error;
use std::fmt;

// Why a call was refused. It did nothing then: what was lent is as it was
#[derive(Clone, Copy, Debug, PartialEq, Eq)]
pub enum Refusal {
    ReceiverGridLength, // 1: the receiver's grid has not 20,000 bytes
    ImpossibleState, // 2: no receiver is ever in this state
    PartNumber, // 31: no part has this number
    HeaderOrModes, // 32: the header or the modes break a rule
    Payload, // 33: the payload is of another length, or breaks a rule
    OutputLength, // 34: the output is too short
    MeshOrLevel, // 41: no mesh, or no level, has this number
    GridLength, // 42: a grid has not 20,000 bytes
    Level15, // 43: a grid has a mesh at level 15
}

// The row of the table
pub fn row_of(refusal: Refusal) -> u8
    ensures { result ≡ row_of refusal }
{
    match refusal {
        Refusal::ReceiverGridLength => 1,
        Refusal::ImpossibleState => 2,
        Refusal::PartNumber => 31,
        Refusal::HeaderOrModes => 32,
        Refusal::Payload => 33,
        Refusal::OutputLength => 34,
        Refusal::MeshOrLevel => 41,
        Refusal::GridLength => 42,
        Refusal::Level15 => 43,
    }
}

impl From<Refusal> for u8 {
    ghost from_gives = { λ refusal n. n ≡ row_of refusal };

    fn from(refusal: Refusal) -> u8 {
        row_of(refusal)
    }
}

impl fmt::Display for Refusal {
    ghost output = { λ refusal. Some (words_of refusal) };

    fn fmt<W: fmt::Write>(&self, f: &mut fmt::Formatter<W>) -> fmt::Result {
        f.write_str(match self {
            Refusal::ReceiverGridLength => "the receiver's grid has not 20,000 bytes",
            Refusal::ImpossibleState => "no receiver is ever in this state",
            Refusal::PartNumber => "no part has this number",
            Refusal::HeaderOrModes => "the header or the modes break a rule",
            Refusal::Payload => "the payload is of another length, or breaks a rule",
            Refusal::OutputLength => "the output is too short",
            Refusal::MeshOrLevel => "no mesh, or no level, has this number",
            Refusal::GridLength => "a grid has not 20,000 bytes",
            Refusal::Level15 => "a grid has a mesh at level 15",
        })
    }
}

impl Error for Refusal {}
