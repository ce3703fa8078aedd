// A byte of a text whose kind has been read, by its place.
ghost use Rattle.std.specs.Prelude.{◌≡◌, ◌<◌};
ghost use Rattle.receiver_rest_of_text.specs.RestOfText.{block_decided, expected_decided, text_decided};

use crate::last::last_decided;
use receiver_block_bytes::byte::enter_byte;
use receiver_decisions::decision::{Decision, drops, goes_on, quietly};
use receiver_state::answer::{Answer, Row};
use receiver_state::state::{Frame, State};
use text_lengths::block::block_length;

// A block byte from byte 3 on. Row 18: it breaks its rule.
// Notice 49, 4(1)(1-1)(c)(イ) to (エ), (d)(イ) and (ウ), 4(1)(1-2)(c)(エ) and (d)(ウ),
// 4(2)(c)(エ) and (d)(ウ)
#[tactic(auto, unfolding(crate::specs::RestOfText::block_decided))]
fn block_decided(s: State, b: u8) -> Decision
    requires { s.frame.place < 65535 }
    ensures { result ≡ block_decided s b }
{
    let Some(e) = enter_byte(s, b) else {
        return drops(s, Row::BlockByte);
    };
    // Stays two locals: an array that is a field goes into no literal straight
    let modes = e.modes;
    let digits = e.digits;
    let entered = State {
        header: e.header,
        modes,
        digits,
        ..s
    };
    let frame = Frame {
        place: s.frame.place + 1,
        check: s.frame.check ^ b,
        ..s.frame
    };
    goes_on(entered, frame, Answer::Quiet, e.effect)
}

// A byte behind the block that must be the expected one: the text goes on with this check byte, or the
// row drops. Notice 49, 4(1)(1-1)(c)(ア)
fn expected_decided(s: State, b: u8, expected: u8, check: u8, row: Row) -> Decision
    requires { s.frame.place < 65535 }
    ensures { result ≡ expected_decided s b expected check row }
{
    if b != expected {
        return drops(s, row);
    }
    let frame = Frame {
        place: s.frame.place + 1,
        check,
        ..s.frame
    };
    quietly(s, frame)
}

// From the kind on, by place: block, `FE` (row 19), check byte (row 20), `FF`.
// Notice 49, 4(1)(1-1)(b) and (c)(ア), 4(1)(1-2)(b), 4(2)(b)
#[tactic(auto, using(text_laws::proofs::KindTable::block_most), unfolding(crate::specs::RestOfText::text_decided, crate::specs::RestOfText::eor_decided, crate::specs::RestOfText::check_decided))]
pub fn text_decided(s: State, b: u8) -> Decision
    ensures { result ≡ text_decided s b }
{
    let f = s.frame;
    let block = block_length(f.kind);
    if f.place < block {
        return block_decided(s, b);
    }
    if f.place == block {
        return expected_decided(s, b, 0xFE, f.check ^ b, Row::NotFE);
    }
    if f.place == block + 1 {
        return expected_decided(s, b, f.check, f.check, Row::WrongCheckByte);
    }
    last_decided(s, b)
}
