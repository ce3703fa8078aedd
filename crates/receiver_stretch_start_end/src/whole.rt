// A whole start or end text, up to its last byte.
ghost use Rattle.std.specs.Prelude.{◌≡◌, take};
ghost use Rattle.receiver_stretches.specs.Run.{Passes};
ghost use Rattle.receiver_stretch_start_end.specs.Ahead.{start_entered, end_entered, framed, WholeOrNone, text_ahead};

use crate::between::{is_gap, is_idle};
use receiver_bytes_seen::seen::ends_opening;
use receiver_marks::marks::is_marked;
use receiver_state::state::{Frame, State};
use receiver_stretches::stretch::{StretchResult, state_behind};
use text::check::check_byte;
use text_end_block::read::read_end;
use text_kinds::table::kind_of;
use text_start_block::read::read_start;

// What a start text's block gives: its header enters. Notice 49, 4(1)(1-1)(c)(イ) and (d)(イ)
fn start_entered(s: State, text: &[u8; 34]) -> Option<State>
    ensures { result ≡ start_entered s text.now }
{
    let header = read_start(&text[..32])?;
    Some(State {
        header,
        modes: [0; 8],
        digits: [0; 12],
        ..s
    })
}

// What the block of the due end text gives: its modes enter. Notice 49, 4(1)(1-1)(c)(ウ) and (d)(イ)
fn end_entered(s: State, text: &[u8; 34]) -> Option<State>
    ensures { result ≡ end_entered s text.now }
{
    let f = s.frame;
    let header = s.header;
    let picture = text[1];
    let kind = text[2];
    if !is_gap(f) | (picture != header.picture) | (kind != kind_of(f.part, f.due)) {
        return None;
    }
    let modes = read_end(header.radars, &text[..32])?;
    Some(State { modes, ..s })
}

// The state behind a text's check byte, if `FE` and that byte stand behind the block.
// Notice 49, 4(1)(1-1)(c)(ア)
fn framed(s: State, text: &[u8; 34]) -> Option<State>
    ensures { result ≡ framed s text.now }
{
    let check = check_byte(&text[..32]);
    if (text[32] != 0xFE) | (text[33] != check) { // no whole text
        return None;
    }
    let behind = state_behind(s, 34, check, text);
    let frame = Frame {
        picture: text[1],
        kind: text[2],
        ..behind.frame
    };
    Some(State { frame, ..behind })
}

// The state behind a start text, or the due end text, that stands here whole from its `FD` on, up to its
// last byte, behind the opening, if its picture is marked (Request 101).
// Notice 49, 4(1)(1-1)(c)(ア), 5(1)
fn whole_text(s: State, bytes: &[u8]) -> Option<State>
    ensures { WholeOrNone s bytes.now result }
{
    let f = s.frame;
    let text = bytes.first_chunk::<34>()?;
    if !ends_opening(s.seen, f.count, 0xFD) {
        return None;
    }
    if !is_marked(s.marks, text[1]) {
        return None;
    }
    if is_idle(f) {
        return framed(start_entered(s, text)?, text);
    }
    framed(end_entered(s, text)?, text)
}

// Past such a text. Notice 49, 4(1)(1-1)(c)(ア), 5(1)
pub(crate) fn text_ahead(s: State, bytes: &[u8]) -> StretchResult
    ensures { Passes s (take (text_ahead s bytes.now) bytes.now) result }
{
    match whole_text(s, bytes) {
        Some(state) => StretchResult { state, at: 34 },
        None => StretchResult { state: s, at: 0 },
    }
}
