// A block byte from byte 3 on, by its kind: whether it keeps its rule (01, row 18), and where it
// enters: header, waiting digits, modes or grid.
ghost use Rattle.std.specs.Prelude.{◌≡◌, ◌≢◌, true, false, ◌≤◌, ◌<◌, ◌+◌, ◌*◌, ◌-◌};
ghost use Rattle.text.specs.Kinds.{is_start_kind, is_end_kind, text_number, block_length};
ghost use Rattle.receiver_spec.specs.State.{no_digits};
ghost use Rattle.receiver_block_bytes.specs.BlockByte.{is_taken, entered, time_entered};

use crate::end::{end_takes, enter_modes};
use crate::start::{enter_header, start_takes};
use crate::time::{enter_digits, with_digit};
use receiver_state::grid::Effect;
use receiver_state::state::State;
use text::header::Header;
use text::payload::is_payload_byte;
use text_calendar::time::time_check;
use text_kinds::table::{is_end_kind, is_start_kind, part_of_kind, text_of_kind};
use text_lengths::block::block_length;

// What a block byte that keeps its rule leaves: header, modes and waiting digits with it, and its
// effect on the grid.
#[derive(Clone, Copy)]
pub struct Entered {
    pub header: Header,
    pub modes: [u8; 8],
    pub digits: [u8; 12],
    pub effect: Effect,
}

// Whether a byte lies within the block, from byte 3 on, and keeps its rule: by start, end or data
// block. Of a start block's bytes, byte 23 is asked elsewhere. Notice 49, 4(1)(1-1)(c)(イ) to (エ),
// (d)(イ) and (ウ), 4(1)(1-2)(c)(エ) and (d)(ウ), 4(2)(c)(エ) and (d)(ウ)
#[tactic(auto, using(text_laws::proofs::KindTable::start_block_length), unfolding(crate::specs::BlockByte::is_taken, receiver_spec::specs::Contents::takes_byte))]
fn is_taken(s: State, b: u8) -> bool
    requires { is_start_kind s.frame.kind ≡ true → s.frame.place ≢ 23 }
    ensures { result ≡ is_taken s.frame.kind s.header no_digits s.frame.place b }
{
    let State { frame, header, .. } = s;
    let kind = frame.kind;
    let i = frame.place;
    if (i < 3) | (block_length(kind) <= i) {
        return false;
    }
    if is_start_kind(kind) {
        return start_takes(header, i, b);
    }
    if is_end_kind(kind) {
        return end_takes(header.radars, i, b);
    }
    is_payload_byte(part_of_kind(kind), b)
}

// Where a payload byte enters the grid: data text k from byte 2,000 × (k − 1).
// Notice 49, 4(1)(1-1)(c)(エ), 4(1)(1-2)(c)(エ), 4(2)(c)(エ)
fn grid_place(kind: u8, i: u16) -> usize
    requires le_i { 3 ≤ i }
    requires i_bound { i < block_length kind }
    requires kind_value { is_start_kind kind ≡ false }
    requires kind_value_2 { is_end_kind kind ≡ false }
    ensures { result ≡ 2000 * (text_number kind - 1) + (i - 3) }
{
    let text = text_of_kind(kind);
    2000 * ((text - 1) as usize) + ((i - 3) as usize)
}

// Byte 23 of a start block: the time is whole. The time check is made once: it gives the minute, which
// enters the header, or says that the digits are no time; from here on no digit waits (Request 111).
// Notice 49, 4(1)(1-1)(c)(イ) and (d)(イ)
fn enter_time(s: State, b: u8) -> Option<Entered>
    ensures { result ≡ time_entered s.header s.modes s.digits b }
{
    let State {
        header,
        modes,
        digits,
        ..
    } = s;
    if !b.is_ascii_digit() {
        return None;
    }
    let time = time_check(with_digit(digits, 15, b));
    let minute = time?;
    Some(Entered {
        header: Header { minute, ..header },
        modes,
        digits: [0; 12],
        effect: Effect::Keep,
    })
}

// A start block's byte that keeps its rule enters the header or waits among the digits.
// Notice 49, 4(1)(1-1)(c)(イ) to (エ), (d)(イ) and (ウ), 4(1)(1-2)(c)(エ) and (d)(ウ),
// 4(2)(c)(エ) and (d)(ウ)
fn enter_start(s: State, b: u8) -> Option<Entered>
    requires { is_start_kind s.frame.kind ≡ true }
    ensures { result ≡ entered s.frame.kind s.header s.modes s.digits s.frame.place b }
{
    let State {
        frame,
        header,
        modes,
        digits,
        ..
    } = s;
    let i = frame.place;
    if i == 23 {
        return enter_time(s, b);
    }
    if !is_taken(s, b) {
        return None;
    }
    Some(Entered {
        header: enter_header(header, i, b),
        modes,
        digits: enter_digits(digits, i, b),
        effect: Effect::Keep,
    })
}

// An end block's byte that keeps its rule enters the modes, and a payload byte the grid.
// Notice 49, 4(1)(1-1)(c)(イ) to (エ), (d)(イ) and (ウ), 4(1)(1-2)(c)(エ) and (d)(ウ),
// 4(2)(c)(エ) and (d)(ウ)
fn enter_later(s: State, b: u8) -> Option<Entered>
    requires { is_start_kind s.frame.kind ≡ false }
    ensures { result ≡ entered s.frame.kind s.header s.modes s.digits s.frame.place b }
{
    let State {
        frame,
        header,
        modes,
        digits,
        ..
    } = s;
    let i = frame.place;
    if !is_taken(s, b) {
        return None;
    }
    if is_end_kind(frame.kind) {
        return Some(Entered {
            header,
            modes: enter_modes(modes, i, b),
            digits,
            effect: Effect::Keep,
        });
    }
    Some(Entered {
        header,
        modes,
        digits,
        effect: Effect::Enter(grid_place(frame.kind, i)),
    })
}

// A block byte that keeps its rule enters the header, the waiting digits, the modes or the grid.
// Notice 49, 4(1)(1-1)(c)(イ) to (エ), (d)(イ) and (ウ), 4(1)(1-2)(c)(エ) and (d)(ウ),
// 4(2)(c)(エ) and (d)(ウ)
pub fn enter_byte(s: State, b: u8) -> Option<Entered>
    ensures { result ≡ entered s.frame.kind s.header s.modes s.digits s.frame.place b }
{
    if is_start_kind(s.frame.kind) {
        return enter_start(s, b);
    }
    enter_later(s, b)
}
