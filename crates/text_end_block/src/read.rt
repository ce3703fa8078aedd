// The end block, 32 bytes, and the modes that it gives.
ghost use Rattle.std.specs.Prelude.{◌≡◌, ◌+◌, eqb, drop};
ghost use Rattle.general_laws.specs.Bytes.{◌!◌, every};
ghost use Rattle.text.specs.EndBlock.{radar_places, is_mode_byte, modes_of};
ghost use Rattle.text_end_block.specs.Read.{end_read};

use text::bytes::are_zero;
use text_codes::table::is_picture_code;
use text_kinds::table::is_end_kind;
use text_radars::places::is_mode_byte;
use text_status::status::mode_of;

// Whether each radar's byte has a mode, and the others are `00`. Notice 49, 4(1)(1-1)(c)(ウ) and (d)(イ)
fn are_mode_bytes(radars: [u8; 8], block: &[u8; 32]) -> bool
    ensures { result ≡ every (λ i. is_mode_byte (radars ! i) (block.now ! (3 + i))) radar_places }
{
    for (i, radar) in radars.iter().enumerate() {
        if !is_mode_byte(*radar, block[3 + i]) {
            return false;
        }
    }
    true
}

// Whether the bytes from byte 11 on are `00`. Notice 49, 4(1)(1-1)(c)(ウ)
fn is_zero_behind(block: &[u8; 32]) -> bool
    ensures { result ≡ every (λ b. eqb b 0) (drop 11 block.now) }
{
    are_zero(&block[11..])
}

// The modes of an end block. Notice 49, 4(1)(1-1)(c)(ウ) and (d)(イ)
#[tactic(auto, unfolding(text::specs::EndBlock::modes_of))]
fn modes_of(block: &[u8; 32]) -> [u8; 8]
    ensures { result ≡ modes_of block.now }
{
    let bytes: [u8; 8] = block[3..11].try_into().unwrap();
    bytes.map(|b| mode_of(b))
}

// The modes of 32 bytes, where they keep every rule for these radars.
// Notice 49, 4(1)(1-1)(c)(ウ) and (d)(イ)
fn read_whole(radars: [u8; 8], block: &[u8; 32]) -> Option<[u8; 8]>
    ensures { result ≡ end_read radars block.now }
{
    let known = is_picture_code(block[1]) & is_end_kind(block[2]);
    if !((block[0] == 0xFD) & known) {
        return None;
    }
    if !are_mode_bytes(radars, block) {
        return None;
    }
    if !is_zero_behind(block) {
        return None;
    }
    Some(modes_of(block))
}

// Reads an end block for these radars: its modes, where it keeps every rule.
// Notice 49, 4(1)(1-1)(c)(ウ) and (d)(イ). 4(1)(1-2) and 4(2) refer to these
pub fn read_end(radars: [u8; 8], block: &[u8]) -> Option<[u8; 8]>
    ensures { result ≡ end_read radars block.now }
{
    match block.try_into() {
        Ok(whole) => read_whole(radars, whole),
        Err(_) => None,
    }
}
