// Picture codes and radar codes.
ghost use Rattle.std.specs.Prelude.{◌≡◌};
ghost use Rattle.text.specs.Pictures.{is_picture_code};
ghost use Rattle.text.specs.StartBlock.{is_radar_code};

// Whether a byte is one of the 20 picture codes. Notice 49, 5(1)
#[tactic(auto, unfolding(text::specs::Pictures::is_picture_code, text::specs::Pictures::picture_codes, general_laws::specs::Bytes::is_in))]
pub fn is_picture_code(b: u8) -> bool
    ensures { result ≡ is_picture_code b }
{
    matches!(
        b,
        0xC0 | 0xC1
            | 0xC2
            | 0xC4
            | 0xC5
            | 0xC8
            | 0xC9
            | 0xCC
            | 0xD2
            | 0xD3
            | 0xD4
            | 0xD5
            | 0xD8
            | 0xDC
            | 0xE0
            | 0xE1
            | 0xE4
            | 0xE5
            | 0xF0
            | 0xF1
    )
}

// Whether a byte is one of the 21 radar codes. Notice 49, 5(2)
#[tactic(auto, unfolding(text::specs::StartBlock::is_radar_code, text::specs::StartBlock::radar_codes, general_laws::specs::Bytes::is_in))]
pub fn is_radar_code(b: u8) -> bool
    ensures { result ≡ is_radar_code b }
{
    matches!(
        b,
        0xA0 | 0xA1
            | 0xA2
            | 0xA3
            | 0xA4
            | 0xA5
            | 0xA7
            | 0xA8
            | 0xA9
            | 0xAA
            | 0xAB
            | 0xAC
            | 0xAD
            | 0xAE
            | 0xAF
            | 0xB0
            | 0xB1
            | 0xB3
            | 0xB4
            | 0xB5
            | 0xB6
    )
}
