// The check byte of a text.
ghost use Rattle.std.specs.Prelude.{◌≡◌};
ghost use Rattle.text.specs.Text.{xor_all, check_byte};

// The exclusive or over a block, worked out from its two halves; a block of one byte is its own
// result, and an empty one gives 0. Notice 49, 4(1)(1-1)(c)(ア)
pub fn xor_all(block: &[u8]) -> u8
    ensures { result ≡ xor_all block.now }
{
    match block {
        [] => 0,
        [only] => *only,
        _ => {
            let (first, second) = block.split_at(block.len() / 2);
            xor_all(first) ^ xor_all(second)
        }
    }
}

// The check byte, BCC: the exclusive or of all block bytes and the `FE`, which comes in last.
// Notice 49, 1 and 4(1)(1-1)(c)(ア)
pub fn check_byte(block: &[u8]) -> u8
    ensures { result ≡ check_byte block.now }
{
    xor_all(block) ^ 0xFE
}
