// The last bytes seen, as one number with the newest byte lowest, and the opening among them.
ghost use Rattle.std.specs.Prelude.{◌≡◌};
ghost use Rattle.receiver_spec.specs.Seen.{ends_opening, due_byte};
ghost use Rattle.receiver_bytes_seen.specs.AsNumber.{seen_of, push_seen, push_count};

// The bytes seen with one more; five of them are kept
#[tactic(auto, unfolding(crate::specs::AsNumber::push_seen))]
pub fn pushed(seen: u64, b: u8) -> u64
    ensures { result ≡ push_seen seen b }
{
    (seen % 4294967296) * 256 + (b as u64)
}

// How many bytes are seen then
#[tactic(auto, unfolding(crate::specs::AsNumber::push_count))]
pub fn counted(count: u8) -> u8
    ensures { result ≡ push_count count }
{
    count.saturating_add(1).min(5)
}

// Whether an opening ends with this byte. Notice 49, 4(1)(1-1)(c)(ア)
// Stays two numbers: the bytes seen and their count are public fields of two structs of
// receiver_state, State and Frame.
pub fn ends_opening(seen: u64, count: u8, b: u8) -> bool
    ensures { result ≡ ends_opening (seen_of seen count) b }
{
    if b != 0xFD {
        return false;
    }
    if count != 5 {
        return false;
    }
    seen % 1099511627776 == 0x1616161002
}

// The opening's due byte: the one after the longest run, at the end of the bytes seen, with which
// an opening begins. Notice 49, 4(1)(1-1)(c)(ア)
pub fn due_byte(seen: u64, count: u8) -> u8
    ensures { result ≡ due_byte (seen_of seen count) }
{
    if (5 <= count) & (seen % 1099511627776 == 0x1616161002) {
        return 0xFD;
    }
    if (4 <= count) & (seen % 4294967296 == 0x16161610) {
        return 0x02;
    }
    if (3 <= count) & (seen % 16777216 == 0x161616) {
        return 0x10;
    }
    0x16
}
