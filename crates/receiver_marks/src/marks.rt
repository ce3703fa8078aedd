// Which pictures are marked: one number with a mark for each picture code in 01's order, `C0` at
// bit 0 (Request 101). Every function answers for every number and every byte.
ghost use Rattle.std.specs.Prelude.{◌≡◌};
ghost use Rattle.receiver_spec.specs.Marks.{is_marked, marks_set, are_marks, marks_from, all_marks};
ghost use Rattle.receiver_marks.specs.Places.{four_bits, place_of, mark_of};

use text_codes::table::is_picture_code;

// Four bits of a number, one such number for each sixteen of codes
fn four_bits(table: u64, code: u8) -> u32
    ensures { result ≡ four_bits table code }
{
    let shift = (code % 16) as u32 * 4;
    ((table >> shift) % 16) as u32
}

// Where a picture code stands in 01's list, counted from 0; some place below 20 for another byte.
// The list goes by sixteens, which begin at places 0, 8, 14 and 18. Notice 49, 5(1)
#[tactic(auto, unfolding(crate::specs::Places::place_of))]
fn place_of(code: u8) -> u32
    ensures { result ≡ place_of code }
{
    if code < 0xD0 {
        return four_bits(0x0007_0065_0043_0210, code);
    }
    if code < 0xE0 {
        return four_bits(0x0005_0004_0032_1000, code) + 8;
    }
    if code < 0xF0 {
        return four_bits(0x0000_0000_0032_0010, code) + 14;
    }
    four_bits(0x0000_0000_0000_0010, code) + 18
}

// Whether a byte is a picture code that is marked. Notice 49, 5(1)
pub fn is_marked(marks: u32, code: u8) -> bool
    ensures { result ≡ is_marked marks code }
{
    is_picture_code(code) & ((marks >> place_of(code)) % 2 == 1)
}

// The number that has the mark of this picture alone; 0 where the code is not listed.
// Notice 49, 5(1)
pub fn mark_of(code: u8) -> u32
    ensures { result ≡ mark_of code }
{
    if is_picture_code(code) {
        return 1 << place_of(code);
    }
    0
}

// Whether no mark beyond the twentieth is set (Request 101)
#[tactic(auto, unfolding(receiver_spec::specs::Marks::are_marks))]
pub fn are_marks(marks: u32) -> bool
    ensures { result ≡ are_marks marks }
{
    marks < 1048576
}

// All twenty marks (Request 101)
pub fn all_marks() -> u32
    ensures { result ≡ all_marks }
{
    1048575
}

// The marks of a receiver asked for with this number: none where one beyond the twentieth is set
// (Request 101)
#[tactic(auto, unfolding(receiver_spec::specs::Marks::marks_from))]
pub fn marks_from(n: u32) -> u32
    ensures { result ≡ marks_from n }
{
    if !are_marks(n) {
        return 0;
    }
    n
}

// How many of the twenty marks are set (Request 101)
pub fn marks_set(marks: u32) -> u32
    ensures { result ≡ marks_set marks }
{
    (marks % 1048576).count_ones()
}
