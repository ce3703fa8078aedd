// How often each answer came.
use receiver_state::answer::{Answer, number_of};
use std::io;
use std::io::Write;

// A count for each answer, by its number: 0 to 22, and 51 (Request 101). No answer has a number
// between them
#[derive(Drop)]
pub struct Counts([u64; 52]);

// What an answer says, in the words of 01's table and, of 51, of Request 101
// Stays a match on the number: the lines come in the numbers' order and print them, so one on
// `Answer` would need a list of all answers beside it, and is no plainer
fn meaning(number: usize) -> &'static str {
    match number {
        1 => "part begun",
        2 => "data text taken",
        3 => "complete",
        11 => "an opening ends while a text is under way",
        12 => "part open, place 0, byte is not the opening's due byte",
        13 => "block byte 1 not a picture code",
        14 => "byte 2 not one of the 18 kinds",
        15 => "a start kind while a part is open",
        16 => "a data or end kind with no part open, or not the due one",
        17 => "due kind, other picture code than the start's",
        18 => "a later block byte breaks its rule",
        19 => "not FE",
        20 => "wrong check byte",
        21 => "not FF",
        22 => "end text's FF: status 2 is not the highest mode",
        51 => "a listed code that is unmarked",
        _ => "",
    }
}

impl Counts {
    // No answer yet
    pub fn new() -> Counts {
        Counts([0; 52])
    }

    // Counts an answer, and gives how often it came. A count of 64 bits stays at its end, which no
    // input reaches
    pub fn count(&mut self, answer: Answer) -> u64 {
        match self.0.get_mut(number_of(answer) as usize) {
            Some(count) => {
                *count = count.saturating_add(1);
                *count
            }
            None => 0,
        }
    }

    // Writes the lines at the end: one for each answer but 0 that came, and how many bytes were read
    pub fn last_lines<W: Write>(&self, out: &mut W, total: u64) -> io::Result<()> {
        for (number, count) in self.0.iter().enumerate().skip(1) {
            if *count > 0 {
                writeln!(out, "answer {number:2}  {count:8}  {}", meaning(number))?;
            }
        }
        writeln!(out, "bytes {total}")?;
        out.flush()
    }
}
