// What the programs share: reading to an input's end, printing words and numbers, numbers out of bytes,
// and a sum over bytes.
//
//   reading   read_full fills a space from a reader; feed_all hands a reader's bytes, as they come, to a
//             Listener, to the input's end
//   printing  word, spaced (any value that prints, with a space before it), list, end_line
//   numbers   byte_at, bytes_at, two_at, minute_at: what stands at a place of some bytes
//   sums      adler of bytes, and with_byte for a sum that grows byte by byte
#![tactic(auto)]

pub mod numbers;
pub mod printing;
pub mod reading;
pub mod sums;

pub use reading::read_full;
