// The whole stream to a receiver with an all-zero grid of its own, by slice calls or by byte calls.
use program_parts::lines::call_lines;
use receiver_byte_call::calls::byte_call;
use receiver_slice_call::calls::slice_call;
use receiver_state::state::State;
use std::io;
use std::io::Write;

// Each call is given all bytes that are left, until all are taken or a call takes none. That would be
// a refusal, and none comes: the grid has 20,000 bytes, and the state is fresh or a call's. Gives the
// last state
pub fn by_slices<W: Write>(out: &mut W, state: State, stream: &[u8]) -> io::Result<State> {
    let mut grid = [0u8; 20000];
    let mut s = state;
    let mut total: u64 = 0;
    let mut rest = stream;
    // Stays a while: how many bytes are taken at a time is the call's to say
    while !rest.is_empty() {
        let result = slice_call(s, &mut grid, rest);
        s = result.state;
        total = total.saturating_add(result.count as u64);
        let (_, behind) = rest.split_at(result.count);
        rest = behind;
        call_lines(out, b"slice", total, result, &grid)?;
        if result.count == 0 {
            break;
        }
    }
    Ok(s)
}

// Each call is given one byte. Gives the last state
pub fn by_bytes<W: Write>(out: &mut W, state: State, stream: &[u8]) -> io::Result<State> {
    let mut grid = [0u8; 20000];
    let mut s = state;
    for (i, b) in stream.iter().enumerate() {
        let result = byte_call(s, &mut grid, *b);
        s = result.state;
        call_lines(out, b"byte", i as u64 + 1, result, &grid)?;
    }
    Ok(s)
}
