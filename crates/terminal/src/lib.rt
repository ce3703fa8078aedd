// The one crate that a customer's program names: it passes on what such a program calls, and has no
// code of its own. Every function answers for every value of its parameters (01, demand 1); its
// contract, an equation with a definition, stands where it is declared.
#![tactic(auto)]

// The receiver (01, "The receiver"): the state and the fresh one, its marks (Request 101), a grid all
// 0, the byte call and the slice call with what they return, and 01's numbers of answers
pub use receiver_byte_call::calls::{CallResult, byte_call};
pub use receiver_marks::marks::{all_marks, is_marked, mark_of};
pub use receiver_slice_call::calls::slice_call;
pub use receiver_state::answer::{Answer, Row, number_of, row_number};
pub use receiver_state::grid::clear;
pub use receiver_state::state::{Frame, State, count_marks, fresh};

// Why a call was refused, and the row of 01's table that it is
pub use refusals::refusal::{Refusal, row_of};

// Headers: a part's, and what the writer takes of one
pub use text::header::{Header, WriterHeader};
pub use text_headers::writer_input::writer_header_of;

// A header's time (Request 111): the minute, a count from 1 January 2000, 00:00, from its twelve digits
// and back, as a date and time, and whether it is one of the years 0000 to 9999
pub use text_calendar::minutes::{is_minute, moment_of};
pub use text_calendar::time::{digits_of, time_check};
pub use text_calendar_spec::time::Moment;

// The writer (01, "The writer"), how many payload bytes it takes and how long a part is, by part
pub use text_lengths::part::{part_length, payload_length};
pub use writer::part::write_part;

// Services on intensity grids and clocks (01, "Services")
pub use service_clock::steps::clock_steps;
pub use service_levels::meshes::{mesh_level, meshes_from};
pub use service_overlay::grids::overlay;

// Services on stored parts, and on the text under way (01, "Services"; bytes left by Request 106)
pub use service_bytes_left::left::bytes_left;
pub use service_stored_part::payload::text_payload;
pub use service_stored_part::whole::is_undamaged_part;
