// The headers of parts.

// What the writer takes of a header (01: "header, without status bytes"): the time as the count of
// minutes from 1 January 2000, 00:00 (Request 111), the radar codes and then 0, the clock, and the
// picture code.
// Notice 49, 4(1)(1-1)(c)(イ)
#[derive(Clone, Copy)]
pub struct WriterHeader {
    pub minute: i64,
    pub radars: [u8; 8],
    pub clock: u16,
    pub picture: u8,
}

// A part's header (01): what the writer takes, the mode of status 2 and NO ECHO.
// Notice 49, 4(1)(1-1)(c)(イ)
#[derive(Clone, Copy)]
pub struct Header {
    pub minute: i64,
    pub radars: [u8; 8],
    pub clock: u16,
    pub picture: u8,
    pub mode: u8,
    pub noecho: bool,
}
