// A date and time (Request 111).

// A date of the Gregorian calendar and a time of day, by its numbers. Notice 49, 4(1)(1-1)(d)(イ)
#[derive(Clone, Copy)]
pub struct Moment {
    pub year: u32,
    pub month: u32,
    pub day: u32,
    pub hour: u32,
    pub minute: u32,
}
