// The frames of BEESAT-1: read, and one field of a frame written. Every place is a row of one table (src/tables.rt).
#![tactic(auto)]

mod reading;
mod tables;
mod writing;

use base::Refusal;
pub use reading::read_frame;
pub use writing::write_field;

// "A frame is 144 bytes"
pub const FRAME_BYTES: usize = 144;

// The sixteen values.
pub const VALUES: usize = 16;

// The state bits, four for each value.
pub const STATES: usize = 64;

// The values of the transfer frame header and of the packet header that are free.
#[derive(Clone, Copy)]
pub struct Header {
    pub vcid: u8,
    pub mcfc: u8,
    pub vcfc: u8,
    pub apid: u16,
    pub flag: u8,
    pub psc: u16,
}

// What a frame holds: a telemetry packet, or an idle one, whose data isn't read.
#[derive(Clone, Copy)]
pub enum Contents {
    Telemetry(Header),
    Idle(Header),
}

pub type Answer = Result<Contents, Refusal>;

// The values and the state bits stand beside the answer; state bits 4i to 4i + 3 are those of value i, as they stand. Beside an idle frame, whose
// data isn't read, and beside a refusal all of them are 0.
#[derive(Clone, Copy)]
pub struct Read {
    pub answer: Answer,
    pub values: [u16; VALUES],
    pub states: [u8; STATES],
}
