// The header: its fields, how it is read, and what is answered. The reader is `header_reader`, the writer `header_writer`.
#![tactic(auto)]

mod bits;

ghost use Rattle.std.specs.Prelude.{◌≡◌, ◌+◌};
ghost use Rattle.header.specs.Fields.{fields_from, values_of, last_source_of, satellite_of, radio_of};
ghost use Rattle.header.specs.Patterns.{beside};
ghost use Rattle.header.specs.Rules.{usual_rules};

use air::WORD_COUNT;
use base::{Edition, Refusal};
pub use bits::{collect, unpack};

// The last SrcId that is not refused, under each edition, and the last AiTypeSrc.
pub const LAST_FLOWN_SOURCE: u8 = 7;

pub const LAST_CORRECTED_SOURCE: u8 = 127;

pub const LAST_CODING: u8 = 3;

// Fields 0 to 13 are those that a writer is handed.
pub const FIELD_COUNT: usize = 14;

// Fields 0 to 13, by the paper's names: those that a writer is handed.
#[derive(Clone, Copy)]
pub struct Fields {
    pub src_id: u8,
    pub dst_id: u8,
    pub fr_cnt_tx: u8,
    pub fr_cnt_rx: u8,
    pub snr: u8,
    pub ai_type_src: u8,
    pub ai_type_dst: u8,
    pub dfc_id: u8,
    pub caller: u8,
    pub arq: u8,
    pub pdu_type_id: u8,
    pub bch_rq: u8,
    pub hailing: u8,
    pub ud_fl1: u8,
}

impl Fields {
    // Fourteen values, in the order of the fields.
    pub fn from_values(values: [u8; FIELD_COUNT]) -> Fields
        ensures { result ≡ fields_from values }
    {
        Fields {
            src_id: values[0],
            dst_id: values[1],
            fr_cnt_tx: values[2],
            fr_cnt_rx: values[3],
            snr: values[4],
            ai_type_src: values[5],
            ai_type_dst: values[6],
            dfc_id: values[7],
            caller: values[8],
            arq: values[9],
            pdu_type_id: values[10],
            bch_rq: values[11],
            hailing: values[12],
            ud_fl1: values[13],
        }
    }

    // The values of fields 0 to 13.
    pub fn values(self) -> [u8; FIELD_COUNT]
        ensures { result ≡ values_of self }
    {
        [
            self.src_id,
            self.dst_id,
            self.fr_cnt_tx,
            self.fr_cnt_rx,
            self.snr,
            self.ai_type_src,
            self.ai_type_dst,
            self.dfc_id,
            self.caller,
            self.arq,
            self.pdu_type_id,
            self.bch_rq,
            self.hailing,
            self.ud_fl1,
        ]
    }
}

// All 17 fields.
#[derive(Clone, Copy)]
pub struct Header {
    pub fields: Fields,
    pub pdu_length: u16,
    pub crc13: u16,
    pub crc5: u8,
}

// The flips in one header up to which it is believed where a caller names no limit.
const USUAL_LIMIT: u32 = 28;

// How a header is read: the edition, and the most flips that are taken, 0 to 42.
#[derive(Clone, Copy)]
pub struct Rules {
    pub edition: Edition,
    pub limit: u32,
}

// The rules for a caller that names no limit.
pub fn usual(edition: Edition) -> Rules
    ensures { result ≡ usual_rules edition }
{
    Rules {
        edition,
        limit: USUAL_LIMIT,
    }
}

// The last SrcId that is not refused.
pub fn last_source(edition: Edition) -> u8
    ensures { result ≡ last_source_of edition }
{
    match edition {
        Edition::Flown => LAST_FLOWN_SOURCE,
        Edition::Corrected => LAST_CORRECTED_SOURCE,
    }
}

// What an accepted header or frame tells: the repaired header and the number of flips.
#[derive(Clone, Copy)]
pub struct Accepted {
    pub header: Header,
    pub flips: u32,
}

// What is answered of a header alone, and of a whole frame: what it tells, or the refusal.
pub type Answer = Result<Accepted, Refusal>;

// An answer, and beside it the flip pattern of each word: bit i of pattern j is set where position i of word j was flipped. The
// accepted answer's flips are the patterns' ones; beside a refusal all fourteen are 0.
#[derive(Clone, Copy)]
pub struct Read {
    pub answer: Answer,
    pub patterns: [u16; WORD_COUNT],
}

// An answer with the patterns of the words that it was read from.
pub fn with_patterns(answer: Answer, patterns: [u16; WORD_COUNT]) -> Read
    ensures { result ≡ beside patterns answer }
{
    match answer {
        Ok(_) => Read { answer, patterns },
        Err(_) => Read {
            answer,
            patterns: [0; WORD_COUNT],
        },
    }
}

// The satellite of a source: A to D are 0 to 3.
pub fn satellite(src_id: u8) -> u8
    ensures { result ≡ satellite_of src_id }
{
    src_id / 2
}

// The radio of a source, 1 or 2.
pub fn radio(src_id: u8) -> u8
    ensures { result ≡ radio_of src_id }
{
    src_id % 2 + 1
}
