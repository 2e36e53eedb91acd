// The one refusal of every layer and its numbers, the edition, and a writer's answer. What else stands here are definitions (specs/) and laws (proofs/) that several crates
// cite.
#![tactic(auto)]

ghost use Rattle.std.specs.Prelude.{◌≡◌};
ghost use Rattle.base.specs.Checks.{refusal};
ghost use Rattle.base.specs.Reasons.{number_of};

// "A refusal carries number and place only": the number is one of those below, the place what the paper's table names beside it.
#[derive(Clone, Copy)]
pub struct Refusal {
    pub number: u8,
    pub place: usize,
}

// The edition of the rules: as the S-NET satellites fly them, or with CRC5 corrected.
#[derive(Clone, Copy, PartialEq, Eq)]
pub enum Edition {
    Flown,
    Corrected,
}

// The answer of a writer, and of a judge: no more than that it is done, or the refusal.
pub type Written = Result<(), Refusal>;

// Why something is refused, by the number of the paper's table.
#[derive(Clone, Copy, PartialEq, Eq, Debug)]
pub enum Reason {
    // Frame: "header slice is not 210 long"
    Not210Long = 1,
    // "an element is above 1"
    NoBit = 2,
    // "a word is beyond repair"
    BeyondRepair = 3,
    // "CRC5 differs"
    Crc5Differs = 4,
    // "SrcId above 7"
    UnknownSource = 5,
    // "AiTypeSrc above 3"
    UnknownCoding = 6,
    // "payload length is not PduLength"
    OtherLength = 7,
    // "CRC13 differs"
    Crc13Differs = 8,
    // "limit above 42"
    LimitAbove42 = 20,
    // "flips above the limit"
    FlipsAboveLimit = 21,
    // "a frame offered to a sheet of the other edition"
    OtherEdition = 22,
    // "not 48 elements or one above 1", of a call sign
    NoCallSign = 23,
    // "disagreement" of the call sign with the satellite
    OtherCallSign = 24,
    // Power page: "payload under 8 bytes"
    NoPageHeader = 9,
    // "TimeTagged and under 12"
    NoTimeTag = 10,
    // "FrameLength is not the payload length less 8, or less 12 if TimeTagged"
    OtherFrameLength = 11,
    // "fewer than 34 user bytes"
    FewUserBytes = 12,
    // Writer: "output under 210"
    ShortOutput = 13,
    // "a field out of range"
    OutOfRange = 14,
    // "payload over 1,023"
    LongPayload = 15,
    // "scaling with S outside 1 to 32,767"
    NoSpread = 16,
    // "sheet full"
    SheetFull = 17,
    // "page writer's output under 34"
    ShortPageOutput = 18,
    // Recording: "an element above 1 in a piece"
    NoBitInPiece = 19,
    // "a piece that would take the recording past 4,294,967,295 bits"
    LongRecording = 37,
    // BEESAT-1: "not 144 bytes"
    Not144Bytes = 25,
    // "marker"
    MarkerDiffers = 26,
    // "error field"
    ErrorFieldDiffers = 27,
    // "a fixed header value"
    FixedValueDiffers = 28,
    // "value too large"
    ValueTooLarge = 29,
    // "no such field, or an idle frame"
    NoSuchField = 38,
    // Report: "a page offered after 65,535"
    ReportFull = 30,
}

impl Reason {
    // Its number in the table.
    pub fn number(self) -> u8
        ensures { result ≡ number_of self }
    {
        self as u8
    }

    // The refusal for this reason, at a place.
    pub fn at(self, place: usize) -> Refusal
        ensures { result ≡ refusal (number_of self) place }
    {
        Refusal {
            number: self.number(),
            place,
        }
    }
}
