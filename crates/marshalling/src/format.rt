// The kinds, their sizes and what stands where in records and replies, in bytes: the format of independent/README.md.
// A part starts where the one before it ends. A record is told without its kind's byte.
ghost use Rattle.std.specs.Prelude.{◌≡◌, ◌≤◌};
ghost use Rattle.marshalling.specs.Kinds.{kind_of};

// The kinds, by the byte before a record.
#[derive(Clone, Copy, PartialEq, Eq, Debug)]
pub enum Kind {
    Words = 0,
    Encode = 1,
    Crc13 = 2,
    Crc5 = 3,
    Headers = 4,
    Writes = 5,
    Frames = 6,
    Pages = 7,
    Rows = 8,
    Shown = 9,
    Sheets = 10,
    Sources = 11,
    Wides = 12,
    Signs = 13,
    Calls = 14,
    Beesat = 15,
    Fields = 16,
}

impl Kind {
    // The kind whose byte this is. None where it is that of no kind.
    pub fn from_byte(byte: u8) -> Option<Kind>
        ensures { result ≡ kind_of byte }
    {
        match byte {
            0 => Some(Kind::Words),
            1 => Some(Kind::Encode),
            2 => Some(Kind::Crc13),
            3 => Some(Kind::Crc5),
            4 => Some(Kind::Headers),
            5 => Some(Kind::Writes),
            6 => Some(Kind::Frames),
            7 => Some(Kind::Pages),
            8 => Some(Kind::Rows),
            9 => Some(Kind::Shown),
            10 => Some(Kind::Sheets),
            11 => Some(Kind::Sources),
            12 => Some(Kind::Wides),
            13 => Some(Kind::Signs),
            14 => Some(Kind::Calls),
            15 => Some(Kind::Beesat),
            16 => Some(Kind::Fields),
            _ => None,
        }
    }
}

// Room for every record and for every reply. The longest are one of `crc13` and one of `sheets`.
pub const RECORD_BYTES: usize = LENGTH + PAYLOAD_ROOM;

pub const REPLY_BYTES: usize = SHEET_AFTER + SHEET;

pub type Record = [u8; RECORD_BYTES];

pub type Reply = [u8; REPLY_BYTES];

// A length, before the bytes that it counts.
pub const LENGTH: usize = 2;

// An edition is a byte: 0 is flown, all else corrected.
pub const EDITION: usize = 1;

// How a frame is read, at the start of `headers`, `frames`, `sheets`, `wides` and `signs`: edition and limit.
pub const RULES: usize = EDITION + 4;

// Behind the rules of `sheets` and `signs`: whether call sign bits are given, and at most so many of them behind their number.
pub const CALL_ROOM: usize = 64;

pub const SIGNED: usize = RULES + 1 + LENGTH + CALL_ROOM;

// The most bytes of a header slice, of a payload of `crc13` or of a payload rule, and of a payload of `pages`.
pub const HEADER_ROOM: usize = 256;

pub const PAYLOAD_ROOM: usize = 2047;

pub const PAGE_ROOM: usize = 1100;

// The most room of the header writer's output, and of the page writer's.
pub const AIR_ROOM: usize = 256;

pub const USER_ROOM: usize = 64;

// A payload rule has so many bytes, and stands here in `writes`, `frames`, `sheets` and `signs`.
const RULE: usize = 4;

pub const WRITES_RULE: usize = WRITES_ROOM + 2;

pub const FRAMES_RULE: usize = RULES + LENGTH + HEADER_ROOM;

pub const SHEETS_RULE: usize = SHEETS_HEADER + 210;

pub const SIGNS_RULE: usize = SIGNED + 210;

// The room of an output, after an edition and 14 fields in `writes` and after 17 rows in `rows`.
pub const WRITES_ROOM: usize = EDITION + 14;

pub const ROWS_ROOM: usize = 34;

// c0, c1, c2, S and x of `shown`.
pub const C0: usize = 0;

pub const C1: usize = 8;

pub const C2: usize = 16;

pub const SPREAD: usize = 24;

pub const RAW: usize = 26;

// A sheet: eight sources of two lanes, then twelve counts of refusals. In a record of `sheets` the header follows it, in one of `sources`
// the number of a source.
pub const LANE: usize = 4 * 4 + 1 + 1;

pub const SOURCE: usize = 2 * LANE;

pub const REFUSALS: usize = 8 * SOURCE;

pub const COUNT: usize = 4;

const COUNTS: usize = 12 * COUNT;

const SHEET: usize = REFUSALS + COUNTS;

pub const SHEETS_HEADER: usize = SIGNED + SHEET;

pub const SOURCES_NUMBER: usize = SHEET;

// In a record of `wides`, behind the rules: the number of the one source that was heard, its lanes, the counts, and the header.
pub const WIDES_LANES: usize = RULES + 1;

pub const WIDES_REFUSALS: usize = WIDES_LANES + SOURCE;

pub const WIDES_HEADER: usize = WIDES_REFUSALS + COUNTS;

pub const WIDES_RULE: usize = WIDES_HEADER + 210;

// An answer is a refusal's number, or 0, and its place. The values follow.
pub const NUMBER: usize = 0;

pub const PLACE: usize = 1;

pub const VALUES: usize = 9;

// The answer to a header or a frame: 14 fields, PduLength, CRC13, CRC5 and the flips; then the patterns of fourteen words. In a reply
// of `sheets` the sheet follows them.
pub const PATTERNS: usize = VALUES + 14 + 2 + 2 + 1 + 4;

pub const SHEET_AFTER: usize = PATTERNS + 14 * 2;

// The counts of a sheet in a reply.
pub const COUNTS_AFTER: usize = SHEET_AFTER + REFUSALS;

// In a reply of `wides`: the number of a source, its lanes, the counts, and how many frames were heard.
pub const WIDE_REFUSALS: usize = SHEET_AFTER + 1 + SOURCE;

pub const WIDE_HEARD: usize = WIDE_REFUSALS + COUNTS;

// What repair makes of a number: whether there is a word, the word, its flip pattern.
pub const REPAIRED: usize = 1 + 2 + 2;

// Of BEESAT-1: the most bytes of a frame. In a record of `fields` the frame stands behind field and value.
pub const FRAME_ROOM: usize = 160;

pub const FIELD: usize = 0;

pub const VALUE: usize = 4;

pub const FIELDS_FRAME: usize = 8;

// In a reply of `beesat`, behind the case: the free values, sixteen values, and the states of each. In one of `fields`: the frame.
pub const FREE: usize = VALUES + 1;

pub const DATA: usize = FREE + 8;

pub const STATES: usize = DATA + 16 * 2;

pub const FRAME_AFTER: usize = VALUES + LENGTH;

// The size of a record, and that of its reply.
#[derive(Clone, Copy)]
pub struct Sizes(pub usize, pub usize);

pub fn sizes_of(kind: Kind) -> Sizes
    ensures result_le_record_bytes { result.0 ≤ RECORD_BYTES }
    ensures result_le_reply_bytes { result.1 ≤ REPLY_BYTES }
{
    match kind {
        Kind::Words => Sizes(2, 2 + 2 * REPAIRED),
        Kind::Encode => Sizes(1, 1 + 2),
        Kind::Crc13 => Sizes(RECORD_BYTES, 2 + 2),
        Kind::Crc5 => Sizes(EDITION + 65, 1),
        Kind::Headers => Sizes(FRAMES_RULE, SHEET_AFTER),
        Kind::Writes => Sizes(WRITES_RULE + RULE, VALUES + 2 + AIR_ROOM),
        Kind::Frames => Sizes(FRAMES_RULE + RULE, SHEET_AFTER),
        Kind::Pages => Sizes(
            LENGTH + PAGE_ROOM,
            VALUES + 4 + 2 + 1 + 2 + 6 + 2 + 4 + 17 * 2 + 8 + 8,
        ),
        Kind::Rows => Sizes(ROWS_ROOM + 2, VALUES + 2 + USER_ROOM),
        Kind::Shown => Sizes(RAW + 2, VALUES + 8),
        Kind::Sheets => Sizes(SHEETS_RULE + RULE, SHEET_AFTER + SHEET),
        Kind::Sources => Sizes(SOURCES_NUMBER + 1, 2 * LANE + 8 + 8),
        Kind::Wides => Sizes(WIDES_RULE + RULE, WIDE_HEARD + 8),
        Kind::Signs => Sizes(SIGNS_RULE + RULE, SHEET_AFTER),
        Kind::Calls => Sizes(1, 48),
        Kind::Beesat => Sizes(LENGTH + FRAME_ROOM, STATES + 16),
        Kind::Fields => Sizes(FIELDS_FRAME + LENGTH + FRAME_ROOM, FRAME_AFTER + FRAME_ROOM),
    }
}
