// The 70 bits of a header: words' data made into numbers, and numbers into fields.
ghost use Rattle.std.specs.Prelude.{◌≡◌, map, ◌≤◌, length, replicate};
ghost use Rattle.base.specs.Parts.{joined};
ghost use Rattle.word.specs.Words.{data_of};
ghost use Rattle.header.specs.HalfWidths.{halves_header};

use crate::{Fields, Header};
use word::DATA_BIT;

// The fields of header bits 0 to 29, `hi`, and 30 to 69, `lo`.
// Two numbers and no `HeaderBits`: it takes any two, and asks nothing of them.
pub fn unpack(hi: u64, lo: u64) -> Header
    ensures { result ≡ halves_header hi lo }
{
    Header {
        fields: Fields {
            src_id: (hi / 0x80_0000 % 128) as u8,
            dst_id: (hi / 0x1_0000 % 128) as u8,
            fr_cnt_tx: (hi / 0x1000 % 16) as u8,
            fr_cnt_rx: (hi / 0x100 % 16) as u8,
            snr: (hi / 16 % 16) as u8,
            ai_type_src: (hi % 16) as u8,
            ai_type_dst: (lo / 0x10_0000_0000 % 16) as u8,
            dfc_id: (lo / 0x4_0000_0000 % 4) as u8,
            caller: (lo / 0x2_0000_0000 % 2) as u8,
            arq: (lo / 0x1_0000_0000 % 2) as u8,
            pdu_type_id: (lo / 0x8000_0000 % 2) as u8,
            bch_rq: (lo / 0x4000_0000 % 2) as u8,
            hailing: (lo / 0x2000_0000 % 2) as u8,
            ud_fl1: (lo / 0x1000_0000 % 2) as u8,
        },
        pdu_length: (lo / 0x4_0000 % 1024) as u16,
        crc13: (lo / 32 % 8192) as u16,
        crc5: (lo % 32) as u8,
    }
}

// The five data bits of a word.
fn data_of(word: u16) -> u64
    ensures { result ≡ data_of word }
{
    (word / DATA_BIT) as u64
}

// The data of up to eight words, five bits each, as one number.
pub fn collect(words: &[u16]) -> u64
    requires { length words.now ≤ 8 }
    ensures { result ≡ joined (replicate (length words.now) 5) (map data_of words.now) }
{
    let mut number: u64 = 0;
    for &word in words {
        number = number * 32 + data_of(word);
    }
    number
}
