// What the test programs of vectors share: records read, each behind the byte of its kind, and replies written.
#![tactic(auto)]

ghost use Rattle.std.specs.Prelude.{◌≤◌, length};
ghost use Rattle.marshalling.specs.declared.format.TheConstants.{RECORD_BYTES};

use format::{Kind, Record, Reply};

pub mod format;
pub mod numbers;

// Reads the next record, and answers its kind. None where the stream ends before it or inside it, or the byte before it is that of no kind.
pub fn read_record(rt: HostRuntime, record: &mut [u8]) -> Option<Kind>
    requires { RECORD_BYTES ≤ length «record».old }
{
    let mut byte = [0u8; 1];
    if streams::fill(rt, &mut byte).end == 0 {
        return None;
    }
    let kind = Kind::from_byte(byte[0])?;
    let size = format::sizes_of(kind).0;
    if streams::fill(rt, &mut record[0..size]).end < size {
        return None;
    }
    Some(kind)
}

// Writes the reply to a record, and answers whether that went well.
pub fn write_reply(rt: HostRuntime, kind: Kind, reply: &Reply) -> bool {
    streams::write(rt, numbers::part(reply, 0, format::sizes_of(kind).1))
}

// Answers the records of standard input, one after another, as a program's table of replies does, which says whether the kind is one of the
// program's. Another kind, an end and a failure end it.
pub fn answer_all<F: Fn(Kind, &Record, &mut Reply) -> bool>(rt: HostRuntime, answer: F)
    requires { F.IsAlwaysCallable answer }
{
    for _ in 0..u64::MAX {
        let mut record = [0u8; format::RECORD_BYTES];
        let Some(kind) = read_record(rt, &mut record) else {
            return;
        };
        let mut reply = [0u8; format::REPLY_BYTES];
        if !answer(kind, &record, &mut reply) || !write_reply(rt, kind, &reply) {
            return;
        }
    }
}
