// What the library answers to the stored vectors about headers and frames that are read, and about sheets, as `vectors` does to the others.
#![tactic(auto)]

use marshalling::format::{Kind, Record, Reply};

mod frames;
mod sheets;
mod wides;

// Answers a record by its kind, and says whether that is one of this program's.
fn answer(kind: Kind, record: &Record, reply: &mut Reply) -> bool {
    match kind {
        Kind::Headers => frames::header_reply(record, reply),
        Kind::Frames => frames::frame_reply(record, reply),
        Kind::Sheets => sheets::sheet_reply(record, reply),
        Kind::Sources => sheets::source_reply(record, reply),
        Kind::Wides => wides::wide_reply(record, reply),
        Kind::Signs => frames::sign_reply(record, reply),
        _ => {
            return false;
        }
    }
    true
}

fn main(rt: HostRuntime) {
    marshalling::answer_all(rt, answer);
}
