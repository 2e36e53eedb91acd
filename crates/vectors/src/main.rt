// What the library answers to the stored vectors of the independent program about words, checksums, call signs, headers written and pages: to
// each record on standard input, which stands behind the byte of its kind, a reply on standard output (independent/README.md has the
// format). A stream that ends inside a record, or a byte that is none of these kinds, ends the program after the replies to what came before.
#![tactic(auto)]

use marshalling::format::{Kind, Record, Reply};

mod headers;
mod pages;
mod words;

// Answers a record by its kind, and says whether that is one of this program's.
fn answer(kind: Kind, record: &Record, reply: &mut Reply) -> bool {
    match kind {
        Kind::Words => words::word_reply(record, reply),
        Kind::Encode => words::encode_reply(record, reply),
        Kind::Crc13 => words::crc13_reply(record, reply),
        Kind::Crc5 => words::crc5_reply(record, reply),
        Kind::Writes => headers::write_reply(record, reply),
        Kind::Pages => pages::page_reply(record, reply),
        Kind::Rows => pages::rows_reply(record, reply),
        Kind::Shown => pages::shown_reply(record, reply),
        Kind::Calls => words::call_reply(record, reply),
        _ => {
            return false;
        }
    }
    true
}

fn main(rt: HostRuntime) {
    marshalling::answer_all(rt, answer);
}
