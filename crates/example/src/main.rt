// Reads one frame on standard input, 210 header bytes and then the payload, and writes who sent it, or why it is refused.
#![tactic(auto)]

use base::Edition;
use std::io;

fn main(rt: HostRuntime) -> io::Result<()> {
    let mut air = [0u8; 210];
    let mut bytes = [0u8; 4096];
    let bits = streams::fill(rt, &mut air).end;
    let len = streams::fill(rt, &mut bytes).end;
    let read = frame::read_frame(header::usual(Edition::Flown), &air[..bits], &bytes[..len]);
    match read.answer {
        Ok(accepted) => {
            let letter = char::from(b'A' + header::satellite(accepted.header.fields.src_id));
            println!(rt; "S-NET {letter}, bits repaired: {}", accepted.flips)
        }
        Err(why) => println!(rt; "refused {} {}", why.number, why.place),
    }
}
