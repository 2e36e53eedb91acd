// Writes the report over the power pages of files of records, one report over all of them in order. It moves bytes and does nothing else: the
// text is that of `report_listing`. The words after its name are names of files; `-` is standard input, and so is no word at all.
#![tactic(auto)]

ghost use Rattle.std.specs.Prelude.{◌≡◌, ◌+◌, ◌*◌, ◌<◌, ◌≤◌, length};
ghost use Rattle.scaling.specs.Shown.{row_count};
ghost use Rattle.page_listing.specs.Listing.{page_rules};
ghost use Rattle.streams.specs.Turns.{ReadOn};
ghost use Rattle.report_listing.specs.Rooms.{row_room};
ghost use Rattle.report_list.specs.Files.{most_files};

use air::MOST_FLIPS;
use base::Edition;
use header::Rules;
use record::is_over;
use report_listing::Pass;
use report_listing::last::put_cuts;
use report_listing::rows::put_rows;
use std::env::{Env, FillError};
use std::io::{ErrorKind, Read, Write};
use std::{fs, io};
use streams::{Filled, Next, after_read, ended, write};
use word::table::Syndromes;

// The most files: a byte of a buffer for each.
const MOST_FILES: usize = 65536;

// Room for the longest name that the system opens.
const NAME_ROOM: usize = 4096;

// What the system says of a longer one.
const NAME_TOO_LONG: i32 = 36;

// Room for `-` and more.
const INPUT_ROOM: usize = 2;

const ROOM: usize = 65536;

// What a file leaves that was read to its end: the pass with it, and how many of its bytes are left.
#[derive(Clone, Copy)]
struct Heard {
    pass: Pass,
    left: usize,
}

// Tells of a file what failed, and why. Where that fails too, nobody is left to be told.
fn tell_failed(rt: HostRuntime, name: &[u8], what: &str, why: io::Error) {
    let mut told = rt.stderr();
    match told.write_all(name) {
        Ok(()) => {}
        Err(_) => {
            return;
        }
    }
    match writeln!(told, ": {what}: {why}") {
        Ok(()) => {}
        Err(_) => {}
    }
}

// Reads once, after the bytes that were kept: what is still coming is seen as far as it has come. A failure is told.
fn read_from<R: Read>(
    rt: HostRuntime,
    from: &mut R,
    name: &[u8],
    buf: &mut [u8],
    kept: usize,
) -> Filled
    requires { kept < length buf.old }
    ensures { ReadOn buf.old kept result }
{
    let part = &mut buf[kept..];
    let got = from.read(part);
    match got {
        Ok(n) => {
            if n == 0 {
                return Filled {
                    end: kept,
                    next: Next::Done,
                };
            }
            let end = kept + n;
            Filled {
                end,
                next: Next::More,
            }
        }
        Err(why) => {
            tell_failed(rt, name, "read", why);
            Filled {
                end: kept,
                next: Next::Failed,
            }
        }
    }
}

// What there is of a file that could not be opened, which is told: nothing.
fn unopened(rt: HostRuntime, name: &[u8], why: io::Error) -> Option<Heard> {
    tell_failed(rt, name, "open", why);
    None
}

// Whether a word is `-`, standard input, as is no word at all.
fn names_input(rt: HostRuntime, word: usize) -> bool {
    let mut room = [0u8; INPUT_ROOM];
    match rt.arg(word, &mut room) {
        Ok(n) => n == 1 && room[0] == b'-',
        Err(FillError::NotPresent) => true,
        Err(FillError::TooLong) => false,
    }
}

// Whether standard input was not read yet, after what a word names.
fn still_fresh(rt: HostRuntime, fresh: bool, word: usize) -> bool {
    if names_input(rt, word) {
        return false;
    }
    fresh
}

// What reading the pages needs: the table and the rules.
#[derive(Drop)]
struct Reader {
    table: Syndromes,
    rules: Rules,
    ghost of_pages: { rules ≡ page_rules },
}

impl Reader {
    fn new() -> Reader {
        let rules = Rules {
            edition: Edition::Flown,
            limit: MOST_FLIPS,
        };
        Reader {
            table: Syndromes::new(),
            rules,
        }
    }

    // Reads an open file, read by read, and takes its records, after the pass so far. None where the file cannot be opened or read, here and below.
    fn read_file<R: Read>(
        &self,
        rt: HostRuntime,
        start: Pass,
        name: &[u8],
        from: &mut R,
        buf: &mut [u8; ROOM],
    ) -> Option<Heard> {
        let mut pass = start;
        let mut left = 0;
        for _ in 0..u64::MAX {
            let filled = read_from(rt, from, name, buf, left);
            let end = filled.end;
            let taken = report_listing::take_piece(&self.table, self.rules, pass, buf, end);
            pass = taken.state;
            left = taken.left;
            let read = filled.next;
            let ending = taken.ending;
            let next = after_read(read, is_over(ending));
            let over = ended(next)?;
            if over {
                return Some(Heard { pass, left });
            }
        }
        None
    }

    // Opens a file, reads it, and closes it. A name that is no UTF-8 names no file that can be opened.
    fn hear_file(
        &self,
        rt: HostRuntime,
        start: Pass,
        name: &[u8],
        buf: &mut [u8; ROOM],
    ) -> Option<Heard> {
        let path = match str::from_utf8(name) {
            Ok(path) => path,
            Err(_) => {
                return unopened(rt, name, io::Error::from(ErrorKind::InvalidFilename));
            }
        };
        let opened = fs::open(&rt, path);
        match opened {
            Ok(file) => {
                let mut file = file;
                self.read_file(rt, start, name, &mut file, buf)
            }
            Err(why) => unopened(rt, name, why),
        }
    }

    // Reads standard input; where it was read before, there is nothing more of it, whatever a cut left.
    fn hear_input(
        &self,
        rt: HostRuntime,
        start: Pass,
        fresh: bool,
        buf: &mut [u8; ROOM],
    ) -> Option<Heard> {
        if fresh {
            let mut input = rt.stdin();
            return self.read_file(rt, start, b"standard input", &mut input, buf);
        }
        Some(Heard {
            pass: start,
            left: 0,
        })
    }

    // Reads the file that a word names.
    fn hear_word(
        &self,
        rt: HostRuntime,
        start: Pass,
        word: usize,
        buf: &mut [u8; ROOM],
    ) -> Option<Heard> {
        let mut room = [0u8; NAME_ROOM];
        match rt.arg(word, &mut room) {
            Ok(n) => self.hear_file(rt, start, &room[..n], buf),
            Err(_) => unopened(
                rt,
                b"a name of more than 4,096 bytes",
                io::Error::from_raw_os_error(NAME_TOO_LONG),
            ),
        }
    }

    // Reads what a word names, standard input or a file.
    fn hear_named(
        &self,
        rt: HostRuntime,
        start: Pass,
        word: usize,
        fresh: bool,
        buf: &mut [u8; ROOM],
    ) -> Option<Heard> {
        if names_input(rt, word) {
            return self.hear_input(rt, start, fresh, buf);
        }
        self.hear_word(rt, start, word, buf)
    }

    // Reads all files in order, up to one that cannot be read.
    fn read_files(
        &self,
        rt: HostRuntime,
        start: Pass,
        files: usize,
        buf: &mut [u8; ROOM],
        cuts: &mut [u8; MOST_FILES],
    ) -> Option<Pass>
        requires { files ≤ most_files }
    {
        let mut pass = start;
        let mut fresh = true;
        for file in 0..files {
            let heard = self.hear_named(rt, pass, file + 1, fresh, buf)?;
            fresh = still_fresh(rt, fresh, file + 1);
            pass = heard.pass;
            report_listing::end_file(cuts, file, heard.left);
        }
        Some(pass)
    }
}

// Writes the lines of the files that were cut, and answers whether that went well.
fn write_cuts(rt: HostRuntime, out: &mut [u8], cuts: &[u8], files: usize) -> bool
    requires files_in_bounds { files ≤ length cuts.now }
    requires row_room_in_bounds { row_count * row_room ≤ length out.old }
{
    let mut from = 0;
    // A `while`, no plainer as a `for`: each turn says at which file the next one begins.
    while from < files {
        let put = put_cuts(out, cuts, from, files);
        let to = put.to;
        if !write(rt, &out[..to]) {
            return false;
        }
        from = put.next;
    }
    true
}

// Writes all that follows the title.
fn tell(rt: HostRuntime, pass: Pass, files: usize, cuts: &[u8], out: &mut [u8])
    requires files_in_bounds { files ≤ length cuts.now }
    requires row_room_in_bounds { row_count * row_room ≤ length out.old }
{
    let report = pass.report;
    let n = put_rows(out, report);
    if !write(rt, &out[..n]) {
        return;
    }
    if !write_cuts(rt, out, cuts, files) {
        return;
    }
    let m = report_listing::last::close(pass, out);
    write(rt, &out[..m]);
}

// The report over all files. Where one cannot be opened or read, the title alone is written.
fn run(rt: HostRuntime, files: usize)
    requires { files ≤ most_files }
{
    let reader = Reader::new();
    let mut buf = [0u8; ROOM];
    let mut out = [0u8; ROOM];
    let mut cuts = [0u8; MOST_FILES];
    let opened = report_listing::open(&mut out);
    let title = opened.to;
    if !write(rt, &out[..title]) {
        return;
    }
    let start = opened.state;
    if let Some(pass) = reader.read_files(rt, start, files, &mut buf, &mut cuts) {
        tell(rt, pass, files, &cuts, &mut out);
    }
}

// How many words there are after the program's name, up to one more than the most files.
fn word_count(rt: HostRuntime) -> usize
    ensures { result ≤ most_files + 1 }
{
    for i in 0..MOST_FILES + 1 {
        match rt.arg(i + 1, &mut []) {
            Err(FillError::NotPresent) => {
                return i;
            }
            Err(FillError::TooLong) | Ok(_) => {}
        }
    }
    MOST_FILES + 1
}

fn main(rt: HostRuntime) {
    let words = word_count(rt);
    if words == 0 {
        run(rt, 1);
        return;
    }
    if MOST_FILES < words {
        streams::say(rt, "there are more than 65,536 files");
        return;
    }
    run(rt, words);
}
