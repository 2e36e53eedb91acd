// The words after a program's name: `--strict`, and `--edition` with one of `flown` and `corrected`; a text; a number.
#![tactic(auto)]

ghost use Rattle.std.specs.Prelude.{◌≡◌};
ghost use Rattle.options.specs.Numbers.{number_after, parsed_of, Said};
ghost use Rattle.options.specs.Words.{word_of, Given, edition_said, after_of, one_after, in_all, all_of, Asked};

use base::Edition;
use std::env::{Env, FillError};

// What was asked for.
#[derive(Clone, Copy)]
pub struct Options {
    pub strict: bool,
    pub edition: Edition,
}

// The words that programs know, and any other.
#[derive(Clone, Copy)]
pub enum Word {
    Strict,
    NamesEdition,
    SaysFlown,
    SaysCorrected,
    Other,
}

impl Word {
    // The edition that it says, if it says one.
    pub fn edition(self) -> Option<Edition>
        ensures { result ≡ edition_said self }
    {
        match self {
            Word::SaysFlown => Some(Edition::Flown),
            Word::SaysCorrected => Some(Edition::Corrected),
            Word::Strict | Word::NamesEdition | Word::Other => None,
        }
    }
}

// What the words so far ask for: either that is all of it, or the word after `--edition` is still to come.
#[derive(Clone, Copy)]
enum Request {
    Complete(Options),
    LacksEdition(Options),
}

// Room for the longest of the words that programs know, and more.
const ROOM: usize = 16;

// Which word some bytes are.
fn known(bytes: &[u8]) -> Word
    ensures { result ≡ word_of bytes.now }
{
    if bytes == b"--strict".as_slice() {
        return Word::Strict;
    }
    if bytes == b"--edition".as_slice() {
        return Word::NamesEdition;
    }
    if bytes == b"flown".as_slice() {
        return Word::SaysFlown;
    }
    if bytes == b"corrected".as_slice() {
        return Word::SaysCorrected;
    }
    Word::Other
}

// Word i. One that is not there, or is longer than any of those, is another.
pub fn word_at(rt: HostRuntime, i: usize) -> Word
    ensures { Given result }
{
    let mut room = [0u8; ROOM];
    match rt.arg(i, &mut room) {
        Ok(n) => known(&room[..n]),
        Err(_) => known(&[]),
    }
}

// What is asked for with one more word: Err, without it, where it is wrong there.
fn after(asked: Request, word: Word) -> Result<Request, Request>
    ensures { result ≡ after_of asked word }
{
    match asked {
        Request::LacksEdition(options) => match word.edition() {
            Some(edition) => Ok(Request::Complete(Options {
                strict: options.strict,
                edition,
            })),
            None => Err(Request::Complete(options)),
        },
        Request::Complete(options) => match word {
            Word::Strict => Ok(Request::Complete(Options {
                strict: true,
                edition: options.edition,
            })),
            Word::NamesEdition => Ok(Request::LacksEdition(options)),
            Word::SaysFlown | Word::SaysCorrected | Word::Other => {
                Err(Request::Complete(options))
            }
        },
    }
}

// The same where a word before may have been wrong: what follows is heeded still, and it stays an Err.
fn one_after(asked: Result<Request, Request>, word: Word) -> Result<Request, Request>
    ensures { result ≡ one_after asked word }
{
    match asked {
        Ok(asked) => after(asked, word),
        Err(asked) => match after(asked, word) {
            Ok(next) | Err(next) => Err(next),
        },
    }
}

// What is asked for after the last word. One that is still to come after `--edition` is missing.
fn in_all(asked: Request) -> Result<Options, Options>
    ensures { result ≡ in_all asked }
{
    match asked {
        Request::Complete(options) => Ok(options),
        Request::LacksEdition(options) => Err(options),
    }
}

// The same where a word may have been wrong.
fn all_of(asked: Result<Request, Request>) -> Result<Options, Options>
    ensures { result ≡ all_of asked }
{
    match asked {
        Ok(asked) => in_all(asked),
        Err(asked) => match in_all(asked) {
            Ok(options) | Err(options) => Err(options),
        },
    }
}

// How many words there are, the program's name among them.
fn word_count(rt: HostRuntime) -> usize {
    for i in 0..usize::MAX {
        match rt.arg(i, &mut []) {
            Err(FillError::NotPresent) => {
                return i;
            }
            Err(FillError::TooLong) | Ok(_) => {}
        }
    }
    usize::MAX
}

// Reads the words. Err where one of them is wrong or is missing, with what the others ask for.
pub fn read(rt: HostRuntime) -> Result<Options, Options>
    ensures { Asked result }
{
    let mut asked = Ok(Request::Complete(Options {
        strict: false,
        edition: Edition::Flown,
    }));
    for i in 1..word_count(rt) {
        asked = one_after(asked, word_at(rt, i));
    }
    all_of(asked)
}

// Tells of a wrong word, and of the right ones, where a program takes an edition and no other word.
pub fn tell(rt: HostRuntime) {
    streams::say(
        rt,
        "edition flown or corrected: --edition wants one of these two, and there is no other word",
    );
}

// Room for a word that says a number, with any zeros that it begins with.
const NUMBER_ROOM: usize = 4096;

// The number that some digits and one more make, where that is a digit and the number is no more than the most.
fn next_number(number: u32, letter: u8) -> Option<u32>
    ensures { result ≡ number_after number letter }
{
    if !letter.is_ascii_digit() {
        return None;
    }
    number.checked_mul(10)?.checked_add((letter - b'0') as u32)
}

// The number that a word's decimal digits make, if there are any and no letter is another.
fn parse(word: &[u8]) -> Option<u32>
    ensures { result ≡ parsed_of word.now }
{
    if word.is_empty() {
        return None;
    }
    let mut number = 0;
    for letter in word {
        number = next_number(number, *letter)?;
    }
    Some(number)
}

// The number that word i says. A word that is not there, or is longer than any number, says none.
pub fn number(rt: HostRuntime, i: usize) -> Option<u32>
    ensures { Said result }
{
    let mut room = [0u8; NUMBER_ROOM];
    match rt.arg(i, &mut room) {
        Ok(n) => parse(&room[..n]),
        Err(_) => parse(&[]),
    }
}
