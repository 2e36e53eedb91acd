// A reader over `marks`, which holds the piece that is lent to it.
#![tactic(auto)]

ghost use Rattle.std.specs.Prelude.{◌≡◌};
ghost use Rattle.marks.specs.Pieces.{taken_of, step_of};
ghost use Rattle.mark_reader.specs.Readers.{reader_at};

use marks::{State, Step, Taken};

// "A reader holds the lent piece and its position". The functions over it take it apart: the work is that of `find` and `take`.
#[derive(Clone, Copy)]
pub struct Reader<'a> {
    pub piece: &'a [u8],
    pub at: usize,
}

// A reader at the start of a piece.
pub fn new<'a>(piece: &'a [u8]) -> Reader<'a>
    ensures { result ≡ reader_at piece.entry 0 }
{
    Reader { piece, at: 0 }
}

// A reader of the same piece at another position.
pub fn moved<'a>(reader: Reader<'a>, at: usize) -> Reader<'a>
    ensures { result ≡ reader_at reader.entry.piece at }
{
    Reader {
        piece: reader.piece,
        at,
    }
}

// The next mark of the piece after a state: the first whose last bit stands at or after the reader's position.
pub fn next<'a>(reader: Reader<'a>, state: State) -> Step
    ensures { result ≡ step_of state reader.entry.piece.now reader.entry.at }
{
    marks::find(state, reader.piece, reader.at)
}

// The end of a piece: the state after it. Marks that were not asked for are not given later.
pub fn close<'a>(reader: Reader<'a>, state: State) -> Taken
    ensures { result ≡ taken_of state reader.entry.piece.now }
{
    marks::take(state, reader.piece)
}
