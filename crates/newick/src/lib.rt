// Source trees in: the operation "read source trees", a Newick text to a matrix file and a name list.
// Promises: for any text and any lengths of the outputs, every number and every byte is that of specs/Read.antt.
// Rests on taxa, record, matrix, grammar, ledger and names.
#![tactic(auto)]

mod hints;
mod letters;
mod list;
mod reader;
mod scan;
mod tokens;

ghost use Rattle.newick.specs.Read.{Reads};
ghost use Rattle.newick.specs.inner.Book.{Roomy};
ghost use Rattle.newick.specs.inner.Found.{Found};

use letters::Letters;
use matrix::writer::put_matrix;
use record::refusal::{Reason, Refusal};

// The most names, the most columns and the most open brackets; and how many hints there are.
const TAXA: usize = 64;

const COLUMNS: usize = 256;

const DEPTH: usize = 64;

const HINTS: usize = 4096;

// The reader's lists. Of each name of the file: where it starts, how long it is, and a hint by which it is found soon. Of each column: its 1-set and its
// 0-set. Of each open bracket: its number in the tree, the names before it, and whether a subtree in it is finished, with a comma behind it.
#[derive(Drop)]
pub struct Book {
    pub starts: [usize; TAXA],
    pub sizes: [usize; TAXA],
    pub hints: [u8; HINTS],
    pub ones: [u64; COLUMNS],
    pub zeros: [u64; COLUMNS],
    pub index: [usize; DEPTH],
    pub before: [u64; DEPTH],
    pub filled: [bool; DEPTH],
}

// Where the reader stands between two tokens: whether a subtree has just ended there, and what it has counted. Of the file: whether a tree is finished,
// how many taxa, and how many columns in the trees that are finished. Of the tree that is read: its names, how many brackets have opened, and how many
// of these are open. (A refusal's two fields lie over the first and the third, of the same sizes, so that what is read stays in the processor's
// registers: bench/newick.sh.)
#[derive(Clone, Copy)]
pub struct Reading {
    pub ended: bool,
    pub finished: bool,
    pub at: usize,
    pub taxa: usize,
    pub columns: usize,
    pub here: u64,
    pub opened: usize,
    pub depth: usize,
}

// The bytes of a name, eight by eight.
#[derive(Clone, Copy, PartialEq, Eq)]
pub struct Words {
    pub first: u64,
    pub second: u64,
    pub third: u64,
    pub last: u64,
}

// What reading leaves: the lengths of the matrix file and of the name list.
#[derive(Clone, Copy)]
pub struct Derived {
    pub matrix: usize,
    pub names: usize,
}

// What was found, written where both outputs have room.
fn write_found(
    text: &[u8],
    book: &Book,
    end: Reading,
    matrix: &mut [u8],
    names: &mut [u8],
) -> Result<Derived, Refusal>
    requires { Found text.now book.now end }
    ensures { Reads text.now matrix.old names.old result matrix.new names.new }
{
    let file = 12 + 22 * end.columns;
    let list = book.list_length(end.taxa);
    if matrix.len() < file {
        return Err(Reason::Room.at(0));
    }
    if names.len() < list {
        return Err(Reason::Room.at(0));
    }
    put_matrix(
        matrix,
        end.taxa as u16,
        &book.ones,
        &book.zeros,
        end.columns,
    );
    book.put_list(names, text, end.taxa);
    Ok(Derived {
        matrix: file,
        names: list,
    })
}

// The operation, with the lists that the reader keeps.
fn read_with(
    book: &mut Book,
    text: &[u8],
    matrix: &mut [u8],
    names: &mut [u8],
) -> Result<Derived, Refusal>
    requires { Roomy book.old }
    ensures { Reads text.now matrix.old names.old result matrix.new names.new }
{
    let end = book.read_text(&Letters::new(), text)?;
    write_found(text, book, end, matrix, names)
}

// The operation "read source trees".
pub fn read(text: &[u8], matrix: &mut [u8], names: &mut [u8]) -> Result<Derived, Refusal>
    ensures { Reads text.now matrix.old names.old result matrix.new names.new }
{
    let mut book = Book {
        starts: [0; TAXA],
        sizes: [0; TAXA],
        hints: [0; HINTS],
        ones: [0; COLUMNS],
        zeros: [0; COLUMNS],
        index: [0; DEPTH],
        before: [0; DEPTH],
        filled: [false; DEPTH],
    };
    read_with(&mut book, text, matrix, names)
}
