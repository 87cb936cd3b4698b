// Reads source trees on standard input, as Newick text, and prints one tree of them all, as Newick on one line. A text that is refused gets one line on
// standard error instead: `refused N at P`, why in words, and the line and the column of that place.
// Promises nothing of its own: the work is `newick::read`, `tree::build` and `spelling::write`, and what is printed is compared with stored and independent
// output. Rests on these three, on record and on input; printing is std's. Where reading or printing fails, that is told on standard error and the status is 1.
#![tactic(auto)]

ghost use Rattle.std.specs.Prelude.{◌≡◌, ◌+◌, ◌≤◌, length};

use record::refusal::{Reason, Refusal};
use std::io;

// The longest text that is taken: 1 MiB.
const LONGEST: usize = 1048576;

// One byte more, by which a longer text shows.
const TEXT_ROOM: usize = LONGEST + 1;

// The largest matrix file of source trees: a head, 256 columns and an end.
const MATRIX_ROOM: usize = 8 + 256 * 22 + 4;

// The largest name list: 64 names of 32 bytes and an end.
const NAMES_ROOM: usize = 64 * 36 + 4;

// A number for each 1 of any matrix: 64 taxa times 256 columns have no more.
const WORKSPACE_ROOM: usize = 64 * 256;

// The largest answer: a head, 63 groups, 256 columns with flips and an end.
const ANSWER_ROOM: usize = 16 + 63 * 16 + 256 * 22 + 4;

// The longest tree: 64 names of 32 bytes, two brackets and a comma for each of 63 groups, and a semicolon.
const TREE_ROOM: usize = 64 * 32 + 63 * 3 + 1;

const LINE_FEED: u8 = 10;

const OPENING_BRACKET: u8 = 40;

fn text_room() -> [u8; TEXT_ROOM]
    ensures { length result ≡ 1048577 }
{
    [0; TEXT_ROOM]
}

fn workspace_room() -> [i32; WORKSPACE_ROOM]
    ensures { length result ≡ 16384 }
{
    [0; WORKSPACE_ROOM]
}

// The first bytes of a lent room, those that were written. The test only tells the checker what every size meets.
fn written(room: &[u8], size: usize) -> &[u8] {
    if size > room.len() {
        return room;
    }
    &room[0..size]
}

// A place in a text as editors count it: from 1, a column for each byte.
#[derive(Clone, Copy)]
struct Spot {
    line: u64,
    column: u64,
}

impl Spot {
    // The place behind a byte.
    fn behind(self, byte: u8) -> Self
        requires { (self.line ≤ 1048576) × (self.column ≤ 1048576) }
        ensures { (result.line ≤ self.line + 1) × (result.column ≤ self.column + 1) }
    {
        if byte == LINE_FEED {
            return Self {
                line: self.line + 1,
                column: 1,
            };
        }
        Self {
            line: self.line,
            column: self.column + 1,
        }
    }
}

// The place behind the first bytes of a text.
fn spot_behind(start: &[u8]) -> Spot
    requires { length start.now ≤ 1048576 }
{
    let mut spot = Spot { line: 1, column: 1 };
    for &byte in start {
        spot = spot.behind(byte);
    }
    spot
}

// A refusal of what the program itself made: none comes, since each room is for the most there can be.
fn tell_fault(rt: &impl Eprint, why: Refusal) -> io::Result<()> {
    eprintln!(rt; "{why}")
}

// 16 stands at a byte or at the text's end.
fn tell_misfit(rt: &impl Eprint, rest: &[u8]) -> io::Result<()> {
    if rest.len() == 0 {
        rt.eprint("the text ends before a tree does")
    } else {
        rt.eprint("this byte cannot stand here")
    }
}

// 19 stands at a bracket or at a name.
fn tell_too_many(rt: &impl Eprint, rest: &[u8]) -> io::Result<()> {
    if rest.len() > 0 {
        if rest[0] == OPENING_BRACKET {
            return rt.eprint("there are more than 256 groups");
        }
    }
    rt.eprint("there are more than 64 names")
}

// Why a text is refused at a place, from which on `rest` stands. What is left is the room, which never lacks.
fn tell_words(rt: &impl Eprint, reason: Reason, rest: &[u8]) -> io::Result<()> {
    match reason {
        Reason::Misfit => tell_misfit(rt, rest),
        Reason::LongName => rt.eprint("a name is longer than 32 characters"),
        Reason::Repeated => rt.eprint("a name stands twice in one tree"),
        Reason::TooMany => tell_too_many(rt, rest),
        Reason::TooDeep => rt.eprint("more than 64 brackets are open"),
        _ => rt.eprint("there is no room"),
    }
}

// The test only tells the checker what every place meets.
fn tell_why(rt: &impl Eprint, text: &[u8], why: Refusal) -> io::Result<()>
    requires { length text.now ≤ 1048576 }
{
    eprint!(rt; "{why}")?;
    let place = why.place;
    if place <= text.len() {
        rt.eprint(": ")?;
        tell_words(rt, why.reason, &text[place..])?;
        let spot = spot_behind(&text[0..place]);
        eprint!(rt; ", line {}, column {}", spot.line, spot.column)?;
    }
    rt.eprint("\n")
}

fn say_line(rt: &impl Print, text: &[u8]) -> io::Result<()> {
    rt.write_all(text)?;
    rt.write_all(b"\n")
}

fn say_tree(rt: &(impl Print + Eprint), tree: &[u8]) -> io::Result<()> {
    let said = say_line(rt, tree);
    if said.is_err() {
        eprintln!(rt; "the tree could not be written")?;
    }
    said
}

fn spell_tree(rt: &(impl Print + Eprint), answer: &[u8], names: &[u8]) -> io::Result<()> {
    let mut tree = [0; TREE_ROOM];
    match spelling::write(answer, names, &mut tree) {
        Ok(size) => say_tree(rt, written(&tree, size)),
        Err(why) => tell_fault(rt, why),
    }
}

fn build_tree(rt: &(impl Print + Eprint), matrix: &[u8], names: &[u8]) -> io::Result<()> {
    let mut workspace = workspace_room();
    let mut answer = [0; ANSWER_ROOM];
    match tree::build(matrix, &mut workspace, &mut answer) {
        Ok(built) => spell_tree(rt, written(&answer, built.size), names),
        Err(why) => tell_fault(rt, why),
    }
}

fn read_trees(rt: &(impl Print + Eprint), text: &[u8]) -> io::Result<()>
    requires { length text.now ≤ 1048576 }
{
    let mut matrix = [0; MATRIX_ROOM];
    let mut names = [0; NAMES_ROOM];
    match newick::read(text, &mut matrix, &mut names) {
        Ok(sizes) => build_tree(
            rt,
            written(&matrix, sizes.matrix),
            written(&names, sizes.names),
        ),
        Err(why) => tell_why(rt, text, why),
    }
}

fn main(rt: HostRuntime) -> io::Result<()> {
    let mut text = text_room();
    let size = input::read_full(&mut rt.stdin(), &mut text)?;
    if size > LONGEST {
        return eprintln!(rt; "the text is longer than {LONGEST} bytes");
    }
    read_trees(&rt, &text[..size])
}
