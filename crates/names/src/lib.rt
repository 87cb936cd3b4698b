// A name list: a record for each name, one end. The operation "check a name list", and the names of a file that it takes.
// Promises: every byte string is taken with the number of its names or refused with document 02's number and place; file and names
// determine each other. Rests on record and grammar.
#![tactic(auto)]

ghost use Rattle.std.specs.Prelude.{◌≡◌, ◌<◌, length};
ghost use Rattle.record.specs.Bytes.{equal};
ghost use Rattle.grammar.specs.Bytes.{is_letter};
ghost use Rattle.grammar.specs.Limits.{is_in};
ghost use Rattle.names.specs.Names.{name_at};
ghost use Rattle.names.specs.Check as check;
ghost use Rattle.names.specs.Check.{spelt, names_in};
ghost use Rattle.names.specs.Read.{Locates};
ghost use Rattle.names.specs.inner.Places.{after, names_from, place_from, Whole, Stands};

use record::number::u16_at;
use record::refusal::{Reason, Refusal};
use record::{Cursor, Record, Step, Varying};

// Where a name stands in a file, and how long it is.
#[derive(Clone, Copy)]
pub struct Found {
    pub place: usize,
    pub length: usize,
}

// The record of a name, 1 to 32 bytes long.
fn any_name() -> Varying
    ensures { result ≡ check.any_name }
{
    Varying {
        kind: Record::NAME,
        least: 1,
        most: 32,
        by: 1,
    }
}

// Whether a byte may stand in a name. (Most are letters, which are told first, and then digits.)
fn may_stand(byte: u8) -> bool
    ensures { result ≡ is_letter byte }
{
    if b'a' <= byte && byte <= b'z' || b'A' <= byte && byte <= b'Z' {
        return true;
    }
    if b'0' <= byte && byte <= b'9' {
        return true;
    }
    grammar::is_letter(byte)
}

// Whether each byte may stand in a name.
fn is_spelt(name: &[u8]) -> bool
    ensures { result ≡ spelt name.now }
{
    for &byte in name {
        if !may_stand(byte) {
            return false;
        }
    }
    true
}

// Where the record after the one at a place starts.
fn after(file: &[u8], at: usize) -> usize
    requires { Whole file.now at }
    ensures { result ≡ after file.now at }
{
    at + 4 + u16_at(file, at) as usize
}

// Whether the records at two places hold the same name.
fn same_name(file: &[u8], one: usize, other: usize) -> bool
    requires { Whole file.now one × Whole file.now other }
    ensures { result ≡ equal (name_at file.now one) (name_at file.now other) }
{
    let one_end = after(file, one);
    let other_end = after(file, other);
    record::same(&file[one + 4..one_end], &file[other + 4..other_end])
}

// Whether one of the first `count` names is the name of the record at a place: they are met again from the file's start, so that no memory is needed.
fn is_repeat(file: &[u8], count: usize, place: usize) -> bool
    requires { Stands file.now count place }
    ensures { result ≡ is_in (name_at file.now place) (names_from file.now count 0) }
{
    let mut at = 0;
    for _ in 0..count {
        if same_name(file, place, at) {
            return true;
        }
        at = after(file, at);
    }
    false
}

// One name, after the first `count`: read, then judged.
fn pass_name(here: Cursor, file: &[u8], count: usize) -> Result<Cursor, Refusal>
    requires { here.at ≡ place_from file.now count 0 }
    ensures { result ≡ check.name_passed file.now (names_from file.now count 0) here }
{
    let place = here.at;
    let step = here.read_varying(file, any_name());
    let Step::Payload(at, next) = step else {
        return step.past();
    };
    let end = next.at;
    if !is_spelt(&file[at..end]) {
        return Err(Reason::Misfit.at(place));
    }
    if is_repeat(file, count, place) {
        return Err(Reason::Repeated.at(place));
    }
    Ok(next)
}

// The end record, and nothing after it. (A matrix has one of its own: what the two share is `nothing_after`.)
fn pass_end(here: Cursor, file: &[u8]) -> Result<Cursor, Refusal>
    ensures { result ≡ check.end_passed file.now here }
{
    let step = here.read(file, Record::of(Record::NAMES_END));
    let Step::Payload(_, after) = step else {
        return step.past();
    };
    after.nothing_after(file)
}

// The operation "check a name list": how many names it has.
pub fn check(file: &[u8]) -> Result<usize, Refusal>
    ensures { check.Checks file.now result }
{
    let mut cursor = Cursor::start();
    let mut count: usize = 0;
    while cursor.finds(file, Record::NAME) {
        cursor = pass_name(cursor, file, count)?;
        count += 1;
    }
    pass_end(cursor, file)?;
    Ok(count)
}

// Name number `index` of a file that the check takes with more than `index` names.
pub fn name_at(file: &[u8], index: usize) -> Found
    requires { index < length (names_in file.now) }
    ensures { Locates file.now index result }
{
    let mut at = 0;
    for _ in 0..index {
        at = after(file, at);
    }
    Found {
        place: at + 4,
        length: u16_at(file, at) as usize,
    }
}
