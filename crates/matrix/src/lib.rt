// A matrix file: one head, perhaps n multiplicities, m columns, one end. The operation "check a matrix", and the columns of a file that it takes.
// Promises: every byte string is taken with its n and m or refused with document 01's number and place; file and content
// determine each other. Rests on taxa and record.
#![tactic(auto)]

pub mod writer;

ghost use Rattle.std.specs.Prelude.{◌≡◌, ◌+◌, ◌*◌, ◌<◌, ◌≤◌, length};
ghost use Rattle.taxa.specs.Sets.{multiplicity, multiplicity_in, Tabled};
ghost use Rattle.matrix.specs.Matrix.{has_multiplicities, multiplicity_count, multiplicities_in, columns_at, column_at, column_in};
ghost use Rattle.matrix.specs.inner.Planes.{Multiplied};
ghost use Rattle.matrix.specs.Check as check;

use record::number::{u16_at, u64_at};
use record::refusal::{Reason, Refusal};
use record::{Cursor, Record, Step};

#[derive(Clone, Copy)]
pub struct Column {
    pub weight: u16,
    pub ones: u64,
    pub zeros: u64,
}

// What the check of a matrix tells of one that it takes.
#[derive(Clone, Copy)]
pub struct Shape {
    pub n: u16,
    pub m: u16,
}

impl Column {
    // The column whose payload starts at a place.
    fn read(file: &[u8], at: usize) -> Self
        requires { at + 18 ≤ length file.now }
        ensures { result ≡ column_at file.now at }
    {
        Column {
            weight: u16_at(file, at),
            ones: u64_at(file, at + 2),
            zeros: u64_at(file, at + 10),
        }
    }

    // A column's own refusals, by number; `all` is the set of the n taxa.
    fn judge(self, all: u64, place: usize, next: Cursor) -> Result<Cursor, Refusal>
        ensures { result ≡ check.column_judged all place self next }
    {
        if self.weight == 0 {
            return Err(Reason::Weightless.at(place));
        }
        if !taxa::subset(self.ones, all) {
            return Err(Reason::UnknownTaxon.at(place));
        }
        if !taxa::subset(self.zeros, all) {
            return Err(Reason::UnknownTaxon.at(place));
        }
        if taxa::common(self.ones, self.zeros) != 0 {
            return Err(Reason::BothSets.at(place));
        }
        Ok(next)
    }
}

// The head's own refusals, by number.
fn judge_head(n: u16, m: u16, next: Cursor) -> Result<Cursor, Refusal>
    ensures { result ≡ check.head_judged n m next }
{
    if n == 0 {
        return Err(Reason::TaxonCount.at(0));
    }
    if 64 < n {
        return Err(Reason::TaxonCount.at(0));
    }
    if 256 < m {
        return Err(Reason::ColumnCount.at(0));
    }
    Ok(next)
}

fn pass_head(file: &[u8]) -> Result<Cursor, Refusal>
    ensures { result ≡ check.head_passed file.now }
{
    let step = Cursor::start().read(file, Record::of(Record::MATRIX_HEAD));
    let Step::Payload(at, next) = step else {
        return step.past();
    };
    judge_head(u16_at(file, at), u16_at(file, at + 2), next)
}

// Whether the record after the head is the one of multiplicities.
fn has_multiplicities(file: &[u8]) -> bool
    ensures { result ≡ has_multiplicities file.now }
{
    if file.len() < 12 {
        return false;
    }
    u16_at(file, 10) == Record::MULTIPLICITIES
}

// The multiplicities' own refusal. None being 0, all are 1 where the sum is their number.
fn judge_multiplicities(
    multiplicities: &[u8],
    place: usize,
    next: Cursor,
) -> Result<Cursor, Refusal>
    requires { length multiplicities.now < 65536 }
    ensures { result ≡ check.multiplicities_judged multiplicities.now place next }
{
    let mut sum: u32 = 0;
    for &one in multiplicities {
        if one == 0 {
            return Err(Reason::Multiplicities.at(place));
        }
        sum += u32::from(one);
    }
    if 127 < sum {
        return Err(Reason::Multiplicities.at(place));
    }
    if sum as usize == multiplicities.len() {
        return Err(Reason::Multiplicities.at(place));
    }
    Ok(next)
}

fn pass_multiplicities(here: Cursor, file: &[u8], n: u16) -> Result<Cursor, Refusal>
    ensures { result ≡ check.multiplicities_passed file.now n here }
{
    if !has_multiplicities(file) {
        return Ok(here);
    }
    let step = here.read(file, Record::multiplicities(n));
    let Step::Payload(at, next) = step else {
        return step.past();
    };
    judge_multiplicities(&file[at..at + n as usize], here.at, next)
}

fn pass_column(here: Cursor, file: &[u8], all: u64) -> Result<Cursor, Refusal>
    ensures { result ≡ check.column_passed file.now all here }
{
    let step = here.read(file, Record::of(Record::COLUMN));
    let Step::Payload(at, next) = step else {
        return step.past();
    };
    Column::read(file, at).judge(all, here.at, next)
}

fn pass_columns(here: Cursor, file: &[u8], all: u64, m: u16) -> Result<Cursor, Refusal>
    ensures { result ≡ check.columns_passed file.now all m here }
{
    let mut cursor = here;
    for _ in 0..m {
        cursor = pass_column(cursor, file, all)?;
    }
    Ok(cursor)
}

// The end record, and nothing after it. (Names have one of their own: what the two share is `nothing_after`.)
fn pass_end(here: Cursor, file: &[u8]) -> Result<Cursor, Refusal>
    ensures { result ≡ check.end_passed file.now here }
{
    let step = here.read(file, Record::of(Record::MATRIX_END));
    let Step::Payload(_, after) = step else {
        return step.past();
    };
    after.nothing_after(file)
}

// The operation "check a matrix".
pub fn check(file: &[u8]) -> Result<Shape, Refusal>
    ensures { check.Checks file.now result }
{
    let second = pass_head(file)?;
    let n = u16_at(file, 4);
    let m = u16_at(file, 6);
    let first = pass_multiplicities(second, file, n)?;
    let end = pass_columns(first, file, taxa::all(u32::from(n)), m)?;
    pass_end(end, file)?;
    Ok(Shape { n, m })
}

// How many multiplicities a file holds.
fn multiplicity_count(file: &[u8]) -> usize
    ensures { result ≡ multiplicity_count file.now }
{
    if has_multiplicities(file) {
        u16_at(file, 4) as usize
    } else {
        0
    }
}

// The multiplicities of a file that the check takes go into lent room. (Given back as a value they would stand on the stack twice: bench/stack.sh.)
pub fn load_planes(file: &[u8], planes: &mut [u64; 72])
    requires { Multiplied file.now }
    ensures { (multiplicity_in planes.new ≡ multiplicity (multiplicities_in file.now)) × Tabled planes.new }
{
    taxa::put_planes(&file[12..12 + multiplicity_count(file)], planes);
}

// Where the record of the first column starts.
fn columns_at(file: &[u8]) -> usize
    ensures { result ≡ columns_at file.now }
{
    if has_multiplicities(file) {
        12 + u16_at(file, 4) as usize
    } else {
        8
    }
}

// Column c of a file that the check takes with more than c columns.
pub fn column_in(file: &[u8], c: usize) -> Column
    requires { columns_at file.now + 22 * c + 22 ≤ length file.now }
    ensures { result ≡ column_in file.now c }
{
    Column::read(file, columns_at(file) + 4 + 22 * c)
}
