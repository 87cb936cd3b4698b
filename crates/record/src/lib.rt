// Records of a file: what each kind looks like, one record in by a cursor, numbers and records out.
// Promises: reading a record and writing one are what specs/ says, for any bytes and any place, and so are the numbers of refusals.
// Rests on nothing.
#![tactic(auto)]

pub mod number;
pub mod refusal;
pub mod writer;

ghost use Rattle.std.specs.Prelude.{◌≡◌, ◌+◌, ◌*◌, ◌≤◌, ◌<◌, length};
ghost use Rattle.record.specs.Bytes.{equal};
ghost use Rattle.record.specs.Records.{record_of, multiplicity_record, left, step, past, nothing_after};
ghost use Rattle.record.specs.Records.{allowed, varied, varying_step, finds};

use number::{u16_at, u32_at, u64_at};
use refusal::{Reason, Refusal};

// The bytes of the longest number.
const WORD: usize = 8;

// What a record says of itself: its kind and how long its payload is.
#[derive(Clone, Copy)]
pub struct Record {
    pub kind: u16,
    pub length: u16,
}

impl Record {
    // Numbers and no enum: document 01 has each kind's number as a named constant of the record type.
    pub const MATRIX_HEAD: u16 = 1;

    pub const COLUMN: u16 = 2;

    pub const MATRIX_END: u16 = 3;

    pub const MULTIPLICITIES: u16 = 5;

    pub const ANSWER_HEAD: u16 = 17;

    pub const GROUP: u16 = 18;

    pub const FLIPS: u16 = 19;

    pub const ANSWER_END: u16 = 20;

    pub const NAME: u16 = 33;

    pub const NAMES_END: u16 = 34;

    // The record of a kind, as long as document 01's table says; the end records, and no others of the table, have no payload.
    pub fn of(kind: u16) -> Self
        ensures { result ≡ record_of kind }
    {
        let length = match kind {
            Self::MATRIX_HEAD => 4,
            Self::COLUMN => 18,
            Self::ANSWER_HEAD => 12,
            Self::GROUP => 12,
            Self::FLIPS => 18,
            _ => 0,
        };
        Record { kind, length }
    }

    // The record of n multiplicities: its length is not of its kind, so that `of` does not make it.
    pub fn multiplicities(n: u16) -> Self
        ensures { result ≡ multiplicity_record n }
    {
        Record {
            kind: Self::MULTIPLICITIES,
            length: n,
        }
    }

    // Its length and kind as one number, as it opens with them.
    fn opening(self) -> u32
        ensures { result ≡ self.length + 65536 * self.kind }
    {
        self.length as u32 + 65536 * self.kind as u32
    }
}

// What a record says of itself whose length may vary: the least, or a multiple of `by` more, up to the most.
#[derive(Clone, Copy)]
pub struct Varying {
    pub kind: u16,
    pub least: u16,
    pub most: u16,
    pub by: u16,
}

impl Varying {
    // Whether a length may stand there.
    fn allows(self, length: u16) -> bool
        requires { 0 < self.by }
        ensures { result ≡ allowed self length }
    {
        if length <= self.least {
            return length == self.least;
        }
        (length <= self.most) & ((length - self.least) % self.by == 0)
    }

    // The record that is expected where a length stands.
    fn standing(self, length: u16) -> Record
        requires { 0 < self.by }
        ensures { result ≡ varied self length }
    {
        if self.allows(length) {
            return Record {
                kind: self.kind,
                length,
            };
        }
        Record {
            kind: self.kind,
            length: self.least,
        }
    }
}

// The place of the next record.
#[derive(Clone, Copy)]
pub struct Cursor {
    pub at: usize,
}

// What reading a record finds: its payload's place with the cursor moved on, or the refusal. (An enum of its own and no Result: document 01 has it taken
// apart by let .. else.)
#[derive(Clone, Copy)]
pub enum Step {
    Payload(usize, Cursor),
    Refused(Refusal),
}

impl Cursor {
    // Where every file begins.
    pub fn start() -> Self
        ensures { result.at ≡ 0 }
    {
        Cursor { at: 0 }
    }

    // How many bytes are left.
    pub fn left(self, file: &[u8]) -> usize
        ensures { result ≡ left file.now self.at }
    {
        let at = self.at;
        if at < file.len() { file.len() - at } else { 0 }
    }

    // One reading step.
    pub fn read(self, file: &[u8], expected: Record) -> Step
        ensures { result ≡ step file.now self.at expected }
    {
        let at = self.at;
        let left = self.left(file);
        if left < 4 {
            return Step::Refused(Reason::CutShort.at(at));
        }
        if u16_at(file, at + 2) != expected.kind {
            return Step::Refused(Reason::Unexpected.at(at));
        }
        if u16_at(file, at) != expected.length {
            return Step::Refused(Reason::Unexpected.at(at));
        }
        let length = expected.length as usize;
        if left - 4 < length {
            return Step::Refused(Reason::CutShort.at(at));
        }
        Step::Payload(
            at + 4,
            Cursor {
                at: at + 4 + length,
            },
        )
    }

    // One reading step, of a record that the file has room for: its opening alone is judged.
    pub fn read_whole(self, file: &[u8], expected: Record) -> Step
        requires { self.at + 4 + expected.length ≤ length file.now }
        ensures { result ≡ step file.now self.at expected }
    {
        let at = self.at;
        if u32_at(file, at) != expected.opening() {
            return Step::Refused(Reason::Unexpected.at(at));
        }
        Step::Payload(
            at + 4,
            Cursor {
                at: at + 4 + expected.length as usize,
            },
        )
    }

    // One reading step, of a record whose length may vary.
    pub fn read_varying(self, file: &[u8], expected: Varying) -> Step
        requires { 0 < expected.by }
        ensures { result ≡ varying_step file.now self.at expected }
    {
        let at = self.at;
        if self.left(file) < 4 {
            return Step::Refused(Reason::CutShort.at(at));
        }
        self.read(file, expected.standing(u16_at(file, at)))
    }

    // Whether a record of a kind starts here.
    pub fn finds(self, file: &[u8], kind: u16) -> bool
        ensures { result ≡ finds file.now self.at kind }
    {
        let at = self.at;
        if self.left(file) < 4 {
            return false;
        }
        u16_at(file, at + 2) == kind
    }

    // Past the end record: nothing may follow.
    pub fn nothing_after(self, file: &[u8]) -> Result<Self, Refusal>
        ensures { result ≡ nothing_after file.now self }
    {
        if 0 < self.left(file) {
            return Err(Reason::Trailing.at(self.at));
        }
        Ok(self)
    }
}

impl Step {
    // Past the record, whatever its payload holds; or why it was refused.
    pub fn past(self) -> Result<Cursor, Refusal>
        ensures { result ≡ past self }
    {
        match self {
            Step::Payload(_, next) => Ok(next),
            Step::Refused(why) => Err(why),
        }
    }
}

// Whether two pieces of the same length are the same, which is told at the first byte that differs.
fn same_few(one: &[u8], other: &[u8]) -> bool
    requires { length one.now ≡ length other.now }
    ensures { result ≡ equal one.now other.now }
{
    for i in 0..one.len() {
        if one[i] != other[i] {
            return false;
        }
    }
    true
}

// Whether two pieces of files are the same. (By `==` alone, names that differ behind their first four bytes would take a call each: docs/LOOK-BACK.md.)
pub fn same(one: &[u8], other: &[u8]) -> bool
    ensures { result ≡ equal one.now other.now }
{
    if one.len() != other.len() {
        return false;
    }
    if one.len() < WORD {
        return same_few(one, other);
    }
    if u64_at(one, 0) != u64_at(other, 0) {
        return false;
    }
    one[WORD..] == other[WORD..]
}
