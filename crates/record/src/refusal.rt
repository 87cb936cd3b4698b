// Why and where an input is refused: the refusals of documents 01 and 02, each with its number.
ghost use Rattle.std.specs.Prelude.{◌≡◌};
ghost use Rattle.record.specs.Refusals.{refused, refusal_number};

use std::fmt;

// What an input is refused for, in the order of the documents' numbers.
#[derive(Clone, Copy, PartialEq, Eq)]
pub enum Reason {
    CutShort,
    Unexpected,
    TaxonCount,
    ColumnCount,
    Weightless,
    UnknownTaxon,
    BothSets,
    Trailing,
    Workspace,
    Room,
    GroupToSplit,
    Groups,
    Flips,
    Total,
    Differ,
    Misfit,
    LongName,
    Repeated,
    TooMany,
    TooDeep,
    Multiplicities,
    OtherTree,
}

impl Reason {
    // Told at a place.
    pub fn at(self, place: usize) -> Refusal
        ensures { result ≡ refused self place }
    {
        Refusal {
            reason: self,
            place,
        }
    }

    // The number that document 01 or 02 gives it.
    pub fn number(self) -> u8
        ensures { result ≡ refusal_number self }
    {
        match self {
            Reason::CutShort => 1,
            Reason::Unexpected => 2,
            Reason::TaxonCount => 3,
            Reason::ColumnCount => 4,
            Reason::Weightless => 5,
            Reason::UnknownTaxon => 6,
            Reason::BothSets => 7,
            Reason::Trailing => 8,
            Reason::Workspace => 9,
            Reason::Room => 10,
            Reason::GroupToSplit => 11,
            Reason::Groups => 12,
            Reason::Flips => 13,
            Reason::Total => 14,
            Reason::Differ => 15,
            Reason::Misfit => 16,
            Reason::LongName => 17,
            Reason::Repeated => 18,
            Reason::TooMany => 19,
            Reason::TooDeep => 20,
            Reason::Multiplicities => 21,
            Reason::OtherTree => 26,
        }
    }
}

// A reason and the place that it is told at.
#[derive(Clone, Copy, PartialEq, Eq)]
pub struct Refusal {
    pub reason: Reason,
    pub place: usize,
}

impl fmt::Display for Refusal {
    fn fmt<W: fmt::Write>(&self, f: &mut fmt::Formatter<W>) -> fmt::Result {
        write!(f, "refused {} at {}", self.reason.number(), self.place)
    }
}
