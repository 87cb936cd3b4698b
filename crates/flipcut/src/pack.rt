// What packs: the answer of each operation as one number.
ghost use Rattle.std.specs.Prelude.{◌≡◌};
ghost use Rattle.flipcut.specs.Packed.{packed, packed_build, packed_read, packed_refusal, packed_score, packed_split, packed_write};
ghost use Rattle.flipcut.specs.Packed.{packed_names, packed_text, packed_trees, told, result_after, value_after, with_groups};
ghost use Rattle.flipcut.specs.inner.Fitting.{RefusalFits, CheckFits, BuildFits, SplitFits, ReadFits, WriteFits, ScoreFits};
ghost use Rattle.flipcut.specs.inner.Fitting.{TreesFit, TextFits};

use answer::Answer;
use matrix::Shape;
use newick::Derived;
use record::refusal::Refusal;
use score::Sums;
use search::Split;
use tree::Built;

const MOST_GROUPS: usize = 63;

// How many numbers are lent for what a split finds: its cost, side A and t.
pub const SPLIT_RESULTS: usize = 3;

// And for what is read: five numbers, then the groups, then their costs.
const GROUPS_AT: usize = 5;

const COSTS_AT: usize = GROUPS_AT + MOST_GROUPS;

pub const READ_RESULTS: usize = COSTS_AT + MOST_GROUPS;

// A place has 55 bits, so this is the last that can be told.
const LAST_PLACE: usize = 0x7f_ffff_ffff_ffff;

fn refusal(why: Refusal) -> u64
    requires { RefusalFits why }
    ensures { result ≡ packed_refusal why }
{
    0x8000_0000_0000_0000 + (why.reason.number() as u64 + 256 * why.place as u64)
}

pub fn check(answer: Result<Shape, Refusal>) -> u64
    requires { CheckFits answer }
    ensures { result ≡ packed answer }
{
    match answer {
        Ok(shape) => shape.n as u64 + 65536 * shape.m as u64,
        Err(why) => refusal(why),
    }
}

pub fn build(answer: Result<Built, Refusal>) -> u64
    requires { BuildFits answer }
    ensures { result ≡ packed_build answer }
{
    match answer {
        Ok(built) => built.total as u64 + 0x1_0000_0000 * built.size as u64,
        Err(why) => refusal(why),
    }
}

// What was found is put into `result`.
pub fn split(answer: Result<Split, Refusal>, res: &mut [u64; SPLIT_RESULTS]) -> u64
    requires { SplitFits answer }
    ensures { (result ≡ packed_split answer) × (res.new ≡ result_after answer res.old) }
{
    match answer {
        Ok(found) => {
            res[0] = found.cost as u64;
            res[1] = found.side;
            res[2] = found.other as u64;
            0
        }
        Err(why) => refusal(why),
    }
}

// The groups, and their costs behind them.
fn put_groups(res: &mut [u64; READ_RESULTS], answer: Answer)
    ensures { res.new ≡ with_groups 63 answer.taxa answer.costs res.old }
{
    for i in 0..MOST_GROUPS {
        res[GROUPS_AT + i] = answer.taxa[i];
        res[COSTS_AT + i] = answer.costs[i] as u64;
    }
}

fn put_value(res: &mut [u64; READ_RESULTS], answer: Answer)
    ensures { res.new ≡ value_after (Ok answer) res.old }
{
    res[0] = answer.n as u64;
    res[1] = answer.m as u64;
    res[2] = answer.groups as u64;
    res[3] = answer.flips as u64;
    res[4] = answer.total as u64;
    put_groups(res, answer);
}

// What was read is put into `result`.
pub fn read(reading: Result<Answer, Refusal>, res: &mut [u64; READ_RESULTS]) -> u64
    requires { ReadFits reading }
    ensures { (result ≡ packed_read reading) × (res.new ≡ value_after reading res.old) }
{
    match reading {
        Ok(answer) => {
            put_value(res, answer);
            0
        }
        Err(why) => refusal(why),
    }
}

pub fn write(answer: Result<usize, Refusal>) -> u64
    requires { WriteFits answer }
    ensures { result ≡ packed_write answer }
{
    match answer {
        Ok(size) => 0x1_0000_0000 * size as u64,
        Err(why) => refusal(why),
    }
}

pub fn score(answer: Result<Sums, Refusal>) -> u64
    requires { ScoreFits answer }
    ensures { result ≡ packed_score answer }
{
    match answer {
        Ok(sums) => sums.lowers.0 as u64 + 0x8000_0000 * sums.raises.0 as u64,
        Err(why) => refusal(why),
    }
}

// A refusal in a text or a name list: no bound is set to these, as there is to a matrix or an answer.
fn far_refusal(why: Refusal) -> u64
    ensures { result ≡ packed_refusal (told why) }
{
    refusal(why.reason.at(why.place.min(LAST_PLACE)))
}

pub fn check_names(answer: Result<usize, Refusal>) -> u64
    ensures { result ≡ packed_names answer }
{
    match answer {
        Ok(count) => count as u64,
        Err(why) => far_refusal(why),
    }
}

pub fn read_newick(answer: Result<Derived, Refusal>) -> u64
    requires { TreesFit answer }
    ensures { result ≡ packed_trees answer }
{
    match answer {
        Ok(sizes) => sizes.names as u64 + 0x1_0000_0000 * sizes.matrix as u64,
        Err(why) => far_refusal(why),
    }
}

pub fn write_newick(answer: Result<usize, Refusal>) -> u64
    requires { TextFits answer }
    ensures { result ≡ packed_text answer }
{
    match answer {
        Ok(size) => 0x1_0000_0000 * size as u64,
        Err(why) => far_refusal(why),
    }
}
