// Reading an answer: every test on the file, record by record; then what it holds.
ghost use Rattle.std.specs.Prelude.{◌≡◌, ◌≤◌, ◌+◌, ◌*◌, length};
ghost use Rattle.record.specs.Bytes.{number_at, over};
ghost use Rattle.answer.specs.Content.{padded, taxa_in, costs_in, columns_from, raised_from, lowered_from, content_in, answer_of, group_count, flip_count};
ghost use Rattle.answer.specs.Tests.{in_file, walk, head_test, group_test, entry_test, flips_test, end_test};
ghost use Rattle.answer.specs.Reading.{file_tests};

use super::Answer;
use super::rules::{entry_fault, group_fault, head_fault, judge, total_fault};
use record::number::{u16_at, u32_at, u64_at};
use record::refusal::Refusal;
use record::{Cursor, Record, Step};

fn pass_head(file: &[u8]) -> Result<Cursor, Refusal>
    ensures { result ≡ head_test (in_file file.now) (number_at 2 file.now 4) (number_at 2 file.now 6)
        (group_count file.now) (flip_count file.now) (flip_count file.now) }
{
    let step = Cursor::start().read(file, Record::of(Record::ANSWER_HEAD));
    let Step::Payload(_, next) = step else {
        return step.past();
    };
    let flips = u16_at(file, 10);
    let fault = head_fault(
        u16_at(file, 4),
        u16_at(file, 6),
        u16_at(file, 8),
        flips,
        flips as usize,
    );
    judge(fault, 0, next)
}

// The groups read so far stand in `taxa`, to judge the next one against.
fn pass_groups(file: &[u8], n: u16, groups: u16, from: Cursor) -> Result<Cursor, Refusal>
    requires { (n ≤ 64) × (groups ≤ 63) × (from.at ≡ 16) }
    ensures { result ≡ walk (group_test (in_file file.now) n (taxa_in file.now groups)) groups from }
{
    let mut taxa = [0u64; 63];
    let mut here = from;
    for i in 0..groups as usize {
        let step = here.read(file, Record::of(Record::GROUP));
        let Step::Payload(at, next) = step else {
            return step.past();
        };
        taxa[i] = u64_at(file, at);
        here = judge(group_fault(n, &taxa, i), here.at, next)?;
    }
    Ok(here)
}

// One flips record; `floor` is the least column that those before it leave.
fn pass_entry(file: &[u8], n: u16, m: u16, floor: u64, here: Cursor) -> Result<Cursor, Refusal>
    requires { n ≤ 64 }
    ensures { result ≡ entry_test (in_file file.now) n m floor (number_at 2 file.now (here.at + 4))
        (number_at 8 file.now (here.at + 6)) (number_at 8 file.now (here.at + 14)) here }
{
    let step = here.read(file, Record::of(Record::FLIPS));
    let Step::Payload(at, next) = step else {
        return step.past();
    };
    let fault = entry_fault(
        n,
        m,
        floor,
        u64::from(u16_at(file, at)),
        u64_at(file, at + 2),
        u64_at(file, at + 10),
    );
    judge(fault, here.at, next)
}

fn pass_flips(file: &[u8], n: u16, m: u16, flips: u16, from: Cursor) -> Result<Cursor, Refusal>
    requires { n ≤ 64 }
    ensures { result ≡ walk (flips_test (in_file file.now) n m (columns_from file.now from.at flips)
        (raised_from file.now from.at flips) (lowered_from file.now from.at flips)) flips from }
{
    let mut here = from;
    let mut floor: u64 = 0;
    for _ in 0..flips {
        let next = pass_entry(file, n, m, floor, here)?;
        floor = u64::from(u16_at(file, here.at + 4)) + 1;
        here = next;
    }
    Ok(here)
}

// The taxa of the first groups, and 0 in the places past them.
fn taxa_in(file: &[u8], groups: usize) -> [u64; 63]
    requires { (groups ≤ 63) × (16 + 16 * groups ≤ length file.now) }
    ensures { result ≡ padded (taxa_in file.now groups) }
{
    let mut taxa = [0u64; 63];
    for i in 0..groups {
        taxa[i] = u64_at(file, 20 + 16 * i);
    }
    taxa
}

// Their split costs. (A loop beside the one for taxa: numbers of another width, at another place of a group.)
fn costs_in(file: &[u8], groups: usize) -> [u32; 63]
    requires { (groups ≤ 63) × (16 + 16 * groups ≤ length file.now) }
    ensures { result ≡ padded (costs_in file.now groups) }
{
    let mut costs = [0u32; 63];
    for i in 0..groups {
        costs[i] = u32_at(file, 28 + 16 * i);
    }
    costs
}

fn pass_end(file: &[u8], groups: u16, here: Cursor) -> Result<Cursor, Refusal>
    requires { (groups ≤ 63) × (16 + 16 * groups ≤ length file.now) }
    ensures { result ≡ end_test (in_file file.now) (number_at 4 file.now 12) (costs_in file.now groups) groups here }
{
    let step = here.read(file, Record::of(Record::ANSWER_END));
    let Step::Payload(_, next) = step else {
        return step.past();
    };
    let costs = costs_in(file, groups as usize);
    judge(total_fault(u32_at(file, 12), &costs, groups), here.at, next)
}

// Every test on the file.
pub fn pass_file(file: &[u8]) -> Result<Cursor, Refusal>
    ensures { result ≡ file_tests file.now }
{
    let first = pass_head(file)?;
    let n = u16_at(file, 4);
    let groups = u16_at(file, 8);
    let flips = pass_groups(file, n, groups, first)?;
    let end = pass_flips(file, n, u16_at(file, 6), u16_at(file, 10), flips)?;
    let after = pass_end(file, groups, end)?;
    after.nothing_after(file)
}

// The value of a file that passed.
pub fn answer_in(file: &[u8]) -> Answer
    requires { (group_count file.now ≤ 63) × (16 + 16 * group_count file.now ≤ length file.now) }
    ensures { result ≡ answer_of (content_in file.now) }
{
    let groups = u16_at(file, 8);
    let taxa = taxa_in(file, groups as usize);
    let costs = costs_in(file, groups as usize);
    Answer {
        n: u16_at(file, 4),
        m: u16_at(file, 6),
        groups,
        flips: u16_at(file, 10),
        total: u32_at(file, 12),
        taxa,
        costs,
    }
}

// The flips of a file that passed, into the lent list; the first one's record starts at `first`.
pub fn fill(
    file: &[u8],
    first: usize,
    flips: usize,
    columns: &mut [u64],
    raised: &mut [u64],
    lowered: &mut [u64],
)
    requires flips_in_bounds { first + 22 * flips ≤ length file.now }
    requires flips_in_bounds_2 { (flips ≤ length columns.old) × (flips ≤ length raised.old) × (flips ≤ length lowered.old) }
    ensures columns_after { columns.new ≡ over (columns_from file.now first flips) 0 columns.old }
    ensures raised_after { raised.new ≡ over (raised_from file.now first flips) 0 raised.old }
    ensures lowered_after { lowered.new ≡ over (lowered_from file.now first flips) 0 lowered.old }
{
    for j in 0..flips {
        let at = first + 22 * j;
        columns[j] = u64::from(u16_at(file, at + 4));
        raised[j] = u64_at(file, at + 6);
        lowered[j] = u64_at(file, at + 14);
    }
}
