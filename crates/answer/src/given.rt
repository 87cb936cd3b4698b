// Writing's tests: those of reading, on what is given, each record placed as in the file. (Loops of their own: reading takes its values out of the file as it
// goes. Each judgement is one function for both, in rules.rt.)
ghost use Rattle.std.specs.Prelude.{◌≡◌, ◌≤◌, ◌+◌, length};
ghost use Rattle.record.specs.Records.{payload};
ghost use Rattle.answer.specs.Content.{content_of};
ghost use Rattle.answer.specs.Tests.{as_given, walk, group_test, flips_test, tests};

use super::Answer;
use super::rules::{entry_fault, group_fault, head_fault, judge, total_fault};
use record::refusal::Refusal;
use record::{Cursor, Record};

// Past a record of a kind.
fn past(here: Cursor, kind: u16) -> Cursor
    requires { here.at ≤ 65536 }
    ensures { result ≡ record { at = here.at + 4 + payload kind } }
{
    let it = Record::of(kind);
    Cursor {
        at: here.at + 4 + it.length as usize,
    }
}

fn given_groups(n: u16, taxa: &[u64; 63], groups: u16, from: Cursor) -> Result<Cursor, Refusal>
    requires { (n ≤ 64) × (groups ≤ 63) × (from.at ≡ 16) }
    ensures { result ≡ walk (group_test as_given n taxa.now) groups from }
{
    let mut here = from;
    for i in 0..groups as usize {
        here = judge(group_fault(n, taxa, i), here.at, past(here, Record::GROUP))?;
    }
    Ok(here)
}

fn given_flips(
    n: u16,
    m: u16,
    columns: &[u64],
    raised: &[u64],
    lowered: &[u64],
    flips: u16,
    from: Cursor,
) -> Result<Cursor, Refusal>
    requires n_bound { (n ≤ 64) × (m ≤ 256) × (flips ≤ 256) × (from.at ≤ 1024) }
    requires flips_in_bounds { (flips ≤ length columns.now) × (flips ≤ length raised.now) × (flips ≤ length lowered.now) }
    ensures { result ≡ walk (flips_test as_given n m columns.now raised.now lowered.now) flips from }
{
    let mut here = from;
    let mut floor: u64 = 0;
    for j in 0..flips as usize {
        let fault = entry_fault(n, m, floor, columns[j], raised[j], lowered[j]);
        here = judge(fault, here.at, past(here, Record::FLIPS))?;
        floor = columns[j] + 1;
    }
    Ok(here)
}

// Every test; `entries` is how many the lent list has.
pub fn pass_given(
    answer: Answer,
    columns: &[u64],
    raised: &[u64],
    lowered: &[u64],
    entries: usize,
) -> Result<Cursor, Refusal>
    requires { (entries ≤ length columns.now) × (entries ≤ length raised.now) × (entries ≤ length lowered.now) }
    ensures { result ≡ tests as_given (content_of answer columns.now raised.now lowered.now) entries }
{
    let fault = head_fault(answer.n, answer.m, answer.groups, answer.flips, entries);
    let first = judge(fault, 0, past(Cursor::start(), Record::ANSWER_HEAD))?;
    let flips = given_groups(answer.n, &answer.taxa, answer.groups, first)?;
    let end = given_flips(
        answer.n,
        answer.m,
        columns,
        raised,
        lowered,
        answer.flips,
        flips,
    )?;
    judge(
        total_fault(answer.total, &answer.costs, answer.groups),
        end.at,
        past(end, Record::ANSWER_END),
    )
}
