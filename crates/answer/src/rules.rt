// The rules of an answer, for reading and for writing: why a record is refused, by the first rule that it breaks.
ghost use Rattle.std.specs.Prelude.{◌≡◌, ◌<◌, ◌≤◌, ◌+◌, length, sum};
ghost use Rattle.answer.specs.Rules as rules;
ghost use Rattle.answer.specs.Tests as tests;

use record::Cursor;
use record::refusal::{Reason, Refusal};
use taxa::{all, common, size, subset, union};

// A record judged at its place.
#[tactic(auto, unfolding(crate::specs::Tests::judge))]
pub fn judge(fault: Option<Reason>, place: usize, next: Cursor) -> Result<Cursor, Refusal>
    ensures { result ≡ tests.judge fault place next }
{
    match fault {
        None => Ok(next),
        Some(reason) => Err(reason.at(place)),
    }
}

// Whether the head may count so many groups.
#[tactic(auto, unfolding(crate::specs::Rules::counted))]
fn counted(n: u16, groups: u16) -> bool
    ensures { result ≡ rules.counted n groups }
{
    if n == 1 {
        return groups == 0;
    }
    0 < groups && groups < n
}

// `listed` is how many entries the flip list has.
#[tactic(auto, unfolding(crate::specs::Rules::head_fault))]
pub fn head_fault(n: u16, m: u16, groups: u16, flips: u16, listed: usize) -> Option<Reason>
    ensures { result ≡ rules.head_fault n m groups flips listed }
{
    if n == 0 || 64 < n {
        return Some(Reason::TaxonCount);
    }
    if 256 < m {
        return Some(Reason::ColumnCount);
    }
    if !counted(n, groups) {
        return Some(Reason::Groups);
    }
    if m < flips || listed < flips as usize {
        return Some(Reason::Flips);
    }
    None
}

// Whether group x may stand right after group y.
#[tactic(auto, unfolding(crate::specs::Rules::follows))]
fn follows(y: u64, x: u64) -> bool
    ensures { result ≡ rules.follows y x }
{
    let before = taxa::low(y);
    let here = taxa::low(x);
    before < here || (before == here && size(x) < size(y))
}

// Whether group i may stand where it does.
fn placed(n: u16, taxa: &[u64; 63], i: usize) -> bool
    requires { (n ≤ 64) × (i < 63) }
    ensures { result ≡ rules.placed n taxa.now i }
{
    let it = taxa[i];
    if i == 0 {
        return it == all(u32::from(n));
    }
    follows(taxa[i - 1], it)
}

// Whether x and y are nested or disjoint.
#[tactic(auto, unfolding(crate::specs::Rules::compatible))]
fn compatible(x: u64, y: u64) -> bool
    ensures { result ≡ rules.compatible x y }
{
    subset(x, y) || subset(y, x) || common(x, y) == 0
}

// Whether x is so with each of the first k groups. (No early return, so that the compiler can look at several at once: docs/DECISIONS.md.)
fn compatible_all(taxa: &[u64; 63], x: u64, k: usize) -> bool
    requires { k ≤ 63 }
    ensures { result ≡ rules.compatible_all taxa.now x k }
{
    let mut fits = true;
    for i in 0..k {
        fits &= compatible(taxa[i], x);
    }
    fits
}

// Group i, judged against those before it.
#[tactic(auto, unfolding(crate::specs::Rules::group_fault))]
pub fn group_fault(n: u16, taxa: &[u64; 63], i: usize) -> Option<Reason>
    requires { (n ≤ 64) × (i < 63) }
    ensures { result ≡ rules.group_fault n taxa.now i }
{
    let it = taxa[i];
    if !subset(it, all(u32::from(n))) {
        return Some(Reason::UnknownTaxon);
    }
    if size(it) <= 1 || !placed(n, taxa, i) || !compatible_all(taxa, it, i) {
        return Some(Reason::Groups);
    }
    None
}

// Whether a flipped column keeps its rules; `floor` is the least that the columns before it leave.
#[tactic(auto, unfolding(crate::specs::Rules::kept))]
fn kept(m: u16, floor: u64, column: u64, raised: u64, lowered: u64) -> bool
    ensures { result ≡ rules.kept m floor column raised lowered }
{
    column < u64::from(m)
        && floor <= column
        && union(raised, lowered) != 0
        && common(raised, lowered) == 0
}

#[tactic(auto, unfolding(crate::specs::Rules::entry_fault))]
pub fn entry_fault(
    n: u16,
    m: u16,
    floor: u64,
    column: u64,
    raised: u64,
    lowered: u64,
) -> Option<Reason>
    requires { n ≤ 64 }
    ensures { result ≡ rules.entry_fault n m floor column raised lowered }
{
    let known = all(u32::from(n));
    if !subset(raised, known) || !subset(lowered, known) {
        return Some(Reason::UnknownTaxon);
    }
    if !kept(m, floor, column, raised, lowered) {
        return Some(Reason::Flips);
    }
    None
}

// 63 costs of 4 bytes: their sum fits 8.
fn sum_of(costs: &[u32]) -> u64
    requires { length costs.now ≤ 63 }
    ensures { result ≡ sum costs.now }
{
    costs.iter().map(|&cost| u64::from(cost)).sum()
}

#[tactic(auto, using(crate::proofs::Rows::sum_first))]
pub fn total_fault(total: u32, costs: &[u32; 63], groups: u16) -> Option<Reason>
    requires { groups ≤ 63 }
    ensures { result ≡ rules.total_fault total costs.now groups }
{
    if u64::from(total) == sum_of(&costs[..groups as usize]) {
        None
    } else {
        Some(Reason::Total)
    }
}
