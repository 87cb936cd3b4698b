// The score of an answer against a matrix: for each column with a 1 the flips that bring it to the nearest node of the tree.
// Promises: for any two byte strings, raises and lowers are those of specs/Score.antt, or the one refusal that document 01
// assigns. Flips count the specimens that their taxa stand for. Rests on taxa, record, matrix and answer.
#![tactic(auto)]

ghost use Rattle.std.specs.Prelude.{◌≡◌, List, ℕ, ◌*◌, ◌≤◌, ◌<◌, ◌+◌, length, get_or};
ghost use Rattle.std.specs.Iterator.{Drains, IsFinite};
ghost use Rattle.taxa.specs.Sets.{multiplicity_in};
ghost use Rattle.matrix.specs.Matrix.{columns_at, column_in};
ghost use Rattle.score.specs.Score as score;
ghost use Rattle.score.specs.inner.Light.{Light, column_most};
ghost use Rattle.score.specs.Operation as operation;
ghost use Rattle.score.specs.Operation.{Readable};

use answer::reader::{answer_in, pass_file};
use matrix::Column;
use record::refusal::{Reason, Refusal};

// Flips from 0 to 1, and flips from 1 to 0: counted apart, and summed by nothing but `distance`.
#[derive(Clone, Copy)]
pub struct Raises(pub u32);

#[derive(Clone, Copy)]
pub struct Lowers(pub u32);

// What the score tells of two files that it takes: raises and lowers, each times its weight.
#[derive(Clone, Copy)]
pub struct Sums {
    pub raises: Raises,
    pub lowers: Lowers,
}

// "The taxa in both Z and X".
fn raises_at(planes: &[u64; 72], it: Column, node: u64) -> Raises
    ensures { (result.0 ≡ score.raises_at (multiplicity_in planes.now) it node) × (result.0 ≤ 8128) }
{
    Raises(taxa::mass_in(planes, taxa::common(it.zeros, node)))
}

// "The taxa of O outside X".
fn lowers_at(planes: &[u64; 72], it: Column, node: u64) -> Lowers
    ensures { (result.0 ≡ score.lowers_at (multiplicity_in planes.now) it node) × (result.0 ≤ 8128) }
{
    Lowers(taxa::mass_in(planes, taxa::difference(it.ones, node)))
}

// The score of a column at one node.
fn distance(planes: &[u64; 72], it: Column, node: u64) -> u32
    ensures { result ≡ score.distance (multiplicity_in planes.now) it node }
{
    let raises = raises_at(planes, it, node);
    let lowers = lowers_at(planes, it, node);
    u32::from(it.weight) * (raises.0 + lowers.0)
}

// Whether a node counts before another: nearer, or as near with fewer raises.
fn nearer(planes: &[u64; 72], it: Column, node: u64, other: u64) -> bool
    ensures { result ≡ score.nearer (multiplicity_in planes.now) it node other }
{
    let here = distance(planes, it, node);
    let there = distance(planes, it, other);
    if here < there {
        return true;
    }
    if here != there {
        return false;
    }
    raises_at(planes, it, node).0 < raises_at(planes, it, other).0
}

fn nearest_of(planes: &[u64; 72], it: Column, node: u64, best: u64) -> u64
    ensures { result ≡ score.nearest (multiplicity_in planes.now) it node best }
{
    if nearer(planes, it, node, best) {
        node
    } else {
        best
    }
}

// The node that counts: of `first`, and all that follow.
fn nearest_in<I: Iterator<Item = u64>>(planes: &[u64; 72], it: Column, nodes: I, first: u64) -> u64
    requires can { I.can_next nodes }
    requires ends { IsFinite (I.remaining nodes) }
    ensures { (xs : List ℕ) × Drains I.next_gives nodes xs
        × (result ≡ score.nearest_in (multiplicity_in planes.now) it (λ i. get_or xs i 0) (length xs) first) }
{
    let mut best = first;
    for node in nodes {
        best = nearest_of(planes, it, node, best);
    }
    best
}

// The node of the tree that counts for a column: of the leaves, then the groups.
fn node_for(planes: &[u64; 72], it: Column, n: u32, groups: &[u64]) -> u64
    requires { n ≤ 64 }
    ensures { result ≡ score.node_for (multiplicity_in planes.now) n groups.now (length groups.now) it }
{
    let leaf = nearest_in(planes, it, (0..n).map(taxa::single), taxa::single(0));
    nearest_in(planes, it, groups.iter().copied(), leaf)
}

// A count of flips times the column's weight: at most 127 times 65,535.
fn weighed(weight: u16, flips: u32) -> u32
    requires { flips ≤ 127 }
    ensures { (result ≡ weight * flips) × (result ≤ column_most) }
{
    u32::from(weight) * flips
}

// A column's score at its node added to those before it: nothing, whatever the node, if the column has no 1.
fn with_column(planes: &[u64; 72], sum: Sums, it: Column, node: u64) -> Sums
    requires { (sum.raises.0 ≤ 255 * column_most) × (sum.lowers.0 ≤ 255 * column_most)
        × Light (multiplicity_in planes.now) it }
    ensures raised { (result.raises.0 ≡ sum.raises.0 + (score.column_score (multiplicity_in planes.now) it node).raises)
        × (result.raises.0 ≤ sum.raises.0 + column_most) }
    ensures lowered { (result.lowers.0 ≡ sum.lowers.0 + (score.column_score (multiplicity_in planes.now) it node).lowers)
        × (result.lowers.0 ≤ sum.lowers.0 + column_most) }
{
    if it.ones == 0 {
        return sum;
    }
    let raises = sum.raises;
    let lowers = sum.lowers;
    Sums {
        raises: Raises(raises.0 + weighed(it.weight, raises_at(planes, it, node).0)),
        lowers: Lowers(lowers.0 + weighed(it.weight, lowers_at(planes, it, node).0)),
    }
}

// The score of the first m columns of a file that the check takes.
fn score_columns(planes: &[u64; 72], file: &[u8], m: usize, n: u32, groups: &[u64]) -> Sums
    requires { (m ≤ 256) × (columns_at file.now + 22 * m ≤ length file.now) × (n ≤ 64)
        × ((j : ℕ) → j < m → Light (multiplicity_in planes.now) (column_in file.now j)) }
    ensures raised { (result.raises.0 ≡ score.raises_of (multiplicity_in planes.now) (column_in file.now) (score.node_for (multiplicity_in planes.now) n groups.now (length groups.now)) m)
        × (result.raises.0 ≤ m * column_most) }
    ensures lowered { (result.lowers.0 ≡ score.lowers_of (multiplicity_in planes.now) (column_in file.now) (score.node_for (multiplicity_in planes.now) n groups.now (length groups.now)) m)
        × (result.lowers.0 ≤ m * column_most) }
{
    let mut sum = Sums {
        raises: Raises(0),
        lowers: Lowers(0),
    };
    for c in 0..m {
        let it = matrix::column_in(file, c);
        sum = with_column(planes, sum, it, node_for(planes, it, n, groups));
    }
    sum
}

// Two files that were read: their n and m have to agree.
fn score_read(matrix: &[u8], answer: &[u8], n: u16, m: u16) -> Result<Sums, Refusal>
    requires { Readable matrix.now answer.now n m }
    ensures { result ≡ operation.agreed matrix.now answer.now n m }
{
    let value = answer_in(answer);
    if value.n != n || value.m != m {
        return Err(Reason::Differ.at(0));
    }
    let mut planes = [0u64; 72];
    matrix::load_planes(matrix, &mut planes);
    let groups = &value.taxa[..value.groups as usize];
    let sums = score_columns(&planes, matrix, m as usize, u32::from(n), groups);
    Ok(sums)
}

// The operation "score".
pub fn score(matrix: &[u8], answer: &[u8]) -> Result<Sums, Refusal>
    ensures { operation.Scores matrix.now answer.now result }
{
    let shape = matrix::check(matrix)?;
    pass_file(answer)?;
    score_read(matrix, answer, shape.n, shape.m)
}
