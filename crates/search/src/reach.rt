// The taxa that hops reach from a set of sources past the flow, by sweeps over the columns. How each was reached goes into a lent tree, four numbers to a taxon: from
// which taxon, through which column, at which turn, and the least that a hop of the way carries.
ghost use Rattle.std.specs.Prelude.{◌≡◌, true, false, ◌+◌, ◌-◌, ◌*◌, ◌≤◌, ◌<◌, ◌^◌};
ghost use Rattle.taxa.specs.Sets.{has, ◌⊆◌, multiplicity_in};
ghost use Rattle.search.specs.Search.{nth};
ghost use Rattle.search.specs.inner.Reaching.{turn_of, Offered, Missed, Planted};
ghost use Rattle.search.specs.inner.On as on;

use crate::net;
use crate::net::Column;
use crate::networks::Network;

// In place of a taxon: none.
pub const NOBODY: usize = 64;

// More than any hop or flow carries.
pub const UNBOUNDED: u32 = 4294967295;

// What more can run one way: up to cap, with `back` to turn back and `used` in use.
fn spare(cap: u32, back: u32, used: u32) -> u32
    requires { (used ≤ cap) × (cap < 2 ^ 23) × (back ≤ cap) }
    ensures { result ≡ cap + back - used }
{
    cap + back - used
}

// What a taxon finds at a column: the weight, what it can send, and what of that the column lets through whoever takes it: what the taxon can turn back, or
// the column's room.
#[derive(Clone, Copy)]
pub struct Gate {
    pub weight: u32,
    pub sends: u32,
    pub free: u32,
}

// Taxon j is offered a hop from i through c that carries k: it joins, unless that is nothing.
fn offer(tree: &mut [u32; 256], met: u64, j: usize, i: usize, c: usize, stamp: u32, k: u32) -> u64
    requires { (j < 64) × (i < 64) × (c < 256) }
    ensures { Offered met tree.old result tree.new j i c stamp k }
{
    if k == 0 {
        return met;
    }
    tree[4 * j] = i as u32;
    tree[4 * j + 1] = c as u32;
    tree[4 * j + 2] = stamp;
    tree[4 * j + 3] = k;
    taxa::union(met, taxa::single(j as u32))
}

// Whether a taxon of the goal is in a.
fn hits(goal: u64, a: u64) -> bool
    ensures { (result ≡ false → Missed goal a) × (result ≡ true → Missed goal a → ⊥) }
{
    0 < taxa::common(goal, a)
}

// The tree of the sources alone, which have turn 0.
fn plant(tree: &mut [u32; 256], sources: u64)
    ensures { Planted tree.new sources 0 }
{
    let mut left = sources;
    while 0 < left {
        let x = taxa::lowest(left) as usize;
        tree[4 * x + 2] = 0;
        tree[4 * x + 3] = UNBOUNDED;
        left = taxa::rest(left);
    }
}

impl Network<'_> {
    // What the arc between a column of the weight and taxon i carries.
    fn arc(&self, weight: u32, i: usize) -> u32
        requires { (weight < 65536) × (i < 64) }
        ensures { (result ≡ weight * multiplicity_in self.now.planes.now i) × (result < 2 ^ 23) }
    {
        weight * taxa::multiplicity(self.planes, i as u32)
    }

    // What taxon i finds at column c, which joins it.
    pub fn gate_at(&self, ws: &[i32], used: &[u32; 256], column: Column, c: usize, i: usize) -> Gate
        requires { on.Ready self.now ws.now used.now
            × (c < self.now.m)
            × on.IsColumn self.now c column.joined column.offset
            × (has (nth self.now.joined.now c) i ≡ true) }
        ensures { on.IsGate self.now ws.now used.now c i result.weight result.sends result.free }
    {
        let flow = net::flow(ws, column, i);
        let weight = u32::from(self.weights[c]);
        let most = self.arc(weight, i);
        let sends = spare(most, flow.inn, flow.out);
        Gate {
            weight,
            sends,
            free: flow.inn.max(self.limits[c] - used[c]),
        }
    }

    // What a hop to taxon j carries, which column c joins too.
    pub fn carry_to(
        &self,
        ws: &[i32],
        used: &[u32; 256],
        column: Column,
        c: usize,
        g: Gate,
        j: usize,
    ) -> u32
        requires { on.Ready self.now ws.now used.now
            × (c < self.now.m)
            × on.IsColumn self.now c column.joined column.offset
            × (has (nth self.now.joined.now c) j ≡ true)
            × (g.weight ≡ nth self.now.weights.now c) }
        ensures { result ≡ on.offered self.now ws.now c j g.weight g.sends g.free }
    {
        let flow = net::flow(ws, column, j);
        let most = self.arc(g.weight, j);
        let takes = spare(most, flow.out, flow.inn);
        g.sends.min(takes).min(g.free.max(flow.out))
    }

    // Of the taxa of x, which column c joins, one whose hop leads wherever a hop of any of them leads; `NOBODY` if none leads anywhere. A taxon that sends is such
    // a one if it turns flow back or the column has room; where none of those does, any that sends.
    fn sender(&self, ws: &[i32], used: &[u32; 256], c: usize, x: u64) -> usize
        requires { on.Ready self.now ws.now used.now × (c < self.now.m) × (x ⊆ nth self.now.joined.now c) }
        ensures { on.Leads self.now ws.now c x result }
    {
        let column = self.column_at(c);
        let mut found = NOBODY;
        let mut left = x;
        while 0 < left {
            let i = taxa::lowest(left) as usize;
            let g = self.gate_at(ws, used, column, c, i);
            if 0 < g.sends {
                if 0 < g.free {
                    return i;
                }
                found = i;
            }
            left = taxa::rest(left);
        }
        found
    }

    // The taxa that a hop from i through column c reaches join.
    #[tactic(auto, using(crate::proofs::Reaching::joins_low))]
    fn through(
        &self,
        ws: &[i32],
        used: &[u32; 256],
        tree: &mut [u32; 256],
        sources: u64,
        met: u64,
        i: usize,
        c: usize,
    ) -> u64
        requires { on.Ready self.now ws.now used.now
            × on.Rooted self.now ws.now sources met tree.old
            × (c < self.now.m)
            × (has (nth self.now.joined.now c) i ≡ true)
            × (has met i ≡ true) }
        ensures { on.Passed self.now ws.now sources met result tree.new i c (turn_of tree.old i + 1) 0 }
    {
        let column = self.column_at(c);
        let gate = self.gate_at(ws, used, column, c, i);
        // No hop carries more than the way to i.
        let g = Gate {
            weight: gate.weight,
            sends: gate.sends.min(tree[4 * i + 3]),
            free: gate.free,
        };
        let stamp = tree[4 * i + 2] + 1;
        let mut all = met;
        let mut left = taxa::difference(self.joined[c], met);
        while 0 < left {
            let j = taxa::lowest(left) as usize;
            let k = self.carry_to(ws, used, column, c, g, j);
            all = offer(tree, all, j, i, c, stamp, k);
            left = taxa::rest(left);
        }
        all
    }

    // The taxa that a hop from a taxon met through column c reaches join.
    fn pass(
        &self,
        ws: &[i32],
        used: &[u32; 256],
        tree: &mut [u32; 256],
        sources: u64,
        met: u64,
        c: usize,
    ) -> u64
        requires { on.Ready self.now ws.now used.now × on.Rooted self.now ws.now sources met tree.old × (c < self.now.m) }
        ensures { on.Crossed self.now ws.now sources met result tree.new c }
    {
        if taxa::subset(self.joined[c], met) {
            return met;
        }
        let here = taxa::common(self.joined[c], met);
        let i = self.sender(ws, used, c, here);
        if i == NOBODY {
            return met;
        }
        self.through(ws, used, tree, sources, met, i, c)
    }

    // One sweep over the columns from the first that is asked for, until a taxon of the goal is reached.
    fn sweep(
        &self,
        ws: &[i32],
        used: &[u32; 256],
        tree: &mut [u32; 256],
        sources: u64,
        met: u64,
        goal: u64,
        first: usize,
    ) -> u64
        requires { on.Ready self.now ws.now used.now × on.Rooted self.now ws.now sources met tree.old }
        ensures { on.Swept self.now ws.now sources met result tree.new goal first }
    {
        let mut all = met;
        for c in first..self.m {
            if hits(goal, all) {
                return all;
            }
            all = self.pass(ws, used, tree, sources, all, c);
        }
        all
    }

    // The taxa that hops reach from the sources; some of them only, once a taxon of the goal is among them. The first sweep may start at any column, as whole ones
    // follow it: the goal is met soonest where the last path to it came through.
    pub fn reach(
        &self,
        ws: &[i32],
        used: &[u32; 256],
        tree: &mut [u32; 256],
        sources: u64,
        goal: u64,
        first: usize,
    ) -> u64
        requires { on.Ready self.now ws.now used.now × (sources < 2 ^ self.now.n) }
        ensures { on.Found self.now ws.now sources result tree.new goal }
    {
        plant(tree, sources);
        // What the last whole sweep started from: nobody, as none was made yet.
        let mut met: u64 = 0;
        let mut next = self.sweep(ws, used, tree, sources, sources, goal, first);
        while met < next {
            met = next;
            next = self.sweep(ws, used, tree, sources, met, goal, 0);
        }
        met
    }
}
