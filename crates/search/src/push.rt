// A path pushed, hop by hop, and a largest flow by one path after another.
ghost use Rattle.std.specs.Prelude.{◌≡◌, true, false, ℕ, ◌+◌, ◌*◌, ◌^◌, ◌≤◌, ◌<◌};
ghost use Rattle.taxa.specs.Sets.{has, sizes};
ghost use Rattle.search.specs.Workspace.{outs, inns, Kept};
ghost use Rattle.method.proofs.Carry.{Hopped};
ghost use Rattle.search.specs.Search.{nth};
ghost use Rattle.search.specs.inner.Network.{CanHop, Unused};
ghost use Rattle.search.specs.inner.Flows.{CanCount, Counted};
ghost use Rattle.search.specs.inner.On as on;

use crate::net;
use crate::networks::Network;

// The size of a flow, and the taxa reached from its sources.
#[derive(Clone, Copy)]
pub struct Cut {
    pub size: u32,
    pub side: u64,
}

// Whether the flow still grows: t was reached, and the bound is not.
fn grows(side: u64, t: usize, size: u32, bound: u32) -> bool
    requires { t < 64 }
    ensures { (result ≡ true → has side t ≡ true) × (result ≡ false → has side t ≡ true → bound ≤ size) }
{
    if taxa::contains(side, t as u32) {
        size < bound
    } else {
        false
    }
}

// Nothing runs through the columns below m.
pub fn unused(used: &mut [u32; 256], m: usize)
    requires { m ≤ 256 }
    ensures { Unused used.new m }
{
    used[..m].fill(0);
}

impl Network<'_> {
    // d more from taxon i to taxon j through column c, and the count of what runs through it with that.
    fn step(&self, ws: &mut [i32], used: &mut [u32; 256], c: usize, i: usize, j: usize, d: u32)
        requires { CanHop self.now.joined.now self.now.offsets.now ws.old c i j d
            × (c < self.now.m)
            × (i < self.now.n)
            × (j < self.now.n)
            × CanCount self.now.joined.now self.now.n ws.old used.old c d }
        ensures { ((m : ℕ) → Hopped self.now.n m (outs ws.old (nth self.now.joined.now)) (inns ws.old (nth self.now.joined.now))
            (outs ws.new (nth self.now.joined.now)) (inns ws.new (nth self.now.joined.now)) c i j d)
            × ((m : ℕ) → c < m → Kept (sizes m (nth self.now.joined.now)) ws.old ws.new)
            × Counted self.now.joined.now self.now.n ws.new used.old used.new c }
    {
        let column = self.column_at(c);
        let before = net::flow(ws, column, i).out + net::flow(ws, column, j).out;
        net::hop(ws, self.joined, self.offsets, c, i, j, d);
        let after = net::flow(ws, column, i).out + net::flow(ws, column, j).out;
        used[c] = used[c] + after - before;
    }

    // If hops reach t, what the path to it carries is pushed along it.
    #[tactic(auto, using(crate::proofs::Flows::sink_low, crate::proofs::Flows::under_low))]
    fn advance(
        &self,
        ws: &mut [i32],
        used: &mut [u32; 256],
        tree: &mut [u32; 256],
        sources: u64,
        t: usize,
        size: u32,
    ) -> Cut
        requires { on.Flowing self.now ws.old used.old sources t size }
        ensures { on.Advanced self.now ws.new used.new sources t size result.size result.side × on.Kept self.now ws.old ws.new }
    {
        let goal = taxa::single(t as u32);
        // A column to start at: the one through which the last path came to t, if there was one.
        let first = tree[4 * t + 1] as usize;
        let met = self.reach(ws, used, tree, sources, goal, first);
        if !taxa::contains(met, t as u32) {
            return Cut { size, side: met };
        }
        let d = tree[4 * t + 3];
        let mut j = t;
        // Only the sources have turn 0.
        while 0 < tree[4 * j + 2] {
            let i = tree[4 * j] as usize;
            let c = tree[4 * j + 1] as usize;
            self.step(ws, used, c, i, j, d);
            j = i;
        }
        Cut {
            size: size + d,
            side: met,
        }
    }

    // One hop straight from a source to t through column c, if that joins both, carries what it can: the size of the flow with that.
    #[tactic(auto, using(crate::proofs::Flows::sink_low))]
    fn direct_hop(
        &self,
        ws: &mut [i32],
        used: &mut [u32; 256],
        sources: u64,
        t: usize,
        c: usize,
        size: u32,
    ) -> u32
        requires { on.Flowing self.now ws.old used.old sources t size × (c < self.now.m) }
        ensures { on.Flowing self.now ws.new used.new sources t result × on.Kept self.now ws.old ws.new }
    {
        if !taxa::contains(self.joined[c], t as u32) {
            return size;
        }
        let here = taxa::common(self.joined[c], sources);
        if here == 0 {
            return size;
        }
        let i = taxa::lowest(here) as usize;
        let column = self.column_at(c);
        let g = self.gate_at(ws, used, column, c, i);
        let d = self.carry_to(ws, used, column, c, g, t);
        self.step(ws, used, c, i, t, d);
        size + d
    }

    // The size of the flow that hops straight from the sources to t make, past none.
    fn direct_hops(&self, ws: &mut [i32], used: &mut [u32; 256], sources: u64, t: usize) -> u32
        requires { on.Flowing self.now ws.old used.old sources t 0 }
        ensures { on.Flowing self.now ws.new used.new sources t result × on.Kept self.now ws.old ws.new }
    {
        let mut size: u32 = 0;
        for c in 0..self.m {
            size = self.direct_hop(ws, used, sources, t, c, size);
        }
        size
    }

    // A largest flow from the sources to t, from whatever stands in the workspace; it stops once it is no smaller than the bound.
    pub fn largest(
        &self,
        ws: &mut [i32],
        used: &mut [u32; 256],
        tree: &mut [u32; 256],
        sources: u64,
        t: usize,
        bound: u32,
    ) -> Cut
        requires { on.Room self.now ws.old
            × (sources < 2 ^ self.now.n)
            × (t < self.now.n)
            × (has sources t ≡ false) }
        ensures { on.Largest self.now ws.new sources t bound result.size result.side × on.Kept self.now ws.old ws.new }
    {
        net::clear_places(ws, self.offsets, self.m);
        unused(used, self.m);
        let size = self.direct_hops(ws, used, sources, t);
        // t counts as reached: nothing is known of the side yet.
        let mut cut = Cut {
            size,
            side: taxa::single(t as u32),
        };
        while grows(cut.side, t, cut.size, bound) {
            cut = self.advance(ws, used, tree, sources, t, cut.size);
        }
        cut
    }
}
