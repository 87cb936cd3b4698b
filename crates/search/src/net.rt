// Net flows in the workspace. Only these functions do arithmetic on signed numbers; their contracts speak of what goes out and what comes in, in ℕ.
ghost use Rattle.std.specs.Prelude.{◌≡◌, true, ℕ, ◌+◌, ◌≤◌, ◌<◌, ◌^◌, pos, ◌+ℤ◌, ◌-ℤ◌, length, get_or, set};
ghost use Rattle.taxa.specs.Sets.{has, count, sizes};
ghost use Rattle.search.specs.Signed.{out_of, inn_of};
ghost use Rattle.search.specs.inner.Places.{Diff, IsColumn, HasPlace, sent, CanSend};
ghost use Rattle.search.specs.Workspace.{outs, inns, cleared, Kept};
ghost use Rattle.search.specs.Search.{nth};
ghost use Rattle.search.specs.inner.Network.{CanHop};
ghost use Rattle.search.specs.inner.On as on;
ghost use Rattle.method.proofs.Carry.{Hopped};

use crate::networks::Network;

// What goes out, where f is a flow out, or nothing.
fn out_of(f: i32) -> u32
    ensures { result ≡ out_of f }
{
    if f < 0 { 0 } else { f as u32 }
}

// What comes in, where f is a flow in, or nothing. (At 64 bits the negation always fits.)
fn inn_of(f: i32) -> u32
    ensures { result ≡ inn_of f }
{
    if f < 0 { (0 - f as i64) as u32 } else { 0 }
}

// d more goes out.
fn pushed(f: i32, d: u32) -> i32
    requires { out_of f + d < 2 ^ 31 }
    ensures { (result ≡ f +ℤ pos d) × Diff (out_of f + d) (inn_of f) result }
{
    f + d as i32
}

// d more comes in.
fn pulled(f: i32, d: u32) -> i32
    requires { inn_of f + d < 2 ^ 31 }
    ensures { (result ≡ f -ℤ pos d) × Diff (out_of f) (inn_of f + d) result }
{
    f - d as i32
}

// d more goes out at a place.
fn push_at(ws: &mut [i32], at: usize, d: u32)
    requires { (at < length ws.old) × (out_of (get_or ws.old at (pos 0)) + d < 2 ^ 31) }
    ensures { ws.new ≡ set ws.old at (get_or ws.old at (pos 0) +ℤ pos d) }
{
    ws[at] = pushed(ws[at], d);
}

// d more comes in at a place.
fn pull_at(ws: &mut [i32], at: usize, d: u32)
    requires { (at < length ws.old) × (inn_of (get_or ws.old at (pos 0)) + d < 2 ^ 31) }
    ensures { ws.new ≡ set ws.old at (get_or ws.old at (pos 0) -ℤ pos d) }
{
    ws[at] = pulled(ws[at], d);
}

// d more goes from a to b.
fn send(ws: &mut [i32], a: usize, b: usize, d: u32)
    requires { CanSend ws.old a b d }
    ensures { ws.new ≡ sent ws.old a b d }
{
    push_at(ws, a, d);
    pull_at(ws, b, d);
}

// The first len numbers become 0, and the rest stay.
pub fn clear(ws: &mut [i32], len: usize)
    requires { len ≤ length ws.old }
    ensures { ws.new ≡ cleared len ws.old }
{
    ws[..len].fill(0);
}

// The places of the first m columns become 0, and the rest stay.
pub fn clear_places(ws: &mut [i32], offsets: &[u16; 257], m: usize)
    requires { (m ≤ 256) × (nth offsets.now m ≤ length ws.old) }
    ensures { ws.new ≡ cleared (nth offsets.now m) ws.old }
{
    clear(ws, usize::from(offsets[m]));
}

// What a column joins, and where its places start.
#[derive(Clone, Copy)]
pub struct Column {
    pub joined: u64,
    pub offset: usize,
}

pub fn column_at(joined: &[u64; 256], offsets: &[u16; 257], c: usize) -> Column
    requires { (c < 256) × (nth offsets.now c ≡ sizes c (nth joined.now)) }
    ensures { IsColumn (nth joined.now) c result.joined result.offset × (result.offset < 65536) }
{
    Column {
        joined: joined[c],
        offset: usize::from(offsets[c]),
    }
}

impl Network<'_> {
    pub fn column_at(&self, c: usize) -> Column
        requires { c < self.now.m }
        ensures { on.IsColumn self.now c result.joined result.offset }
    {
        column_at(self.joined, self.offsets, c)
    }
}

// The place of the pair of a column and a taxon i that it joins.
fn slot(column: Column, i: usize) -> usize
    requires { (i < 64) × (column.offset < 65536) }
    ensures { result ≡ column.offset + count i column.joined }
{
    column.offset + taxa::rank(column.joined, i as u32) as usize
}

// The net flow of a pair: what goes from the taxon into the column, or what comes from the column into the taxon.
#[derive(Clone, Copy)]
pub struct NetFlow {
    pub out: u32,
    pub inn: u32,
}

pub fn flow(ws: &[i32], column: Column, i: usize) -> NetFlow
    requires { HasPlace ws.now column.joined column.offset i }
    ensures { (row : ℕ → ℕ) (c : ℕ) → IsColumn row c column.joined column.offset → has (row c) i ≡ true
        → (result.out ≡ outs ws.now row c i) × (result.inn ≡ inns ws.now row c i) }
{
    let f = ws[slot(column, i)];
    NetFlow {
        out: out_of(f),
        inn: inn_of(f),
    }
}

// d more from taxon i to taxon j through column c.
pub fn hop(
    ws: &mut [i32],
    joined: &[u64; 256],
    offsets: &[u16; 257],
    c: usize,
    i: usize,
    j: usize,
    d: u32,
)
    requires { CanHop joined.now offsets.now ws.old c i j d }
    ensures { ((n m : ℕ) → n ≤ 64 → Hopped n m (outs ws.old (nth joined.now)) (inns ws.old (nth joined.now))
        (outs ws.new (nth joined.now)) (inns ws.new (nth joined.now)) c i j d)
        × ((m : ℕ) → c < m → Kept (sizes m (nth joined.now)) ws.old ws.new) }
{
    let column = column_at(joined, offsets, c);
    let a = slot(column, i);
    let b = slot(column, j);
    send(ws, a, b, d);
}
