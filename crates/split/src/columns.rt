// The columns of a matrix: loaded from a file, and flipped by a division.
ghost use Rattle.std.specs.Prelude.{◌≡◌, ◌+◌, ◌*◌, ◌≤◌, length, take};
ghost use Rattle.taxa.specs.Sets.{◌∩◌, mass, multiplicity_in};
ghost use Rattle.matrix.specs.Matrix.{columns_at};
ghost use Rattle.matrix.specs.inner.Planes.{Multiplied};
ghost use Rattle.method.specs.Split as method;
ghost use Rattle.method.specs.Tree.{one_entries};
ghost use Rattle.split.specs.Columns.{column_of, matrix_in};
ghost use Rattle.search.specs.Search.{cols_of};
ghost use Rattle.split.specs.inner.Handing.{Parallel};
ghost use Rattle.split.specs.inner.On as on;

use crate::loaded::Loaded;
use matrix::Column;

// How many 1-entries the m columns of a file that the check takes have.
pub fn one_entries(file: &[u8], m: usize) -> usize
    requires { (m ≡ length (matrix_in file.now).columns)
        × (columns_at file.now + 22 * m ≤ length file.now)
        × (m ≤ 256) }
    ensures { result ≡ one_entries (matrix_in file.now) }
{
    let mut count: usize = 0;
    for c in 0..m {
        count = count + taxa::size(matrix::column_in(file, c).ones) as usize;
    }
    count
}

// A column with its 0s in a set raised to 1.
fn raise(it: Column, set: u64) -> Column
    ensures { column_of result ≡ method.raise set (column_of it) }
{
    Column {
        weight: it.weight,
        ones: taxa::union(it.ones, taxa::common(it.zeros, set)),
        zeros: taxa::difference(it.zeros, set),
    }
}

// A column with its 1s in a set lowered to 0.
fn lower(it: Column, set: u64) -> Column
    ensures { column_of result ≡ method.lower set (column_of it) }
{
    Column {
        weight: it.weight,
        ones: taxa::difference(it.ones, set),
        zeros: taxa::union(it.zeros, taxa::common(it.ones, set)),
    }
}

// What the taxa of x that are in y stand for.
fn mass_common(planes: &[u64; 72], x: u64, y: u64) -> u32
    ensures { result ≡ mass 64 (multiplicity_in planes.now) (x ∩ y) }
{
    taxa::mass_in(planes, taxa::common(x, y))
}

// What a division of the group flips of a column: its 0s in the group are raised, or its ones on one side lowered.
fn flip(planes: &[u64; 72], it: Column, group: u64, side: u64) -> Column
    ensures { column_of result ≡ method.flip 64 (multiplicity_in planes.now) group side (column_of it) }
{
    let rest = taxa::difference(group, side);
    let a = mass_common(planes, it.ones, side);
    let b = mass_common(planes, it.ones, rest);
    let z = mass_common(planes, it.zeros, group);
    if z <= a.min(b) {
        return raise(it, group);
    }
    if a <= b {
        return lower(it, side);
    }
    lower(it, rest)
}

// Every column flipped by a division of the group.
pub fn flip_columns(
    weights: &[u16],
    planes: &[u64; 72],
    ones: &mut [u64],
    zeros: &mut [u64],
    group: u64,
    side: u64,
)
    requires { Parallel weights.now ones.old zeros.old }
    ensures { (cols_of weights.now ones.new zeros.new
        ≡ method.flipped 64 (multiplicity_in planes.now) (length weights.now) (cols_of weights.now ones.old zeros.old) group side)
        × Parallel weights.now ones.new zeros.new }
{
    for c in 0..weights.len() {
        let it = Column {
            weight: weights[c],
            ones: ones[c],
            zeros: zeros[c],
        };
        let new = flip(planes, it, group, side);
        ones[c] = new.ones;
        zeros[c] = new.zeros;
    }
}

// The same of the m columns in front: of an array that is a field no part can be lent to be written.
fn flip_front(
    weights: &[u16; 256],
    planes: &[u64; 72],
    ones: &mut [u64; 256],
    zeros: &mut [u64; 256],
    m: usize,
    group: u64,
    side: u64,
)
    requires { m ≤ 256 }
    ensures { (cols_of (take m weights.now) (take m ones.new) (take m zeros.new)
        ≡ method.flipped 64 (multiplicity_in planes.now) m (cols_of (take m weights.now) (take m ones.old) (take m zeros.old)) group side)
        × Parallel (take m weights.now) (take m ones.new) (take m zeros.new) }
{
    flip_columns(
        &weights[..m],
        planes,
        &mut ones[..m],
        &mut zeros[..m],
        group,
        side,
    );
}

impl Loaded {
    // The taxa and columns of a file that the check takes.
    pub fn load(&mut self, file: &[u8], n: usize, m: usize)
        requires { (m ≡ length (matrix_in file.now).columns)
            × (columns_at file.now + 22 * m ≤ length file.now)
            × Multiplied file.now
            × (n ≤ 64)
            × (m ≤ 256) }
        ensures { on.Holds file.now n m self.new }
    {
        self.n = n;
        self.m = m;
        matrix::load_planes(file, &mut self.planes);
        for c in 0..m {
            let it = matrix::column_in(file, c);
            self.weights[c] = it.weight;
            self.ones[c] = it.ones;
            self.zeros[c] = it.zeros;
        }
    }

    // Every column flipped by a division of the group.
    pub fn flip(&mut self, group: u64, side: u64)
        ensures { (on.columns self.new ≡ method.flipped 64 (on.multiplicities self.old) self.old.m (on.columns self.old) group side)
            × on.Parallel self.old self.new
            × on.Kept self.old self.new }
    {
        flip_front(
            &self.weights,
            &self.planes,
            &mut self.ones,
            &mut self.zeros,
            self.m,
            group,
            side,
        );
    }
}
