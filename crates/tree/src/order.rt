// The lists of an answer: groups from walking order into file order, and the flips of the columns that have any.
ghost use Rattle.std.specs.Prelude.{◌≡◌, cond, [], ◌∷◌, ◌++◌, ◌+◌, ◌*◌, ◌^◌, ◌≤◌, ◌<◌, eqb, length};
ghost use Rattle.taxa.specs.Sets.{low};
ghost use Rattle.matrix.specs.Matrix.{columns_at};
ghost use Rattle.method.specs.Tree.{column, kept, ordered, total, flip_list};
ghost use Rattle.split.specs.Columns.{matrix_in};
ghost use Rattle.tree.specs.inner.Lists as lists;
ghost use Rattle.tree.specs.Lists.{listed, first_flips};
ghost use Rattle.tree.specs.inner.Lists.{starts_at, FlipRoom, SameFrom, unweighed};

use super::group_list::Groups;

// Whether a group's lowest taxon is i.
fn starts_at(group: u64, i: u32) -> bool
    ensures { result ≡ eqb (low 64 group) i }
{
    taxa::low(group) == i
}

impl Groups {
    // One group more.
    pub fn put(&mut self, group: u64, cost: u32)
        requires { self.old.count < 63 }
        ensures size { self.new.count ≡ self.old.count + 1 }
        ensures list { listed self.new ≡ listed self.old ++ (record { taxa = group; cost = cost } ∷ []) }
    {
        self.taxa[self.count] = group;
        self.costs[self.count] = cost;
        self.count += 1;
    }

    // Those whose lowest taxon is i, as walked, after those that stand here.
    fn keep_lowest(&mut self, walked: &Groups, i: u32)
        requires { self.old.count + length (kept (starts_at i) (listed walked.now)) ≤ 63 }
        ensures size { self.new.count ≡ self.old.count + length (kept (starts_at i) (listed walked.now)) }
        ensures list { listed self.new ≡ listed self.old ++ kept (starts_at i) (listed walked.now) }
    {
        for g in 0..walked.count {
            let group = walked.taxa[g];
            if starts_at(group, i) {
                self.put(group, walked.costs[g]);
            }
        }
    }

    // The same in file order: for each taxon, rising, those of which it is the lowest.
    pub fn in_order(&self, n: u32) -> Groups
        requires { length (ordered 64 n (listed self.now)) ≤ 63 }
        ensures size { result.count ≡ length (ordered 64 n (listed self.now)) }
        ensures list { listed result ≡ ordered 64 n (listed self.now) }
    {
        let mut rising = Groups::new();
        for i in 0..n {
            rising.keep_lowest(self, i);
        }
        rising
    }

    // The sum of their costs.
    pub fn total(&self) -> u32
        requires { total (listed self.now) < 2 ^ 32 }
        ensures { result ≡ total (listed self.now) }
    {
        let mut total: u32 = 0;
        for i in 0..self.count {
            total += self.costs[i];
        }
        total
    }
}

// Whether a column has no flip.
fn unflipped(raised: u64, lowered: u64) -> bool
    ensures { result ≡ lists.unflipped raised lowered }
{
    if raised == 0 {
        return lowered == 0;
    }
    false
}

// One flipped column more, if it has a flip. Returns how many there are then.
fn put_flips(
    columns: &mut [u64],
    raised: &mut [u64],
    lowered: &mut [u64],
    at: usize,
    column: u64,
    up: u64,
    down: u64,
) -> usize
    requires { FlipRoom (at + 1) columns.old raised.old lowered.old }
    ensures size { result ≡ at + cond (lists.unflipped up down) 0 1 }
    ensures list { first_flips columns.new raised.new lowered.new result
        ≡ first_flips columns.old raised.old lowered.old at
        ++ cond (lists.unflipped up down) [] (record { column = column; raised = up; lowered = down } ∷ []) }
    ensures rest { SameFrom (at + 1) raised.old raised.new × SameFrom (at + 1) lowered.old lowered.new }
{
    if unflipped(up, down) {
        return at;
    }
    columns[at] = column;
    raised[at] = up;
    lowered[at] = down;
    at + 1
}

// The flips of the columns that have any, from a file's columns and what became of them, by rising column. They are put where these stand: a column's
// flips go to its own place or to one before it. Returns how many there are.
pub fn list_flips(
    file: &[u8],
    m: usize,
    columns: &mut [u64],
    ones: &mut [u64],
    zeros: &mut [u64],
) -> usize
    requires { (m ≡ length (matrix_in file.now).columns)
        × (columns_at file.now + 22 * m ≤ length file.now)
        × FlipRoom m columns.old ones.old zeros.old }
    ensures size { result ≡ length (flip_list m (column (matrix_in file.now).columns) (unweighed ones.old zeros.old)) }
    ensures list { first_flips columns.new ones.new zeros.new result
        ≡ flip_list m (column (matrix_in file.now).columns) (unweighed ones.old zeros.old) }
{
    let mut end = 0;
    for c in 0usize..m {
        let before = matrix::column_in(file, c);
        let up = taxa::common(before.zeros, ones[c]);
        let down = taxa::common(before.ones, zeros[c]);
        end = put_flips(columns, ones, zeros, end, c as u64, up, down);
    }
    end
}
