// The tokens of a text, one by one: what each is refused for, and what is kept of it.
ghost use Rattle.std.specs.Prelude.{◌≡◌, true, false, List, ◌++◌, map, ℕ, ◌+◌, ◌-◌, ◌≤◌, ◌<◌, length, get_or, take, drop, Ok};
ghost use Rattle.taxa.specs.Sets.{◌∖◌};
ghost use Rattle.grammar.specs.Bytes.{is_blank, is_letter, byte, left, right, comma, semicolon};
ghost use Rattle.grammar.specs.inner.Standing.{Run};
ghost use Rattle.newick.specs.declared.Book.{Book};
ghost use Rattle.newick.specs.inner.Names.{Placed};
ghost use Rattle.newick.specs.inner.Book.{Bracketed, SignAt, Holds, NameTo, Leads, standing, with_name, clade_put, may_follow};

use super::letters::Letters;
use super::{Book, COLUMNS, DEPTH, Reading, TAXA};
use record::refusal::{Reason, Refusal};

// The most bytes of a name.
const NAME_BYTES: usize = 32;

// The signs.
const LEFT: u8 = b'(';

const RIGHT: u8 = b')';

const COMMA: u8 = b',';

const SEMICOLON: u8 = b';';

impl Reading {
    // The same reading at another place.
    pub fn standing(self, at: usize) -> Self
        ensures { result ≡ standing self at }
    {
        Reading { at, ..self }
    }

    // Behind a name, taxon i, that ends at a place; there are so many taxa now.
    fn behind_name(self, end: usize, taxa: usize, i: usize) -> Self
        requires { i < 64 }
        ensures { result ≡ with_name self end taxa i }
    {
        Reading {
            at: end,
            ended: true,
            taxa,
            here: taxa::union(self.here, taxa::single(i as u32)),
            ..self
        }
    }

    // A name that the file has, taxon i.
    fn take_known(self, end: usize, i: usize) -> Result<Self, Refusal>
        requires { i < 64 }
        ensures { (text : List ℕ) (k : Book) → Holds text k self → self.ended ≡ false → NameTo text k self end i → Leads text k self.at result }
    {
        if taxa::subset(taxa::single(i as u32), self.here) {
            Err(Reason::Repeated.at(self.at))
        } else {
            Ok(self.behind_name(end, self.taxa, i))
        }
    }
}

// Puts the clade of the tree's bracket number i after the columns of the trees that are finished; the first bracket, the root, gives no column.
fn put_clade(ones: &mut [u64; COLUMNS], columns: usize, i: usize, clade: u64)
    requires { columns + i ≤ 256 }
    ensures { ones.new ≡ clade_put ones.old columns i clade }
{
    if 0 < i {
        ones[columns + i - 1] = clade;
    }
}

// The 0-sets of a tree's columns, up to so many columns: its other names.
fn fill_zeros(ones: &[u64; COLUMNS], zeros: &mut [u64; COLUMNS], tree: Reading, end: usize)
    requires { (tree.columns ≤ end) × (end ≤ 256) }
    ensures { (take end zeros.new
        ≡ take tree.columns zeros.old ++ map (λ c. tree.here ∖ c) (take (end - tree.columns) (drop tree.columns ones.now)))
        × (length zeros.new ≡ 256) }
{
    for c in tree.columns..end {
        zeros[c] = taxa::difference(tree.here, ones[c]);
    }
}

// Whether a byte is a sign that may stand behind a subtree.
fn may_follow(b: u8) -> bool
    ensures { result ≡ may_follow b }
{
    (b == RIGHT) | (b == COMMA) | (b == SEMICOLON)
}

impl Book {
    // A name for which there is no right hint. A new one gets the next number.
    fn take_listed(&mut self, text: &[u8], from: Reading, end: usize) -> Result<Reading, Refusal>
        requires { Placed text.now self.old.starts self.old.sizes from.taxa
            × Run is_letter text.now from.at end
            × (from.at < end)
            × (end - from.at ≤ 32) }
        ensures { Holds text.now self.old from → from.ended ≡ false → Leads text.now self.new from.at result }
    {
        let size = end - from.at;
        let i = self.number_of(text, from.taxa, from.at, size);
        if TAXA <= i {
            return Err(Reason::TooMany.at(from.at));
        }
        self.hint(text, from.at, size, i);
        if i < from.taxa {
            return from.take_known(end, i);
        }
        self.starts[i] = from.at;
        self.sizes[i] = size;
        Ok(from.behind_name(end, i + 1, i))
    }

    // A name, whose first letter was seen.
    fn take_name(
        &mut self,
        letters: &Letters,
        text: &[u8],
        from: Reading,
    ) -> Result<Reading, Refusal>
        requires { Placed text.now self.old.starts self.old.sizes from.taxa
            × (from.at < length text.now)
            × (is_letter (get_or text.now from.at 0) ≡ true) }
        ensures { Holds text.now self.old from → from.ended ≡ false → Leads text.now self.new from.at result }
    {
        let end = letters.end(text, from.at + 1);
        let size = end - from.at;
        if NAME_BYTES < size {
            return Err(Reason::LongName.at(from.at + NAME_BYTES));
        }
        let i = self.hinted(text, from.taxa, from.at, size);
        if i < from.taxa {
            from.take_known(end, i)
        } else {
            self.take_listed(text, from, end)
        }
    }

    // A bracket that opens.
    fn take_left(&mut self, from: Reading, next: usize) -> Result<Reading, Refusal>
        requires { Bracketed self.old from }
        ensures { (text : List ℕ) → Holds text self.old from
            → from.ended ≡ false
            → SignAt text from.at (byte left) next
            → Leads text self.new from.at result }
    {
        if COLUMNS < from.columns + from.opened {
            return Err(Reason::TooMany.at(from.at));
        }
        let depth = from.depth;
        if depth == DEPTH {
            return Err(Reason::TooDeep.at(from.at));
        }
        put_clade(&mut self.ones, from.columns, from.opened, 0);
        self.index[depth] = from.opened;
        self.before[depth] = from.here;
        self.filled[depth] = false;
        Ok(Reading {
            at: next,
            ended: false,
            opened: from.opened + 1,
            depth: depth + 1,
            ..from
        })
    }

    // A bracket that closes: its clade are the names since it opened.
    fn take_right(&mut self, from: Reading, next: usize) -> Result<Reading, Refusal>
        requires { Bracketed self.old from }
        ensures { (text : List ℕ) → Holds text self.old from
            → from.ended ≡ true
            → SignAt text from.at (byte right) next
            → Leads text self.new from.at result }
    {
        if from.depth == 0 {
            return Err(Reason::Misfit.at(from.at));
        }
        let last = from.depth - 1;
        if !self.filled[last] {
            return Err(Reason::Misfit.at(from.at));
        }
        let clade = taxa::difference(from.here, self.before[last]);
        put_clade(&mut self.ones, from.columns, self.index[last], clade);
        Ok(Reading {
            at: next,
            ended: true,
            depth: last,
            ..from
        })
    }

    // A comma: in the last open bracket a subtree is finished.
    fn take_comma(&mut self, from: Reading, next: usize) -> Result<Reading, Refusal>
        requires { from.depth ≤ 64 }
        ensures { (text : List ℕ) → Holds text self.old from
            → from.ended ≡ true
            → SignAt text from.at (byte comma) next
            → Leads text self.new from.at result }
    {
        if from.depth == 0 {
            return Err(Reason::Misfit.at(from.at));
        }
        self.filled[from.depth - 1] = true;
        Ok(Reading {
            at: next,
            ended: false,
            ..from
        })
    }

    // A semicolon: a tree is finished, and its clades are columns.
    fn take_semicolon(&mut self, from: Reading, next: usize) -> Result<Reading, Refusal>
        requires { (from.columns ≤ 256) × (from.columns + from.opened ≤ 257) }
        ensures { (text : List ℕ) → Holds text self.old from
            → from.ended ≡ true
            → SignAt text from.at (byte semicolon) next
            → Leads text self.new from.at result }
    {
        if 0 < from.depth {
            return Err(Reason::Misfit.at(from.at));
        }
        let columns = from.columns + from.opened.saturating_sub(1);
        fill_zeros(&self.ones, &mut self.zeros, from, columns);
        Ok(Reading {
            at: next,
            ended: false,
            finished: true,
            columns,
            here: 0,
            opened: 0,
            depth: 0,
            ..from
        })
    }

    // A sign that may follow, at which the reader stands behind a subtree.
    fn take_sign(&mut self, text: &[u8], from: Reading) -> Result<Reading, Refusal>
        requires { Bracketed self.old from × (from.at < length text.now) × (may_follow (get_or text.now from.at 0) ≡ true) }
        ensures { Holds text.now self.old from → from.ended ≡ true → Leads text.now self.new from.at result }
    {
        let next = from.at + 1;
        match text[from.at] {
            RIGHT => self.take_right(from, next),
            COMMA => self.take_comma(from, next),
            _ => self.take_semicolon(from, next),
        }
    }

    // Behind a name, past the sign right behind it if there is one: that saves most turns of the reader.
    fn with_sign(&mut self, text: &[u8], named: Reading) -> Result<Reading, Refusal>
        requires { Bracketed self.old named }
        ensures { (from : ℕ) → Leads text.now self.old from (Ok named) → Leads text.now self.new from result }
    {
        if named.ended && named.at < text.len() && may_follow(text[named.at]) {
            self.take_sign(text, named)
        } else {
            Ok(named)
        }
    }

    // The token at which the reader stands.
    pub fn take_token(
        &mut self,
        letters: &Letters,
        text: &[u8],
        from: Reading,
    ) -> Result<Reading, Refusal>
        requires { Holds text.now self.old from × (from.at < length text.now) × (is_blank (get_or text.now from.at 0) ≡ false) }
        ensures { Leads text.now self.new from.at result }
    {
        let at = from.at;
        if from.ended {
            if may_follow(text[at]) {
                return self.take_sign(text, from);
            }
        } else if letters.is_at(text, at) {
            let named = self.take_name(letters, text, from)?;
            return self.with_sign(text, named);
        } else if text[at] == LEFT {
            return self.take_left(from, at + 1);
        }
        Err(Reason::Misfit.at(at))
    }
}
