// The name list of the names that stand in a text.
ghost use Rattle.std.specs.Prelude.{◌≡◌, List, ℕ, ◌+◌, ◌≤◌, length};
ghost use Rattle.record.specs.Bytes.{over};
ghost use Rattle.names.specs.Names.{name_bytes, list_of, list_length};
ghost use Rattle.grammar.specs.inner.Standing.{piece};
ghost use Rattle.newick.specs.inner.Names.{Placed, Short, names_in};

use super::Book;
use record::Record;
use record::writer::{put_bytes, put_opening};

// The record of the name that stands at a place.
fn put_name(out: &mut [u8], text: &[u8], start: usize, size: usize)
    requires { (start + size ≤ length text.now) × (size ≤ 32) × (4 + size ≤ length out.old) }
    ensures { out.new ≡ over (name_bytes (piece text.now start size)) 0 out.old }
{
    let end = start + size;
    put_opening(
        out,
        Record {
            kind: Record::NAME,
            length: size as u16,
        },
    );
    put_bytes(&mut out[4..], &text[start..end]);
}

impl Book {
    // How many bytes the list of the first n names takes.
    pub fn list_length(&self, n: usize) -> usize
        requires { (n ≤ 64) × Short self.now.sizes n }
        ensures { (text starts : List ℕ) → Placed text starts self.now.sizes n → result ≡ list_length (names_in text starts self.now.sizes n) }
    {
        let mut length: usize = 4;
        for size in &self.sizes[..n] {
            length += 4 + size;
        }
        length
    }

    // The first n names, one record after the other, and the end.
    pub fn put_list(&self, out: &mut [u8], text: &[u8], n: usize)
        requires placed { Placed text.now self.now.starts self.now.sizes n × Short self.now.sizes n }
        requires n_in_bounds { list_length (names_in text.now self.now.starts self.now.sizes n) ≤ length out.old }
        ensures { out.new ≡ over (list_of (names_in text.now self.now.starts self.now.sizes n)) 0 out.old }
    {
        let mut at: usize = 0;
        for i in 0..n {
            let size = self.sizes[i];
            put_name(&mut out[at..], text, self.starts[i], size);
            at += 4 + size;
        }
        put_opening(&mut out[at..], Record::of(Record::NAMES_END));
    }
}
