// The text of a set of taxa: a taxon's name, or a bracket with the texts of its parts, each of which has fewer taxa.
ghost use Rattle.std.specs.Prelude.{◌≡◌, ◌<◌, length};
ghost use Rattle.taxa.specs.Sets.{count};
ghost use Rattle.clades.specs.Draw as draw;
ghost use Rattle.spelling.specs.Write.{name_in};
ghost use Rattle.spelling.specs.inner.Spell as inner;
ghost use Rattle.spelling.specs.inner.Spell.{spelling, parts_text, Spellable, Put};

use record::writer::put_bytes;

// The part so far, or a group around it that is inside the set, but not the set itself.
fn wider(set: u64, group: u64, part: u64) -> u64
    ensures { result ≡ draw.wider set group part }
{
    if taxa::subset(part, group) && taxa::subset(group, set) && group != set {
        group
    } else {
        part
    }
}

// The part of a set that has one of its taxa. The loop goes from the last group to the first, as the definition does.
fn part_of(groups: &[u64], set: u64, taxon: u32) -> u64
    requires { taxon < 64 }
    ensures { result ≡ draw.part groups.now set taxon }
{
    let mut part = taxa::single(taxon);
    for &group in groups.iter().rev() {
        part = wider(set, group, part);
    }
    part
}

// The byte after a part: a comma, or the closing bracket where nothing is left of the set.
fn closing(left: u64) -> u8
    ensures { result ≡ inner.closing left }
{
    if left == 0 { b')' } else { b',' }
}

// A taxon's name, from the list.
fn spell_name(list: &[u8], taxon: u32, text: &mut [u8], at: usize) -> usize
    requires { inner.Nameable list.now taxon at text.old }
    ensures { Put (name_in list.now taxon) at text.old text.new result }
{
    let found = names::name_at(list, taxon as usize);
    let place = found.place;
    let end = place + found.length;
    put_bytes(&mut text[at..], &list[place..end]);
    at + found.length
}

// A set, from `at` on. Returns where its text ends.
#[cycle(spell_spell_parts)]
pub fn spell(groups: &[u64], list: &[u8], set: u64, text: &mut [u8], at: usize) -> usize
    requires { Spellable list.now set at (spelling groups.now list.now set) text.old }
    ensures { Put (spelling groups.now list.now set) at text.old text.new result }
{
    if taxa::size(set) < 2 {
        return spell_name(list, taxa::lowest(set), text, at);
    }
    text[at] = b'(';
    spell_parts(groups, list, set, text, at + 1)
}

// The parts of a set of two taxa or more, after the opening bracket: the part of the lowest taxon, and then of the lowest that is left.
#[cycle(spell_spell_parts)]
fn spell_parts(groups: &[u64], list: &[u8], set: u64, text: &mut [u8], at: usize) -> usize
    requires { Spellable list.now set at (parts_text groups.now list.now set set) text.old × (1 < count 64 set) }
    ensures { Put (parts_text groups.now list.now set set) at text.old text.new result }
{
    let mut left = set;
    let mut end = at;
    while left != 0 {
        let part = part_of(groups, set, taxa::lowest(left));
        left = taxa::difference(left, part);
        end = spell(groups, list, part, text, end);
        text[end] = closing(left);
        end += 1;
    }
    end
}
