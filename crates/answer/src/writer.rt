// The records of an answer, each written from the first free byte of the part of the output that is lent on to its writer.
ghost use Rattle.std.specs.Prelude.{◌≡◌, ℕ, ◌<◌, ◌≤◌, ◌*◌, length, get_or};
ghost use Rattle.record.specs.Bytes.{over};
ghost use Rattle.answer.specs.Content.{run, head_bytes, group_bytes, flips_bytes, end_bytes, group_record, flips_record, file_of, length_of, content_of};

use super::Answer;
use record::Record;
use record::writer::{put_opening, put16, put32, put64};

pub fn put_head(out: &mut [u8], n: u16, m: u16, groups: u16, flips: u16, total: u32)
    requires { 16 ≤ length out.old }
    ensures { out.new ≡ over (head_bytes n m groups flips total) 0 out.old }
{
    put_opening(out, Record::of(Record::ANSWER_HEAD));
    put16(&mut out[4..], n);
    put16(&mut out[6..], m);
    put16(&mut out[8..], groups);
    put16(&mut out[10..], flips);
    put32(&mut out[12..], total);
}

pub fn put_group(out: &mut [u8], taxa: u64, cost: u32)
    requires { 16 ≤ length out.old }
    ensures { out.new ≡ over (group_bytes taxa cost) 0 out.old }
{
    put_opening(out, Record::of(Record::GROUP));
    put64(&mut out[4..], taxa);
    put32(&mut out[12..], cost);
}

pub fn put_entry(out: &mut [u8], column: u16, raised: u64, lowered: u64)
    requires { 22 ≤ length out.old }
    ensures { out.new ≡ over (flips_bytes column raised lowered) 0 out.old }
{
    put_opening(out, Record::of(Record::FLIPS));
    put16(&mut out[4..], column);
    put64(&mut out[6..], raised);
    put64(&mut out[14..], lowered);
}

pub fn put_end(out: &mut [u8])
    requires { 4 ≤ length out.old }
    ensures { out.new ≡ over end_bytes 0 out.old }
{
    put_opening(out, Record::of(Record::ANSWER_END));
}

fn put_groups(out: &mut [u8], taxa: &[u64; 63], costs: &[u32; 63], groups: usize)
    requires { (groups ≤ 63) × (16 * groups ≤ length out.old) }
    ensures { out.new ≡ over (run (group_record taxa.now costs.now) groups) 0 out.old }
{
    for i in 0..groups {
        put_group(&mut out[16 * i..], taxa[i], costs[i]);
    }
}

fn put_flips(out: &mut [u8], columns: &[u64], raised: &[u64], lowered: &[u64], flips: usize)
    requires flips_in_bounds { 22 * flips ≤ length out.old }
    requires flips_in_bounds_2 { (flips ≤ length columns.now) × (flips ≤ length raised.now) × (flips ≤ length lowered.now) }
    requires by_index { (j : ℕ) → j < flips → get_or columns.now j 0 < 65536 }
    ensures { out.new ≡ over (run (flips_record columns.now raised.now lowered.now) flips) 0 out.old }
{
    for j in 0..flips {
        put_entry(&mut out[22 * j..], columns[j] as u16, raised[j], lowered[j]);
    }
}

// The whole file, one record after the other.
pub fn put_answer(out: &mut [u8], answer: Answer, columns: &[u64], raised: &[u64], lowered: &[u64])
    requires groups_bound { (answer.groups ≤ 63) × (length_of (content_of answer columns.now raised.now lowered.now) ≤ length out.old) }
    requires flips_in_bounds { (answer.flips ≤ length columns.now) × (answer.flips ≤ length raised.now) × (answer.flips ≤ length lowered.now) }
    requires by_index { (j : ℕ) → j < answer.flips → get_or columns.now j 0 < 65536 }
    ensures { out.new
        ≡ over (file_of (content_of answer columns.now raised.now lowered.now)) 0 out.old }
{
    let groups = answer.groups as usize;
    let flips = answer.flips as usize;
    let first = 16 + 16 * groups;
    let end = first + 22 * flips;
    put_head(
        out,
        answer.n,
        answer.m,
        answer.groups,
        answer.flips,
        answer.total,
    );
    put_groups(&mut out[16..], &answer.taxa, &answer.costs, groups);
    put_flips(&mut out[first..], columns, raised, lowered, flips);
    put_end(&mut out[end..]);
}
