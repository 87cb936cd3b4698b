// A matrix with no multiplicities and columns of weight 1: each record is written from the first free byte of the part of the output that is lent.
ghost use Rattle.std.specs.Prelude.{◌≡◌, [], ◌≤◌, ◌+◌, ◌*◌, length, take};
ghost use Rattle.record.specs.Bytes.{over};
ghost use Rattle.matrix.specs.Matrix.{head_bytes, column_bytes, columns_bytes, end_bytes, file_of, weighing_one};

use super::Column;
use record::Record;
use record::writer::{put_opening, put16, put64};

fn put_head(out: &mut [u8], n: u16, m: u16)
    requires { 8 ≤ length out.old }
    ensures { out.new ≡ over (head_bytes n m) 0 out.old }
{
    put_opening(out, Record::of(Record::MATRIX_HEAD));
    put16(&mut out[4..], n);
    put16(&mut out[6..], m);
}

fn put_column(out: &mut [u8], column: Column)
    requires { 22 ≤ length out.old }
    ensures { out.new ≡ over (column_bytes column) 0 out.old }
{
    put_opening(out, Record::of(Record::COLUMN));
    put16(&mut out[4..], column.weight);
    put64(&mut out[6..], column.ones);
    put64(&mut out[14..], column.zeros);
}

// Columns of weight 1, with these sets.
fn put_columns(out: &mut [u8], ones: &[u64], zeros: &[u64])
    requires { (length zeros.now ≡ length ones.now) × (22 * length ones.now ≤ length out.old) }
    ensures { out.new ≡ over (columns_bytes (weighing_one ones.now zeros.now)) 0 out.old }
{
    let mut at = 0;
    for (&one_set, &zero_set) in ones.iter().zip(zeros) {
        put_column(
            &mut out[at..],
            Column {
                weight: 1,
                ones: one_set,
                zeros: zero_set,
            },
        );
        at += 22;
    }
}

fn put_end(out: &mut [u8])
    requires { 4 ≤ length out.old }
    ensures { out.new ≡ over end_bytes 0 out.old }
{
    put_opening(out, Record::of(Record::MATRIX_END));
}

// The whole file, one record after the other.
pub fn put_matrix(out: &mut [u8], n: u16, ones: &[u64; 256], zeros: &[u64; 256], m: usize)
    requires { (m ≤ 256) × (length ones.now ≡ 256) × (length zeros.now ≡ 256) × (12 + 22 * m ≤ length out.old) }
    ensures { out.new
        ≡ over
        (file_of (record { taxa = n; multiplicities = []; columns = weighing_one (take m ones.now) (take m zeros.now) })) 0
        out.old }
{
    put_head(out, n, m as u16);
    put_columns(&mut out[8..], &ones[..m], &zeros[..m]);
    let end = 8 + 22 * m;
    put_end(&mut out[end..]);
}
