// Bytes, little-endian numbers (as in number.rt one function for each width) and a record's first four bytes, written from the first free byte of the part that is lent.
ghost use Rattle.std.specs.Prelude.{◌≡◌, ◌≤◌, length};
ghost use Rattle.record.specs.Bytes.{bytes_of, over};
ghost use Rattle.record.specs.Records.{opening_of};

use super::Record;

// Bytes as they are. (By `copy_from_slice` C's memmove does it, whose first call takes 3 KB of stack, more than reading trees may: bench/stack.sh.)
pub fn put_bytes(out: &mut [u8], bytes: &[u8])
    requires { length bytes.now ≤ length out.old }
    ensures { out.new ≡ over bytes.now 0 out.old }
{
    for i in 0..bytes.len() {
        out[i] = bytes[i];
    }
}

pub fn put16(out: &mut [u8], v: u16)
    requires { 2 ≤ length out.old }
    ensures { out.new ≡ over (bytes_of 2 v) 0 out.old }
{
    out[0] = (v % 256) as u8;
    out[1] = (v / 256) as u8;
}

pub fn put32(out: &mut [u8], v: u32)
    requires { 4 ≤ length out.old }
    ensures { out.new ≡ over (bytes_of 4 v) 0 out.old }
{
    put16(out, (v % 0x1_0000) as u16);
    put16(&mut out[2..], (v / 0x1_0000) as u16);
}

pub fn put64(out: &mut [u8], v: u64)
    requires { 8 ≤ length out.old }
    ensures { out.new ≡ over (bytes_of 8 v) 0 out.old }
{
    put32(out, (v % 0x1_0000_0000) as u32);
    put32(&mut out[4..], (v / 0x1_0000_0000) as u32);
}

// A record's length and kind; its payload goes right after.
pub fn put_opening(out: &mut [u8], it: Record)
    requires { 4 ≤ length out.old }
    ensures { out.new ≡ over (opening_of it) 0 out.old }
{
    put16(out, it.length);
    put16(&mut out[2..], it.kind);
}
