// Little-endian numbers at a place of a file. Each width is two of the half width: so the three have bodies of their own, and a trait over them would
// only name each width once more.
ghost use Rattle.std.specs.Prelude.{◌≡◌, ◌+◌, ◌≤◌, length};
ghost use Rattle.record.specs.Bytes.{number_at};

pub fn u16_at(file: &[u8], at: usize) -> u16
    requires { at + 2 ≤ length file.now }
    ensures { result ≡ number_at 2 file.now at }
{
    u16::from(file[at]) + 256 * u16::from(file[at + 1])
}

pub fn u32_at(file: &[u8], at: usize) -> u32
    requires { at + 4 ≤ length file.now }
    ensures { result ≡ number_at 4 file.now at }
{
    u32::from(u16_at(file, at)) + 65536 * u32::from(u16_at(file, at + 2))
}

pub fn u64_at(file: &[u8], at: usize) -> u64
    requires { at + 8 ≤ length file.now }
    ensures { result ≡ number_at 8 file.now at }
{
    u64::from(u32_at(file, at)) + 0x1_0000_0000 * u64::from(u32_at(file, at + 4))
}
