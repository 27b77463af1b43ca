// Numbers read from bytes.
ghost use Rattle.std.specs.Prelude.{◌≡◌, ◌+◌, ◌*◌, ◌<◌, ◌≤◌, length, get_or, drop};
ghost use Rattle.rules.specs.Bytes.{part, is_zeros, num16, num32, chunks};
ghost use Rattle.bytes_fields.specs.Numbers.{num64};

// A byte as a number that counts or indexes.
pub fn wide(b: u8) -> usize
    ensures { (result ≡ b) × (result < 256) }
{
    usize::from(b)
}

// Two bytes make a 16-bit number, two of those a 32-bit one, and two of those a 64-bit one.
pub fn join16(low: u8, high: u8) -> u16
    ensures { result ≡ low + 256 * high }
{
    u16::from_le_bytes([low, high])
}

pub fn join32(low: u16, high: u16) -> u32
    ensures { result ≡ low + 65536 * high }
{
    u32::from(low) + 65536 * u32::from(high)
}

pub fn join64(low: u32, high: u32) -> u64
    ensures { result ≡ low + 4294967296 * high }
{
    u64::from(low) + 4294967296 * u64::from(high)
}

// Kept: a function for each width, since the law has a definition for each: num16, num32 (and num64, here).
pub fn get8(s: &[u8], at: usize) -> usize
    requires { at < length s.now }
    ensures { (result ≡ get_or s.now at 0) × (result < 256) }
{
    wide(s[at])
}

pub fn get16(s: &[u8], at: usize) -> u16
    requires { at + 1 < length s.now }
    ensures { result ≡ num16 (drop at s.now) }
{
    join16(s[at], s[at + 1])
}

pub fn get32(s: &[u8], at: usize) -> u32
    requires { at + 3 < length s.now }
    ensures { result ≡ num32 (drop at s.now) }
{
    join32(get16(s, at), get16(s, at + 2))
}

pub fn get64(s: &[u8], at: usize) -> u64
    requires { at + 7 < length s.now }
    ensures { result ≡ num64 (drop at s.now) }
{
    join64(get32(s, at), get32(s, at + 4))
}

// The 16-bit numbers from a place on, as many as `out` has room for.
pub fn get16s(s: &[u8], at: usize, out: &mut [u16])
    requires { at + 2 * length out.old ≤ length s.now }
    ensures { out.new ≡ chunks num16 2 (length out.old) (drop at s.now) }
{
    for k in 0..out.len() {
        out[k] = get16(s, at + 2 * k);
    }
}

// Whether n bytes from a place on are zero: a few, one by one.
fn few_zero(s: &[u8], at: usize, n: usize) -> bool
    requires { at + n ≤ length s.now }
    ensures { result ≡ is_zeros (part s.now at n) }
{
    let mut set = 0;
    for b in &s[at..at + n] {
        set |= *b;
    }
    set == 0
}

// Any number of bytes: from sixteen on, eight of each half at a time. The last sixteen may share bytes with the halves.
pub fn all_zero(s: &[u8], at: usize, n: usize) -> bool
    requires { at + n ≤ length s.now }
    ensures { result ≡ is_zeros (part s.now at n) }
{
    if n < 16 {
        return few_zero(s, at, n);
    }
    let half = n / 16 * 8;
    let mut set = get64(s, at + n - 16) | get64(s, at + n - 8);
    for k in 0..n / 16 {
        set |= get64(s, at + 8 * k);
        set |= get64(s, at + half + 8 * k);
    }
    set == 0
}

// The same of many bytes, those in the middle from a place on that is a multiple of sixteen: in bytes that begin at such an address no
// sixteen of them lie on two lines of the processor's cache.
pub fn many_zero(s: &[u8], at: usize, n: usize) -> bool
    requires { at + n ≤ length s.now }
    ensures { result ≡ is_zeros (part s.now at n) }
{
    if n < 32 {
        return all_zero(s, at, n);
    }
    let start = (at + 15) / 16 * 16;
    let middle = (at + n - start) / 32 * 32;
    all_zero(s, at, 16) & all_zero(s, start, middle) & all_zero(s, at + n - 32, 32)
}
