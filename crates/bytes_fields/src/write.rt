// Numbers stored into bytes. Every store is a run of bytes put in place of as many others.
ghost use Rattle.std.specs.Prelude.{◌≡◌, [], ◌∷◌, ◌++◌, ◌+◌, ◌*◌, ◌<◌, ◌≤◌, length, replicate};
ghost use Rattle.rules.specs.Bytes.{part, le16, le32, blocks};
ghost use Rattle.bytes_fields.specs.Put.{put};

// Kept: a function for each width, since the law has a definition for each: le16, le32.
pub fn put8(s: &mut [u8], at: usize, v: u8)
    requires { at < length s.old }
    ensures { s.new ≡ put s.old at (v ∷ []) }
{
    s[at] = v;
}

pub fn put16(s: &mut [u8], at: usize, v: u16)
    requires { at + 1 < length s.old }
    ensures { s.new ≡ put s.old at (le16 v) }
{
    s[at..at + 2].copy_from_slice(&v.to_le_bytes());
}

pub fn put32(s: &mut [u8], at: usize, v: u32)
    requires { at + 3 < length s.old }
    ensures { s.new ≡ put s.old at (le32 v) }
{
    put16(s, at, (v % 65536) as u16);
    put16(s, at + 2, (v / 65536) as u16);
}

pub fn put16s(s: &mut [u8], at: usize, vs: &[u16])
    requires { at + 2 * length vs.now ≤ length s.old }
    ensures { s.new ≡ put s.old at (blocks le16 vs.now) }
{
    for k in 0..vs.len() {
        put16(s, at + 2 * k, vs[k]);
    }
}

// n zeros from a place on.
pub fn clear(s: &mut [u8], at: usize, n: usize)
    requires { at + n ≤ length s.old }
    ensures { s.new ≡ put s.old at (replicate n 0) }
{
    s[at..at + n].fill(0);
}

// The n bytes of `from` at the place `start` go to the place `at` of s.
pub fn copy(s: &mut [u8], at: usize, from: &[u8], start: usize, n: usize)
    requires { (at + n ≤ length s.old) × (start + n ≤ length from.now) }
    ensures { s.new ≡ put s.old at (part from.now start n) }
{
    // Kept: with `copy_from_slice` the compiled code tests, each time, whether the two runs overlap.
    for k in 0..n {
        s[at + k] = from[start + k];
    }
}

// The n bytes at a place go, the `more` bytes after them move down, and zeros fill what is free.
pub fn remove(s: &mut [u8], at: usize, n: usize, more: usize)
    requires { at + n + more ≤ length s.old }
    ensures { s.new ≡ put s.old at (part s.old (at + n) more ++ replicate n 0) }
{
    s.copy_within(at + n..at + n + more, at);
    clear(s, at + more, n);
}
