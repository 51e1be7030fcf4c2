// Numbers in bytes, little endian: copied out of the state and into it.
ghost use Rattle.std.specs.Prelude.{◌+◌, ◌*◌, ◌≤◌, ◌≡◌, [], ◌∷◌, length};
ghost use Rattle.desk.specs.Layout.{byte_at, word_at, wide_at, bytes_in, words_in, wides_in, Put};

// Kept: desk_positions has a twin of this and of put_word, since a function that asks something is no other crate's to call.
// The four bytes from i on.
pub(crate) fn word(b: &[u8], i: usize) -> u32
    requires { i + 4 ≤ length b.now }
    ensures { result ≡ word_at b.now i }
{
    u32::from_le_bytes([b[i], b[i + 1], b[i + 2], b[i + 3]])
}

// The eight bytes from i on.
fn long(b: &[u8], i: usize) -> u64
    requires { i + 8 ≤ length b.now }
    ensures { result ≡ wide_at b.now i }
{
    word(b, i) as u64 + 4294967296 * word(b, i + 4) as u64
}

// ── Out of the state ──

pub(crate) fn bytes_at<const N: usize>(b: &[u8], place: usize) -> [u8; N]
    requires { place + N ≤ length b.now }
    ensures { result ≡ bytes_in place N b.now }
{
    let mut t = [0u8; N];
    t.copy_from_slice(&b[place..place + N]);
    t
}

pub(crate) fn words_at<const N: usize>(b: &[u8], place: usize) -> [u32; N]
    requires { place + 4 * N ≤ length b.now }
    ensures { result ≡ words_in place N b.now }
{
    let mut t = [0u32; N];
    for i in 0..N {
        t[i] = word(b, place + 4 * i);
    }
    t
}

// Kept: as words_at but for the width. A trait of the two widths, with its laws, is longer than the two loops.
pub(crate) fn longs_at<const N: usize>(b: &[u8], place: usize) -> [u64; N]
    requires { place + 8 * N ≤ length b.now }
    ensures { result ≡ wides_in place N b.now }
{
    let mut t = [0u64; N];
    for i in 0..N {
        t[i] = long(b, place + 8 * i);
    }
    t
}

// ── Into the state ──

// Kept: no copy_from_slice, which becomes a memmove: a board without an operating system has memcpy and memset alone.
pub(crate) fn bytes_out<const N: usize>(b: &mut [u8], place: usize, l: &[u8; N])
    requires { place + N ≤ length b.old }
    ensures put { Put byte_at 1 b.old place N l.now b.new }
    ensures l_len { length l.now ≡ N }
{
    for i in 0..N {
        b[place + i] = l[i];
    }
}

fn put_word(b: &mut [u8], i: usize, x: u32)
    requires { i + 4 ≤ length b.old }
    ensures { Put word_at 4 b.old i 1 (x ∷ []) b.new }
{
    b[i..i + 4].copy_from_slice(&x.to_le_bytes());
}

pub(crate) fn words_out<const N: usize>(b: &mut [u8], place: usize, l: &[u32; N])
    requires { place + 4 * N ≤ length b.old }
    ensures put { Put word_at 4 b.old place N l.now b.new }
    ensures l_len { length l.now ≡ N }
{
    for i in 0..N {
        put_word(b, place + 4 * i, l[i]);
    }
}

fn put_long(b: &mut [u8], i: usize, x: u64)
    requires { i + 8 ≤ length b.old }
    ensures { Put wide_at 8 b.old i 1 (x ∷ []) b.new }
{
    put_word(b, i, (x % 4294967296) as u32);
    put_word(b, i + 4, (x / 4294967296) as u32);
}

// Kept: as words_out but for the width.
pub(crate) fn longs_out<const N: usize>(b: &mut [u8], place: usize, l: &[u64; N])
    requires { place + 8 * N ≤ length b.old }
    ensures put { Put wide_at 8 b.old place N l.now b.new }
    ensures l_len { length l.now ≡ N }
{
    for i in 0..N {
        put_long(b, place + 8 * i, l[i]);
    }
}
