// Numbers in bytes, little endian.
ghost use Rattle.std.specs.Prelude.{◌≡◌, [], ◌∷◌, ◌+◌, ◌*◌, ◌<◌, ◌≤◌, length, set};
ghost use Rattle.desk_positions.specs.Bytes.{word_at, Put};

// The four bytes from i on.
pub(crate) fn word(b: &[u8], i: usize) -> u32
    requires { i + 4 ≤ length b.now }
    ensures { result ≡ word_at b.now i }
{
    u32::from_le_bytes([b[i], b[i + 1], b[i + 2], b[i + 3]])
}

pub(crate) fn put_word(b: &mut [u8], i: usize, x: u32)
    requires { i + 4 ≤ length b.old }
    ensures { Put word_at 4 b.old i 1 (x ∷ []) b.new }
{
    b[i..i + 4].copy_from_slice(&x.to_le_bytes());
}
