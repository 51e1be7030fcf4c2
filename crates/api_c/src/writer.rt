// A policy sheet written again, for callers in C and Rust.
ghost use Rattle.std.specs.Prelude.{◌≡◌, length};
ghost use Rattle.sheet_writer.specs.Writer.{written_into, rewritten_in};
ghost use Rattle.api_c.specs.Writing.{length_in, told_in};

// How many numbers tell a refusal: its line and its number.
pub const REFUSAL_LENGTH: usize = 2;

// The sheet of policies in `text` is written to `out`: its length; or 0 where the sheet is refused, with the refusal's line and number told
// in `refusal`, and nothing written.
pub fn wiforekun_write_policies(
    text: &[u8],
    out: &mut [u8],
    refusal: &mut [u64; REFUSAL_LENGTH],
) -> usize
    ensures value { result ≡ length_in (written_into (length out.old) text.now) }
    ensures out_after { out.new ≡ rewritten_in (written_into (length out.old) text.now) out.old }
    ensures refusal_after { refusal.new ≡ told_in (written_into (length out.old) text.now) refusal.old }
{
    match sheet_writer::write_policies(text, out) {
        Ok(n) => n,
        Err(r) => {
            refusal[0] = r.line as u64;
            refusal[1] = u8::from(r.reason) as u64;
            0
        }
    }
}
