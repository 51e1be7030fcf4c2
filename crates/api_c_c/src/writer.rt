// The functions of `api_c::writer` under their C names.
ghost use Rattle.std.specs.Prelude.{◌≡◌, length};
ghost use Rattle.sheet_writer.specs.Writer.{written_into, rewritten_in};
ghost use Rattle.api_c.specs.Writing.{length_in, told_in};

use api_c::writer::REFUSAL_LENGTH;

// As `api_c::writer::wiforekun_write_policies`.
#[unsafe(no_mangle)]
pub extern "C" fn wiforekun_write_policies(
    text: &[u8],
    out: &mut [u8],
    refusal: &mut [u64; REFUSAL_LENGTH],
) -> usize
    ensures value { result ≡ length_in (written_into (length out.old) text.now) }
    ensures out_after { out.new ≡ rewritten_in (written_into (length out.old) text.now) out.old }
    ensures refusal_after { refusal.new ≡ told_in (written_into (length out.old) text.now) refusal.old }
{
    api_c::writer::wiforekun_write_policies(text, out, refusal)
}
