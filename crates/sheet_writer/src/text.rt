// The text of edges, which are given by their keys.
ghost use Rattle.std.specs.Prelude.{◌≡◌, ◌+◌, ◌≤◌, length};
ghost use Rattle.std.proofs.lemmas.List.Edits.{sets};
ghost use Rattle.usage.specs.Limits.{most_edges, longest_sheet};
ghost use Rattle.report_lines.specs.Lines.{values_room};
ghost use Rattle.sheet_writer.specs.Text.{edge_text};
ghost use Rattle.sheet_writer.specs.Code.{edge_of_key, keys_text};

// The sheet of the edges with these keys, at the start of `out`: its length.
pub(crate) fn write(keys: &[u32], local: bool, out: &mut [u8]) -> usize
    requires keys_le_most_edges { length keys.now ≤ most_edges }
    requires longest_sheet_in_bounds { longest_sheet ≤ length out.old }
    ensures value { result ≡ length (keys_text local keys.now) }
    ensures out_after { out.new ≡ sets out.old 0 (keys_text local keys.now) }
{
    let mut at = report_lines::policy_names(out, local);
    for k in keys {
        at = edge(out, at, *k);
    }
    at
}

// The line of one edge, from `at` on: the place after it.
fn edge(out: &mut [u8], at: usize, k: u32) -> usize
    requires { at + values_room ≤ length out.old }
    ensures value { result ≡ at + length (edge_text (edge_of_key k)) }
    ensures out_after { out.new ≡ sets out.old at (edge_text (edge_of_key k)) }
    ensures upper_bound { result ≤ at + values_room }
{
    let values = [
        k / 131072,
        k / 16384 % 8,
        k / 512 % 32,
        k / 128 % 4,
        k / 8 % 16,
        k % 8,
    ];
    report_lines::values(out, at, values)
}
