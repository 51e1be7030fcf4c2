// What the programs print, for callers in C and Rust: bytes of the sheets in, bytes of the printed lines out. The answer is their length,
// and 0 where `out` lacks the room.
ghost use Rattle.std.specs.Prelude.{◌<◌, ◌≤◌, ◌≡◌, length};
ghost use Rattle.usage.specs.Answers.{Verdict};
ghost use Rattle.report.specs.Output.{trace_room, outline_room, length_put, put as output_put};
ghost use Rattle.report.specs.Trace.{trace_printed};
ghost use Rattle.report.specs.Outline.{RightTexts, outline_printed};
ghost use Rattle.report.specs.Counterexample.{RightExplanation, counterexample_printed, counterexample_room, Prints};
ghost use Rattle.report.specs.Summary.{RightSummary, summary_printed, summary_room};
ghost use Rattle.checker.specs.Summary.{Summary};

// What the first program prints, from the bytes of `policies.txt` and `trace.txt`.
pub fn wiforekun_report_trace(policies: &[u8], trace: &[u8], out: &mut [u8]) -> usize
    ensures value { result ≡ length_put trace_room out.old (trace_printed policies.now trace.now) }
    ensures out_after { out.new ≡ output_put trace_room out.old
        (trace_printed policies.now trace.now) }
{
    report::report_trace(policies, trace, out)
}

// What the second program prints, from the bytes of `policies.txt` and `outline.txt`. It is told by whichever verdict is right; where
// anything is printed, one is.
pub fn wiforekun_report_outline(policies: &[u8], outline: &[u8], out: &mut [u8]) -> usize
    ensures value { (v : Verdict) → RightTexts policies.now outline.now v
        → result ≡ length_put outline_room out.old (outline_printed policies.now outline.now v) }
    ensures out_after { (v : Verdict) → RightTexts policies.now outline.now v
        → out.new ≡ output_put outline_room out.old
        (outline_printed policies.now outline.now v) }
    ensures right_texts { 0 < result → (v : Verdict) × RightTexts policies.now outline.now v }
{
    report::report_outline(policies, outline, out)
}

// What the third program prints, from the bytes of `policies.txt` and `outline.txt`: a shortest counterexample as a trace sheet.
pub fn wiforekun_report_counterexample(policies: &[u8], outline: &[u8], out: &mut [u8]) -> usize
    ensures value { length out.old < counterexample_room → (result ≡ 0) × (out.new ≡ out.old) }
    ensures prints { counterexample_room ≤ length out.old → Prints
        (RightExplanation policies.now outline.now)
        (counterexample_printed policies.now outline.now)
        out.old result out.new }
{
    report::report_counterexample(policies, outline, out)
}

// What the program of summaries prints, from the bytes of `policies.txt` and `outline.txt`: a line for each mark. It is the text of whichever
// summary is right, and there is one only; where anything is printed, one is right.
pub fn wiforekun_report_summary(policies: &[u8], outline: &[u8], out: &mut [u8]) -> usize
    ensures value { (m : Summary) → RightSummary policies.now outline.now m
        → result ≡ length_put summary_room out.old (summary_printed policies.now outline.now m) }
    ensures out_after { (m : Summary) → RightSummary policies.now outline.now m
        → out.new ≡ output_put summary_room out.old
        (summary_printed policies.now outline.now m) }
    ensures right_summary { 0 < result → (m : Summary) × RightSummary policies.now outline.now m }
{
    report::report_summary(policies, outline, out)
}
