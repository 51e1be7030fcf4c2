// The functions of `api_c::print` under their C names.
ghost use Rattle.std.specs.Prelude.{◌<◌, ◌≤◌, ◌≡◌, length};
ghost use Rattle.usage.specs.Answers.{Verdict};
ghost use Rattle.report.specs.Output.{trace_room, outline_room, length_put, put as output_put};
ghost use Rattle.report.specs.Trace.{trace_printed};
ghost use Rattle.report.specs.Outline.{RightTexts, outline_printed};
ghost use Rattle.report.specs.Counterexample.{RightExplanation, counterexample_printed, counterexample_room, Prints};
ghost use Rattle.report.specs.Summary.{RightSummary, summary_printed, summary_room};
ghost use Rattle.checker.specs.Summary.{Summary};

// As `api_c::print::wiforekun_report_trace`.
#[unsafe(no_mangle)]
pub extern "C" fn wiforekun_report_trace(policies: &[u8], trace: &[u8], out: &mut [u8]) -> usize
    ensures value { result ≡ length_put trace_room out.old (trace_printed policies.now trace.now) }
    ensures out_after { out.new ≡ output_put trace_room out.old
        (trace_printed policies.now trace.now) }
{
    api_c::print::wiforekun_report_trace(policies, trace, out)
}

// As `api_c::print::wiforekun_report_outline`.
#[unsafe(no_mangle)]
pub extern "C" fn wiforekun_report_outline(policies: &[u8], outline: &[u8], out: &mut [u8]) -> usize
    ensures value { (v : Verdict) → RightTexts policies.now outline.now v
        → result ≡ length_put outline_room out.old (outline_printed policies.now outline.now v) }
    ensures out_after { (v : Verdict) → RightTexts policies.now outline.now v
        → out.new ≡ output_put outline_room out.old
        (outline_printed policies.now outline.now v) }
    ensures right_texts { 0 < result → (v : Verdict) × RightTexts policies.now outline.now v }
{
    api_c::print::wiforekun_report_outline(policies, outline, out)
}

// As `api_c::print::wiforekun_report_counterexample`.
#[unsafe(no_mangle)]
pub extern "C" fn wiforekun_report_counterexample(
    policies: &[u8],
    outline: &[u8],
    out: &mut [u8],
) -> usize
    ensures value { length out.old < counterexample_room → (result ≡ 0) × (out.new ≡ out.old) }
    ensures prints { counterexample_room ≤ length out.old → Prints
        (RightExplanation policies.now outline.now)
        (counterexample_printed policies.now outline.now)
        out.old result out.new }
{
    api_c::print::wiforekun_report_counterexample(policies, outline, out)
}

// As `api_c::print::wiforekun_report_summary`.
#[unsafe(no_mangle)]
pub extern "C" fn wiforekun_report_summary(policies: &[u8], outline: &[u8], out: &mut [u8]) -> usize
    ensures value { (m : Summary) → RightSummary policies.now outline.now m
        → result ≡ length_put summary_room out.old (summary_printed policies.now outline.now m) }
    ensures out_after { (m : Summary) → RightSummary policies.now outline.now m
        → out.new ≡ output_put summary_room out.old
        (summary_printed policies.now outline.now m) }
    ensures right_summary { 0 < result → (m : Summary) × RightSummary policies.now outline.now m }
{
    api_c::print::wiforekun_report_summary(policies, outline, out)
}
