// The rules of an outline by a rule of the caller's own, as another crate has them of `sheet_rules::ruled_failing`. Tests alone.
#![tactic(auto)]

#[cfg(test)]
mod rules;
