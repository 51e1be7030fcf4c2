// The grammar of outlines typed as expressions (02, L13): definitions and their laws; no function.
#![tactic(auto)]
