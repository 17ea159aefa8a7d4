// Document 01 as definitions (specs/) and their laws (proofs/). No code.
#![tactic(auto)]
