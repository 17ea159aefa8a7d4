// What document 01 promises of a volume over time (specs/) and why it holds (proofs/). No code.
#![tactic(auto)]
