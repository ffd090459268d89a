// The list of all 4,096 error patterns and what is computed of it, in proofs/. It has no entry point.
#![tactic(auto)]
