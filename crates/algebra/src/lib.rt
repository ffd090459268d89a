// The code's laws, which proofs/ has: encoding and reading back as linear maps, the least distance. It has no entry point.
#![tactic(auto)]
