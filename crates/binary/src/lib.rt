// Facts about words of bits of any length. Its specs/ and proofs/ are what rooms above cite; it has no entry point.
#![tactic(auto)]
