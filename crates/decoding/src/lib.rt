// What the soft decoder tells of a reading, as a function: definitions in specs/, laws in proofs/. It has no entry point.
#![tactic(auto)]
