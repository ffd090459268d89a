// What the code is: its definitions stand in specs/, its laws in proofs/. It has no entry point.
#![tactic(auto)]
