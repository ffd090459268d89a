// The code as words that contend for a reading, and its classes of 32: what rooms above cite. It has no entry point.
#![tactic(auto)]
