// Truth values, and searches and counts over the numbers below a bound: definitions in specs/, laws in proofs/. No code.
#![tactic(auto)]
