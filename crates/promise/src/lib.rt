// The promise of the price list as theorems on byte strings: statements in specs/, proofs in proofs/. No code.
#![tactic(auto)]
