// The box-error code as mathematics: definitions in specs/, theorems in proofs/. It has no code of its own.
#![tactic(auto)]
