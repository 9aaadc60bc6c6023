// The worked cases of document 01 that are proved: the table is in specs/, its theorem in proofs/. No code.
#![tactic(auto)]
