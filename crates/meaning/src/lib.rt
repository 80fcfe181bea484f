// What 16 stored bytes and what a text mean: definitions in specs/, theorems about them in proofs/, and no code.
#![tactic(auto)]
