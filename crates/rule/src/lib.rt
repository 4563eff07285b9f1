// The visit rule of document 01 over any bound, in specs/, and its laws, in proofs/. There is no code in it.
#![tactic(auto)]
