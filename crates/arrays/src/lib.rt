// Lists in arrays, in specs/, and the laws of loops that write them, in proofs/. There is no code in it.
#![tactic(auto)]
