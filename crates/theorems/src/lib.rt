// The three demands of the briefing, and what papers 2 and 3 say of kits and roots, as theorems about what the services promise,
// in specs/, and their proofs, in proofs/. There is no code in it.
#![tactic(auto)]
