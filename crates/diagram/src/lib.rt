// The meaning of all that document 01 says, and document 02 for the requests that stand, in specs/, and its laws, in proofs/. There is no code in it.
#![tactic(auto)]
