// Nothing runs here: the crate is what document 01 prints for file A, in specs/, and the proof that it is printed, in proofs/.
#![tactic(auto)]
