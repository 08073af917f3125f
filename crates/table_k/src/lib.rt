// Nothing runs here: the crate is document 01's table of known answers, in specs/, and the proof of all its rows, in proofs/.
#![tactic(auto)]
