// Nothing runs here: the crate says what the rules are held to, in specs/, and proves where rows lead there, in proofs/.
#![tactic(auto)]
