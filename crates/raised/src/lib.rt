// Nothing runs here: the crate says what a larger opening stock does, in specs/, and proves it over what work out promises, in proofs/.
#![tactic(auto)]
