// Nothing runs here: the crate is the machine and the rules of specs/, and the theorems of proofs/ that join them.
#![tactic(auto)]
