// The rules of the controller and the law of its runs: definitions in specs/, their proof in proofs/, and no code.
#![tactic(auto)]
