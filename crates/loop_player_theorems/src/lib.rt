// What the two libraries give together (request 12/13): statements in specs/, their proofs in proofs/. There is no code here.
#![tactic(auto)]
