// What a payload can touch (request 13/13): definitions in specs/, the theorems in proofs/. There is no code here.
#![tactic(auto)]
