// The rules of samples after decoding (request 7/13): definitions in specs/, their laws in proofs/. There is no code here.
#![tactic(auto)]
