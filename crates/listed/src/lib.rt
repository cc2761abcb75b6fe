// The failure list by the rules: specs/ has its definition and proofs/ the claims about it. There is no code.
#![tactic(auto)]
