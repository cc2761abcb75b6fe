// The rules as they were before unknown bits, and that a trace without them has the same rows and words: a claim about the rules, with no code.
#![tactic(auto)]
