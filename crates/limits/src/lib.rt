// How far beyond an edit a recheck of a true record can run: a claim about the rules, with no code.
#![tactic(auto)]
