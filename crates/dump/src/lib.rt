// What a dump is and what is read from it. Definitions and worked dumps, with no code.
#![tactic(auto)]
