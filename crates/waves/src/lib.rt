// What the waves of a record are. Definitions and a worked case, with no code.
#![tactic(auto)]
