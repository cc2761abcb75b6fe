// Two edits, each rechecked: one that is taken back, and two in either order. Claims over the contract of the recheck, with no code.
#![tactic(auto)]
