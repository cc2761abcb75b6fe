// The values in a reader's store against those of the definition: claims, with no code.
#![tactic(auto)]
