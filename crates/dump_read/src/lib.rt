// The reader of dumps, byte by byte, against the reading of words that the definition has: claims, with no code.
#![tactic(auto)]
