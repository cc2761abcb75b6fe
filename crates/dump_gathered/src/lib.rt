// What is kept of a word, byte by byte, against the whole word: claims, with no code.
#![tactic(auto)]
