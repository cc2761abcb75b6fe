// One word of the changes, on what is kept, against one word of the definition: claims, with no code.
#![tactic(auto)]
