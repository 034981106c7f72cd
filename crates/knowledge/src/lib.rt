// What a world is, by which rules facts become known, and what every reasoner keeps: definitions and theorems, and no code.
#![tactic(auto)]
