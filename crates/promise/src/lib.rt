// What it means that a promise allows one reply: a definition, no code.
#![tactic(auto)]
