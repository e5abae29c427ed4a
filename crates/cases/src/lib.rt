// What the definition comes to: further cases that are computed from it, and instances of its statements. It has no code, and nothing rests on it.
#![tactic(auto)]
