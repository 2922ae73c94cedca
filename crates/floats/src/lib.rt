// The f64 operations and constants that the definitions and the kernel are stated in. There is no code.
#![tactic(auto)]
