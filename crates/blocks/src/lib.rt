// Loops over a block of f64: the innermost ones of a product, the product of two packed blocks, and the passes that clear, scale and divide.
#![tactic(auto)]

pub mod block;
pub mod leaves;
pub mod pass;
