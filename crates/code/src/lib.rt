// A Reed-Solomon code: a file of L bytes as n shares, of which any k give it back, over any field.
#![tactic(auto)]

pub mod decoding;
pub mod encoding;
mod interpolation;
pub mod shape;
mod symbols;
#[cfg(test)]
mod tests;
pub mod theorems;

pub use shape::{Code, FieldChoice};
