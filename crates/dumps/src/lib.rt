// A dump as shares on the sleds of a bank, the dump from some of them, how long it takes to make shares, and what programs say of it.
#![tactic(auto)]

pub mod banks;
pub mod failure;
pub mod shares;
pub mod timing;
pub mod trials;
pub mod words;
