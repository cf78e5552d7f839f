// Images compared with bytes that were written out by hand.
#![tactic(auto)]

#[cfg(test)]
mod tests;
