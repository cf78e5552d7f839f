// Shares, and what is measured, compared with values that were worked out by hand.
#![tactic(auto)]

#[cfg(test)]
mod tests;
