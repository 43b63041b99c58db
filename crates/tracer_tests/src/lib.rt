#![tactic(auto)]

// Tests of the steps of a trace, on the programs' board.
#[cfg(test)]
mod tests;
