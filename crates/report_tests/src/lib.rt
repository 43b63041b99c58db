#![tactic(auto)]

// Tests of the text that a trace prints, at numbers and lines written out.
#[cfg(test)]
mod tests;
