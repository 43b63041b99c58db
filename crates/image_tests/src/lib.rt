#![tactic(auto)]

// Tests of the check of an image, at images written out.
#[cfg(test)]
mod tests;
