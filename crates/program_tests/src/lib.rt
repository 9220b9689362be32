//! Tests of the program on its top call, over files in memory. They are apart from `rwsp`, so that whoever builds the
//! program doesn't prove them.
#![tactic(auto)]

#[cfg(test)]
mod tests;
