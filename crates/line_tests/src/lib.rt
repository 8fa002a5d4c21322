// Tests of the lines that are read and written.
#![tactic(auto)]

#[cfg(test)]
mod malformed;
#[cfg(test)]
mod well_formed;
