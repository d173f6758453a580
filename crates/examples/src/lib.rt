// Worked examples of the libraries, as tests.
#![tactic(auto)]

#[cfg(test)]
mod index_tests;
#[cfg(test)]
mod mark_tests;
#[cfg(test)]
mod name_tests;
#[cfg(test)]
mod position_tests;
