// Tests of the writer, from the outside.

#![tactic(auto)]

#[cfg(test)]
mod lists;
#[cfg(test)]
mod refusals;
#[cfg(test)]
mod returns;
#[cfg(test)]
mod tools;
