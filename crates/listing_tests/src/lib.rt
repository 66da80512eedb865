// Tests of witnesses and their listings, from the outside.

#![tactic(auto)]

#[cfg(test)]
mod full;
#[cfg(test)]
mod lines;
#[cfg(test)]
mod spelled;
