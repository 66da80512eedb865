// Tests of the measures: long words against straightforward loops, and the edges of every limit.

#![tactic(auto)]

#[cfg(test)]
mod edges;
#[cfg(test)]
mod long;
#[cfg(test)]
mod nested;
#[cfg(test)]
mod tables;
#[cfg(test)]
mod tools;
