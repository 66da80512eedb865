// Tests of systems and checks, from the outside.

#![tactic(auto)]

#[cfg(test)]
mod choices;
#[cfg(test)]
mod closes;
#[cfg(test)]
mod limits;
#[cfg(test)]
mod loads;
#[cfg(test)]
mod messages;
#[cfg(test)]
mod tools;
