// Tests of runs over tables as text, from the outside.

#![tactic(auto)]

#[cfg(test)]
mod buffers;
#[cfg(test)]
mod choices;
#[cfg(test)]
mod closes;
#[cfg(test)]
mod equations;
#[cfg(test)]
mod limits;
#[cfg(test)]
mod listings;
#[cfg(test)]
mod long;
#[cfg(test)]
mod names;
#[cfg(test)]
mod tools;
#[cfg(test)]
mod worked;
