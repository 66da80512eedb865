// Small systems with known answers, where no other crate of tests has them.
//
// Others stand where what they test stands (which number each refusal has, its contract says):
// - checker_tests, closes: Xb = ab by pair a b, left X a, erase X; no equations; X = empty;
// - checker_tests, choices: right X b and then right X a spells ab;
// - checker_tests, loads: aa at 1,023 places;
// - checker_tests, limits: the second left A a on 1,024 A's, the 1,025th left on X = a, the 39th and the 40th doubling;
// - listing_tests, spelled: a buffer of 0 bytes at place 2 of X = ab, and the letter behind it;
// - listing_tests, lines: #26 pair a a;
// - wordeq_tests, worked: the worked tables and their listing.

#![tactic(auto)]

#[cfg(test)]
mod replaced;
