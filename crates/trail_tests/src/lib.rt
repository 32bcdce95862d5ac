//! Cases of the trail's rules, with their numbers.
#![tactic(auto)]

#[cfg(test)]
mod files;
#[cfg(test)]
mod lines;
#[cfg(test)]
mod refused_words;
