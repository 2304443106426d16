//! Runs: decks, libraries and words through the top call, and what must come of each, worked out by hand.
#![tactic(auto)]

#[cfg(test)]
mod failing_calls;
#[cfg(test)]
mod flat_texts;
#[cfg(test)]
mod lifted_levels;
#[cfg(test)]
mod lifted_limits;
#[cfg(test)]
mod lifted_long;
#[cfg(test)]
mod lifted_names;
#[cfg(test)]
mod lifted_texts;
#[cfg(test)]
mod options;
#[cfg(test)]
mod reports;
#[cfg(test)]
mod restored_texts;
#[cfg(test)]
mod rounds;
