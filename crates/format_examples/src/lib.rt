// Worked examples and limits of blocks, images, texts and reports, run as tests.
#![tactic(auto)]

#[cfg(test)]
mod formats;
#[cfg(test)]
mod reports;
