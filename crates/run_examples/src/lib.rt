// Rounds, hints, whole runs of workers and every refusal of a call, run as tests.
#![tactic(auto)]

#[cfg(test)]
mod refusals;
#[cfg(test)]
mod rounds;
#[cfg(test)]
mod runs;
