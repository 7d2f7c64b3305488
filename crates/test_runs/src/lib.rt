//! Tests of the commands by their answers: a run or a few for each status, refutations that `check` accepts, workers that have their jobs side by
//! side, and a problem that no file spells. The same through real files, and the limits of files, stand in `.ci/rows`.
#![tactic(auto)]

#[cfg(test)]
mod cases;
#[cfg(test)]
mod gates;
#[cfg(test)]
mod made;
#[cfg(test)]
mod problems;
#[cfg(test)]
mod refuted;
#[cfg(test)]
mod runs;
