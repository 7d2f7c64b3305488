//! Tests of the commands where something ends early: texts that are cut off, loads and writes that fail, texts at a limit and over it, and the report
//! of a run out of memory.
#![tactic(auto)]

#[cfg(test)]
mod ends;
#[cfg(test)]
mod faults;
#[cfg(test)]
mod limits;
#[cfg(test)]
mod problems;
