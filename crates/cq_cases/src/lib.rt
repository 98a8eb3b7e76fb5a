//! What no script through the program shows of its runs: sources, sinks and stores that fail, what stores hold at the end, and that sessions of a block run
//! side by side. All is tests; the scripts are in `tests/sql`.
#![tactic(auto)]

#[cfg(test)]
mod blocks;
#[cfg(test)]
mod moves;
#[cfg(test)]
mod running;
#[cfg(test)]
mod runs;
#[cfg(test)]
mod streams;
