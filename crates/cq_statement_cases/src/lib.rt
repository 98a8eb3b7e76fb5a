//! What no script through the program shows of a statement that was read: the groups that each table in it touches, the tokens of its
//! values, and how it is printed. All is tests; the scripts are in `tests/sql`.
#![tactic(auto)]

#[cfg(test)]
mod printing;
#[cfg(test)]
mod tables;
#[cfg(test)]
mod tokens;
#[cfg(test)]
mod touched;
