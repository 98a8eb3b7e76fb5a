//! The canonical text of a bound statement, written token by token.
//!
//! - An expression is written where the grammar asks for a level, and stands in brackets where its own level is lower. A sum or product
//!   that stands first in another has no brackets; one that is a key has them, so that it is read as the key.
//! - A negative literal is a sign and digits, which are read as one literal; behind a sign that stays an operator a number stands in
//!   brackets. The least bigint, which is no literal, is written in INSERT as a difference. CASE has its ELSE.
//! - A tree of AND or OR is one chain where it has the form that a chain is read as, of halves, and else its two sides. Where an operand
//!   has an IN subquery in it, `x >= a AND x <= b` is BETWEEN and `x = a OR x = b` is IN, so that the subquery is written once. An operand
//!   is known by the number of a subquery in it.
//! - The relations of a FROM have the aliases r1, r2, .. by their places, and columns are written with them. A CTE has a name that no
//!   table has. A product of relations is written with commas where it is the whole FROM or its first part, and else as CROSS JOIN.
//! - Each output is written with AS and its name, but for the names that no text can write there (`?column?`, `coalesce`, `case`): an
//!   output has these by its expression. Where the outputs that follow are all columns of one relation, in order and with their names,
//!   they are written `r1.*`. So a column whose name its relation has twice can be written, as it can only come from `*`.
//! - A key of GROUP BY that is an output is written by its place, and any other by its expression; so is a key of ORDER BY.
//!
//! No clause says what is written: `cq_reprint` reads each text again.
#![tactic(auto)]

mod commands;
mod conditions;
mod expressions;
mod form;
mod from;
mod grouping;
mod level;
mod names;
mod outputs;
mod queries;
mod scope;
mod selects;
mod statements;
mod subquery;
mod values;
mod writes;

pub use statements::canonical;
