//! Literals.

use cq_print::Draft;
use cq_token::Sign;
use cq_value::Value;

/// Writes a sign and digits. A number of more than 64 bits, with which no statement is read, is given up as for want of memory.
pub(crate) fn integer(out: &mut Draft, x: i128) {
    out.sign_if(x < 0, Sign::Minus);
    match u64::try_from(x.unsigned_abs()) {
        Ok(digits) => out.number(digits),
        Err(_) => out.give_up(),
    }
}

pub(crate) fn literal(out: &mut Draft, value: &Value) {
    match value {
        Value::Null => out.word("null"),
        Value::Int(x) => integer(out, *x),
        Value::Text(text) => out.quoted(text.as_str()),
    }
}

/// Writes a value of INSERT. The least one of bigint is no literal.
pub(crate) fn stored(out: &mut Draft, value: &Value) {
    match value {
        Value::Int(-9223372036854775808) => {
            integer(out, -9223372036854775807);
            out.sign(Sign::Minus);
            out.number(1);
        }
        value => literal(out, value),
    }
}
