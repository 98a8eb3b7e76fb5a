ghost use Rattle.std.specs.Prelude.{◌≡◌, ◌||◌, false, not, is_none, length, map, filter};
ghost use Rattle.std.specs.List.{list_all};
ghost use Rattle.cq_grammar.specs.Conditions as spec;
ghost use Rattle.cq_parse.specs.Forms.{form_of};

use cq_grammar::{Argument, Ast, Kind, Literal};
use cq_parse_steps::kind_of;
use cq_token::Token;
use std::marker::Model;

/// The place of the second PRIMARY.
#[tactic(auto, unfolding(cq_grammar::specs::Words::same_kind))]
fn second_primary(tokens: &[Token]) -> Option<u64>
    ensures { result ≡ spec.second_primary false tokens.now }
{
    let mut seen = false;
    for token in tokens {
        if kind_of(&token.kind) == Kind::Primary {
            if seen {
                return Some(token.start);
            }
            seen = true;
        }
    }
    None
}

/// What was seen of the options of a COPY: whether FORMAT, which format, and where HEADER.
#[derive(Drop)]
struct Seen {
    format: bool,
    csv: bool,
    text: bool,
    header: Option<u64>,
}

impl Model for Seen {
    ghost use Rattle.cq_grammar.specs.Conditions.{Options};

    ghost Value = { Options };

    ghost view = { λ s. record { format = s.format; csv = s.csv; text = s.text; header = s.header } };
}

impl Seen {
    fn nothing() -> Seen
        ensures { result ≡ spec.no_options }
    {
        Seen {
            format: false,
            csv: false,
            text: false,
            header: None,
        }
    }

    /// The place that is refused at a token of this kind.
    fn refused_at(&self, kind: Kind, at: u64) -> Option<u64>
        ensures { result ≡ spec.refused_at kind at self.now }
    {
        match kind {
            Kind::Format if self.format => Some(at),
            Kind::Header if self.text || self.header.is_some() => Some(at),
            Kind::Text => self.header,
            Kind::Close if !self.csv => self.header,
            _ => None,
        }
    }

    /// Takes note of a token of this kind.
    fn note(&mut self, kind: Kind, at: u64)
        ensures { self.new ≡ spec.seen_with kind at self.old }
    {
        match kind {
            Kind::Format => self.format = true,
            Kind::Csv => self.csv = true,
            Kind::Text => self.text = true,
            Kind::Header => self.header = Some(at),
            _ => (),
        }
    }
}

/// The first place that is refused in the words behind FROM.
fn refused_option(tokens: &[Token]) -> Option<u64>
    ensures { result ≡ spec.refused_option spec.no_options tokens.now }
{
    let mut seen = Seen::nothing();
    for token in tokens {
        let kind = kind_of(&token.kind);
        let refused = seen.refused_at(kind, token.start);
        if refused.is_some() {
            return refused;
        }
        seen.note(kind, token.start);
    }
    None
}

/// The tokens behind the first FROM.
#[tactic(auto, unfolding(cq_grammar::specs::Words::same_kind))]
fn behind_from(tokens: &[Token]) -> &[Token]
    ensures { result.now ≡ spec.behind_from tokens.now }
{
    let mut rest = tokens;
    while let Some((first, more)) = rest.split_first() {
        rest = more;
        if kind_of(&first.kind) == Kind::From {
            return rest;
        }
    }
    rest
}

/// The place of a word that the first tokens of a statement may not have: a second PRIMARY, FORMAT or HEADER, or a HEADER
/// without CSV.
#[tactic(auto, unfolding(cq_grammar::specs::Conditions::misplaced, cq_grammar::specs::Words::same_kind))]
pub fn misplaced(tokens: &[Token]) -> Option<u64>
    ensures { result ≡ spec.misplaced tokens.now }
{
    let Some((first, rest)) = tokens.split_first() else {
        return None;
    };
    match kind_of(&first.kind) {
        Kind::Create => second_primary(rest),
        Kind::Copy => refused_option(behind_from(rest)),
        _ => None,
    }
}

/// The form of an argument's value.
#[derive(Clone, Copy)]
enum Form {
    Quoted,
    Number,
}

fn has_form(form: Form, value: &Literal) -> bool
    ensures { result ≡ spec.has_form (form_of form) value.now }
{
    match (form, value) {
        (Form::Quoted, Literal::Quoted { .. }) | (Form::Number, Literal::Number { .. }) => true,
        _ => false,
    }
}

fn all_named(arguments: &[Argument]) -> bool
    ensures { result ≡ list_all (λ a. not (is_none a.name)) arguments.now }
{
    arguments.iter().all(|argument| argument.name.is_some())
}

/// Whether the arguments begin with those that go by place, one of each form, and each behind them has a name.
fn fits_places(forms: &[Form], arguments: &[Argument]) -> bool
    ensures { result ≡ spec.fits_places (map form_of forms.now) arguments.now }
{
    let Some((form, forms)) = forms.split_first() else {
        return all_named(arguments);
    };
    let Some((first, rest)) = arguments.split_first() else {
        return false;
    };
    first.name.is_none() && has_form(*form, &first.value) && fits_places(forms, rest)
}

fn is_named(name: &str, argument: &Argument) -> bool
    ensures { result ≡ spec.is_named name.now argument.now }
{
    match &argument.name {
        None => false,
        Some(found) => found.text.as_str() == name,
    }
}

/// Whether each argument of this name has a value of this form.
fn have_form(name: &str, form: Form, arguments: &[Argument]) -> bool
    ensures { result ≡ list_all (λ a. not (spec.is_named name.now a) || spec.has_form (form_of form) a.value) arguments.now }
{
    arguments.iter().all(|argument| !is_named(name, argument) || has_form(form, &argument.value))
}

/// How many arguments have this name.
fn times(name: &str, arguments: &[Argument]) -> usize
    ensures { result ≡ length (filter (spec.is_named name.now) arguments.now) }
{
    arguments
        .iter()
        .filter(|argument| is_named(name, argument))
        .count()
}

/// Whether the name stands at most once, with a value of its form.
fn fits_name(name: &str, form: Form, arguments: &[Argument]) -> bool
    ensures { result ≡ spec.fits_name arguments.now (name.now, form_of form) }
{
    have_form(name, form, arguments) && times(name, arguments) <= 1
}

/// Whether a function of this name takes these arguments.
#[tactic(auto, unfolding(cq_grammar::specs::Conditions::takes))]
fn takes(function: &str, arguments: &[Argument]) -> bool
    ensures { result ≡ spec.takes function.now arguments.now }
{
    match function {
        "create_distributed_table" => {
            fits_places(&[Form::Quoted, Form::Quoted], arguments)
                && fits_name("colocate_with", Form::Quoted, arguments)
                && fits_name("shard_count", Form::Number, arguments)
        }
        "create_reference_table" => fits_places(&[Form::Quoted], arguments),
        "citus_move_shard_placement" => {
            fits_places(&[Form::Number, Form::Number, Form::Number], arguments)
        }
        "rebalance_table_shards" | "get_rebalance_table_shards_plan" => {
            fits_places(&[], arguments) && fits_name("rebalance_strategy", Form::Quoted, arguments)
        }
        _ => false,
    }
}

/// The place of a call's name, where its arguments have the wrong number or form.
pub fn miscalled(statement: &Ast) -> Option<u64>
    ensures { result ≡ spec.miscalled statement.now }
{
    match statement {
        Ast::Call {
            function,
            arguments,
            ..
        } if !takes(function.text.as_str(), arguments.as_slice()) => Some(function.at),
        _ => None,
    }
}
