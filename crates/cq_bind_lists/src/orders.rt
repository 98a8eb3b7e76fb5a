//! ORDER BY: a key is the place of an output, its name, an output's expression, or a hidden item.

ghost use Rattle.std.specs.Prelude.{◌≡◌, position, map};
ghost use Rattle.std.specs.List.{All};
ghost use Rattle.cq_reading.specs.Outcomes.{Binds};
ghost use Rattle.cq_reading.specs.Selects as spec;
ghost use Rattle.cq_reading.specs.Walk.{order_part};
ghost use Rattle.cq_bind_calls.specs.Parts.{OrderParts};

use crate::values::{check_number, value};
use cq_bind_calls::{Nested, Step, through_of};
use cq_bind_looks::{Form, form, place};
use cq_bind_names::{key_by_number, key_by_output, key_by_value, output_place};
use cq_grammar::{Direction, OrderKey};
use cq_reading::{BindError, Found, Limited, Ordered, Scope, Shown};
use cq_value::{Items, Text};

fn descends(direction: Option<Direction>) -> bool
    ensures { result ≡ spec.descends direction }
{
    matches!(direction, Some(Direction::Descending))
}

/// The keys over these outputs, of which there are at most 16.
#[derive(Drop)]
struct OrderKeys<'a, N> {
    nested: &'a N,
    outputs: &'a [Shown],
    distinct: bool,
    scope: &'a Scope<'a>,
}

impl<'a, N: Nested> OrderKeys<'a, N> {
    #[tactic(auto, using(cq_bind_looks::proofs::Looks::order_part_is))]
    fn by_expression(
        &self,
        found: &mut Found,
        order: Ordered,
        key: &OrderKey,
    ) -> Result<Ordered, BindError>
        requires { OrderParts (N.may_read self.now.nested.now) key.now }
        ensures { Binds (spec.order_by_expression self.now.scope.now self.now.outputs.now self.now.distinct (order_part key.now) order found.old) result found.new }
    {
        let b = value(self.nested, found, &key.key, self.scope)?;
        let descending = descends(key.direction);
        key_by_value(0, self.distinct, descending, place(&key.key), order, b)
    }

    #[tactic(auto, using(cq_bind_looks::proofs::Looks::order_part_is))]
    fn by_name(
        &self,
        found: &mut Found,
        order: Ordered,
        key: &OrderKey,
        name: &Text,
    ) -> Result<Ordered, BindError>
        requires { OrderParts (N.may_read self.now.nested.now) key.now }
        ensures { Binds (spec.order_by_name self.now.scope.now self.now.outputs.now self.now.distinct (order_part key.now) order name.now (position (spec.has_title name.now) self.now.outputs.now) found.old) result found.new }
    {
        match output_place(name, self.outputs) {
            Some(i) => key_by_output(
                descends(key.direction),
                place(&key.key),
                name,
                self.outputs,
                order,
                i,
            ),
            None => self.by_expression(found, order, key),
        }
    }

    #[tactic(auto, using(cq_bind_looks::proofs::Looks::order_part_is))]
    fn by_form(
        &self,
        found: &mut Found,
        order: Ordered,
        key: &OrderKey,
    ) -> Result<Ordered, BindError>
        requires { OrderParts (N.may_read self.now.nested.now) key.now }
        ensures { Binds (spec.order_by_form self.now.scope.now self.now.outputs.now self.now.distinct (order_part key.now) order (order_part key.now).key.form found.old) result found.new }
    {
        match form(&key.key) {
            Form::Number(n) => key_by_number(
                descends(key.direction),
                place(&key.key),
                n,
                self.outputs.len() as u64,
                order,
            ),
            Form::Name(name) => self.by_name(found, order, key, name),
            Form::Signed(..) | Form::Other => self.by_expression(found, order, key),
        }
    }
}

impl<'a, N: Nested> Step for OrderKeys<'a, N> {
    type State = Ordered;

    type Item = OrderKey;

    ghost reading = { λ s order key. spec.with_order_key s.scope.now s.outputs.now s.distinct order (order_part key) };

    ghost callable = { λ s key. OrderParts (N.may_read s.nested.now) key };

    fn step(
        &self,
        found: &mut Found,
        order: Ordered,
        key: &OrderKey,
    ) -> Result<Ordered, BindError> {
        check_number(&order.keys, 16, Limited::Keys)?;
        self.by_form(found, order, key)
    }
}

/// ORDER BY, over outputs whose items are those of `order`. `Err` is the first refusal in it, 33 where there are more than 16 keys,
/// or want of memory.
pub fn order_keys<N: Nested>(
    nested: &N,
    found: &mut Found,
    keys: &Items<OrderKey>,
    outputs: &[Shown],
    distinct: bool,
    order: Ordered,
    scope: &Scope<'_>,
) -> Result<Ordered, BindError>
    requires { All (OrderParts (N.may_read nested.now)) keys.now }
    ensures { Binds (spec.order_keys scope.now outputs.now distinct (map order_part keys.now) order found.old) result found.new }
{
    let step = OrderKeys {
        nested,
        outputs,
        distinct,
        scope,
    };
    through_of(&step, found, keys, order)
}
