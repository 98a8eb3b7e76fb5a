use crate::bound::Type;
use crate::error::{BindError, Limited};
use cq_answer::{Fault, What};
use cq_value::Kind;

impl From<Kind> for Type {
    ghost use Rattle.std.specs.Prelude.{◌≡◌};
    ghost use Rattle.cq_reading.specs.Widths.{kind_type};

    ghost from_gives = { λ k t. t ≡ kind_type k };

    fn from(kind: Kind) -> Type {
        match kind {
            Kind::Bigint | Kind::Integer => Type::Number,
            Kind::Text => Type::Text,
        }
    }
}

impl From<Limited> for What {
    ghost use Rattle.std.specs.Prelude.{◌≡◌};
    ghost use Rattle.cq_reading.specs.Faults.{what_of_bind};

    ghost from_gives = { λ e w. w ≡ what_of_bind e };

    /// The same limit, as the binder names it.
    #[tactic(auto, unfolding(crate::specs::Faults::what_of_bind))]
    fn from(limited: Limited) -> What {
        match limited {
            Limited::Relations => What::Relations,
            Limited::Blocks => What::Blocks,
            Limited::Columns => What::Columns,
            Limited::Outputs => What::Outputs,
            Limited::Keys => What::Keys,
            Limited::Tables => What::Tables,
        }
    }
}

impl From<BindError> for Fault {
    ghost use Rattle.std.specs.Prelude.{◌≡◌};
    ghost use Rattle.cq_reading.specs.Faults.{fault_of_bind};

    ghost from_gives = { λ e f. f ≡ fault_of_bind e };

    /// The same cause, with its name, its numbers and its place.
    #[tactic(auto, unfolding(crate::specs::Faults::fault_of_bind))]
    fn from(error: BindError) -> Fault {
        match error {
            BindError::NameTaken { name } => Fault::NameTaken { name },
            BindError::UnknownTable { name } => Fault::UnknownTable { name },
            BindError::UnknownColumn { name } => Fault::UnknownColumn { name },
            BindError::OutOfRange {
                value,
                least,
                greatest,
            } => Fault::OutOfRange {
                value,
                least,
                greatest,
            },
            BindError::Unknown { at } => Fault::Unknown { at },
            BindError::Ambiguous { at } => Fault::Ambiguous { at },
            BindError::Type { at } => Fault::Type { at },
            BindError::NotGrouped { at } => Fault::NotGrouped { at },
            BindError::TooWide { at } => Fault::TooWide { at },
            BindError::WrongCount { at } => Fault::WrongCount { at },
            BindError::Divisor { at } => Fault::Divisor { at },
            BindError::KeyColumn { at } => Fault::KeyColumn { at },
            BindError::Subquery { at } => Fault::Subquery { at },
            BindError::LocalTable { at } => Fault::LocalTable { at },
            BindError::GroupedJoin { at } => Fault::GroupedJoin { at },
            BindError::Value { row, column } => Fault::Value { row, column },
            BindError::Limit { what, number } => Fault::Limit {
                what: What::from(what),
                number,
            },
            BindError::Memory => Fault::Memory,
        }
    }
}
