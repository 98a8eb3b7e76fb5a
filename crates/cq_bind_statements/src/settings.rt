ghost use Rattle.std.specs.Prelude.{◌≡◌};
ghost use Rattle.cq_reading.specs.Outcomes.{Judges};
ghost use Rattle.cq_reading.specs.Statements.{number_setting as number_in, switch_setting as switch_in, setting as setting_of};

use cq_grammar::{Name, SettingValue};
use cq_reading::BindError;
use cq_tree::Statement;

/// A setting that takes numbers from 1 to this one.
fn number_setting(which: u32, greatest: u64, value: &SettingValue) -> Result<Statement, BindError>
    ensures { Judges (number_in which greatest value.now) result }
{
    match value {
        SettingValue::Number { value, .. } if 1 <= *value && *value <= greatest => {
            Ok(Statement::Setting {
                which,
                value: *value,
            })
        }
        SettingValue::Number { value, .. } => Err(BindError::OutOfRange {
            value: i128::from(*value),
            least: 1,
            greatest: i128::from(greatest),
        }),
        SettingValue::On { at } | SettingValue::Off { at } => Err(BindError::Type { at: *at }),
    }
}

/// A setting that is on or off.
fn switch_setting(which: u32, value: &SettingValue) -> Result<Statement, BindError>
    ensures { Judges (switch_in which value.now) result }
{
    match value {
        SettingValue::Number { at, .. } => Err(BindError::Type { at: *at }),
        SettingValue::On { .. } => Ok(Statement::Setting { which, value: 1 }),
        SettingValue::Off { .. } => Ok(Statement::Setting { which, value: 0 }),
    }
}

/// A SET. `Err`: 12 where there is no such setting, 10 where the number is out of its range, and 14 where the value is of another
/// form.
pub fn setting(space: &Name, name: &Name, value: &SettingValue) -> Result<Statement, BindError>
    ensures { Judges (setting_of space.now name.now value.now) result }
{
    if space.text.as_str() != "citus" {
        Err(BindError::Unknown { at: space.at })
    } else if name.text.as_str() == "enable_repartition_joins" {
        switch_setting(0, value)
    } else if name.text.as_str() == "shard_count" {
        number_setting(1, 128, value)
    } else if name.text.as_str() == "max_adaptive_executor_pool_size" {
        number_setting(2, 64, value)
    } else {
        Err(BindError::Unknown { at: space.at })
    }
}
