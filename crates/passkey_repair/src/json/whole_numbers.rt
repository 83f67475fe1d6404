//! Floats with a whole value.
ghost use Rattle.std.specs.Prelude.{◌≡◌};
ghost use Rattle.passkey_repair.specs.json.Changes.{exact_integer, whole_number};
ghost use Rattle.serde_json.specs.View.{view};

use serde_json::Value;
use std::num::{nearest_i64_to_f64, saturating_f64_to_i64};

/// The magnitude below which each integer is a float: 2^53.
const EXACT_LIMIT: i64 = 9007199254740992;

/// Returns the integer that is equal to the float, if its magnitude is below the limit.
#[tactic(auto, unfolding(crate::specs::json::Changes::exact_integer))]
fn exact_integer(float: f64) -> Option<i64>
    ensures { result ≡ exact_integer float }
{
    let integer = saturating_f64_to_i64(float);
    if -EXACT_LIMIT < integer && integer < EXACT_LIMIT && nearest_i64_to_f64(integer) == float {
        Some(integer)
    } else {
        None
    }
}

/// Returns the integer that is equal to a float.
pub(crate) fn whole_number(value: &Value) -> Option<i64>
    ensures { result ≡ whole_number (view value.now) }
{
    if value.is_f64() {
        exact_integer(value.as_f64()?)
    } else {
        None
    }
}
