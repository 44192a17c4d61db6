//! The values of the parameters: each has a line.

ghost use Rattle.std.specs.Prelude.{◌≡◌, None, IfOk, IfErr};
ghost use Rattle.data_lines.specs.Sheets.{AreSmall};
ghost use Rattle.data_text.specs.Cases.{StopsBy, missing, params_of};

use data_lines::{DataRefusal, DataStop};
use std::alloc::Global;

/// The values of the parameters, or the first of them without a line.
pub(crate) fn params_said(alloc: Global, values: &[Option<u64>]) -> Result<Vec<i64>, DataStop>
    requires { AreSmall values.now }
    ensures params { IfOk result (λ params. params.items ≡ params_of values.now) }
    ensures none { IfOk result (λ params. missing 0 values.now ≡ None) }
    ensures refused { IfErr result (StopsBy (missing 0 values.now)) }
{
    let mut params = Vec::new(alloc);
    for (i, value) in values.iter().enumerate() {
        let Some(value) = value else {
            return Err(DataStop::Refused(DataRefusal::Missing(i)));
        };
        let Ok(()) = params.push(*value as i64) else {
            return Err(DataStop::NoMemory);
        };
    }
    Ok(params)
}
