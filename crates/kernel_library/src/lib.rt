//! The column kernels for a program in Rust or C, such as `bench/compare/kernels.rs`. The columns'
//! length stands for `None`.
#![tactic(auto)]

ghost use Rattle.std.specs.Prelude.{◌≡◌, ◌≤◌, length, All, unwrap_or};
ghost use Rattle.sb_amount.specs.Limit.{IsWithinLimit};
ghost use Rattle.lane_audit.specs.Columns.{count_below, first_difference, first_outside, total};

use sb_rows::CUSTOMERS;

/// The sum of a column's values.
#[unsafe(no_mangle)]
pub extern "C" fn kernel_sum(values: &[i64]) -> i64
    requires limit { length values.now ≤ CUSTOMERS }
    requires within { All IsWithinLimit values.now }
    ensures { result ≡ total values.now }
{
    lane_audit::sum(values)
}

/// The least place at which two columns of one length differ, or their length if they are equal.
#[unsafe(no_mangle)]
pub extern "C" fn kernel_first_difference(left: &[i64], right: &[i64]) -> usize
    requires { length left.now ≡ length right.now }
    ensures { result ≡ unwrap_or (first_difference left.now right.now) (length left.now) }
{
    lane_audit::first_difference(left, right).unwrap_or(left.len())
}

/// The least place whose value is below `low` or above `high`, or the column's length if there is
/// none.
#[unsafe(no_mangle)]
pub extern "C" fn kernel_first_outside(values: &[i64], low: i64, high: i64) -> usize
    ensures { result ≡ unwrap_or (first_outside values.now low high) (length values.now) }
{
    lane_audit::first_outside(values, low, high).unwrap_or(values.len())
}

/// How many values of a column are below `low`.
#[unsafe(no_mangle)]
pub extern "C" fn kernel_count_below(values: &[i64], low: i64) -> usize
    ensures { result ≡ count_below values.now low }
{
    lane_audit::count_below(values, low)
}
