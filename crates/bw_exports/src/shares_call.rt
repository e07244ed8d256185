//! `arbiter_weight_of_shares`: the weight of `cpu.shares`, called from C.
ghost use Rattle.std.specs.Prelude.{◌≡◌, ◌≢◌, ◌<◌, ◌≤◌};
ghost use Rattle.bw_model.specs.declared.limits.TheConstants.{MAX_WEIGHT};
ghost use Rattle.bw_owned.specs.Shares.{linear_weight, IsUntold, IsLogarithmicWeight};

use bw_owned::{linear_weight, logarithmic_weight};

/// The conversion of runc before 1.3.2 and crun before 1.23.
pub(crate) const SHARES_LINEAR: u32 = 1;

/// The conversion of runc from 1.3.2 on and crun from 1.23 on.
pub(crate) const SHARES_LOGARITHMIC: u32 = 2;

/// The `cpu.weight` of 1 to 10000 that a container runtime writes for `cpu.shares`.
///
/// Shares below 2 count as 2, and shares above 262144 as 262144. Conversion 1 is that of runc
/// before 1.3.2 and crun before 1.23, a line that is rounded down. Conversion 2 is that of later
/// ones, a curve through shares 2, 1024 and 262144 with weights 1, 100 and 10000, rounded up.
///
/// The answer is 0 for any other conversion. It would be 0 too if logarithms to 36 binary digits
/// did not tell the weight of conversion 2. Tests try each number of shares, and they all do.
#[unsafe(no_mangle)]
pub extern "C" fn arbiter_weight_of_shares(shares: u64, conversion: u32) -> u64
    ensures linear { conversion ≡ 1 → result ≡ linear_weight shares }
    ensures logarithmic { conversion ≡ 2 → 0 < result → IsLogarithmicWeight shares result }
    ensures untold { conversion ≡ 2 → result ≡ 0 → IsUntold shares }
    ensures none { conversion ≢ 1 → conversion ≢ 2 → result ≡ 0 }
    ensures bound { result ≤ MAX_WEIGHT }
{
    if conversion == SHARES_LINEAR {
        return linear_weight(shares);
    }
    if conversion == SHARES_LOGARITHMIC {
        return logarithmic_weight(shares).unwrap_or(0);
    }
    0
}
