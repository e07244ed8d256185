//! The request of the command line.
ghost use Rattle.std.specs.Prelude.{◌≡◌, Some, None, IfErr, IfOk, drop};
ghost use Rattle.bw_model.specs.Host.{IsHost, host_refusal};

use bw_model::{HostFault, HostShape};

/// The words after the program's name, which is the first.
pub fn behind_name(words: &[String]) -> &[String]
    ensures { result.now ≡ drop 1 words.now }
{
    if words.is_empty() {
        return words;
    }
    words.split_at(1).1
}

/// The host of a run, by its three numbers as they are: processors, and period and slice in
/// microseconds.
///
/// # Errors
///
/// The first fault of the three.
pub fn host_of(processors: u32, period_us: u32, slice_us: u32) -> Result<HostShape, HostFault>
    ensures ok { IfOk result (λ h.
        h ≡ record { processors = processors; period_us = period_us; slice_us = slice_us }) }
    ensures valid { IfOk result IsHost }
    ensures err { IfErr result (λ e.
        host_refusal (record {
          processors = processors;
          period_us = period_us;
          slice_us = slice_us;
        }) ≡ Some e) }
{
    HostShape::new(
        u64::from(processors),
        u64::from(period_us),
        u64::from(slice_us),
    )
}
