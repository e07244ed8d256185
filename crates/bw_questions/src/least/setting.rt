//! The settings whose least value can be asked for.
ghost use Rattle.std.specs.Prelude.{◌≡◌, ◌≤◌};
ghost use Rattle.bw_questions.specs.Change.{greatest_of};

use bw_model::limits::{MAX_PROCESSORS, MAX_WEIGHT};

/// One setting, of a group or of the host. Its values begin at 1.
#[derive(Clone, Copy)]
pub(crate) enum Setting {
    /// The weight of the group.
    Weight,
    /// The number of processors of the host.
    Processors,
}

/// The greatest value of a setting.
pub(crate) fn greatest(setting: Setting) -> u64
    ensures value { result ≡ greatest_of setting }
    ensures bound { result ≤ MAX_WEIGHT }
{
    match setting {
        Setting::Weight => MAX_WEIGHT,
        Setting::Processors => MAX_PROCESSORS,
    }
}
