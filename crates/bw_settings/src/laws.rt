//! Laws of what owners set for goals, each the contract of a function that does nothing.
ghost use Rattle.std.specs.Prelude.{◌≡◌};
ghost use Rattle.bw_settings.specs.Settings.{GreaterSettingsGiveNoLess};

use crate::several::MAX_PASSES;
use bw_owned::weights_grow;
use bw_plan::there_is_one_plan;
use bw_questions::laws::lighter_has_no_more;

/// Law: with a greater number, whose weights are at a group, above it or below it, the group gets
/// no less, by the plan and by its guarantee.
///
/// So a request that is raised takes nothing from its container, though the weights of the pod and
/// of the class rise with it.
pub fn greater_settings_give_no_less()
    ensures { GreaterSettingsGiveNoLess }
{
    there_is_one_plan();
    lighter_has_no_more();
    weights_grow();
}

/// Law: the numbers of several owners are settled in at most 50 passes, or not at all.
pub fn passes_are_few()
    ensures { MAX_PASSES ≡ 50 }
{}
