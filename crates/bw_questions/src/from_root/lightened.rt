//! An instance in which each row that may change has the least weight.
ghost use Rattle.std.specs.Prelude.{◌≡◌, ◌<◌, length, slice_index, IfOk};
ghost use Rattle.bw_model.specs.Groups.{AreTreeRows};
ghost use Rattle.bw_questions.specs.FromRoot.{AreFloors, IsLightened, floor_of};

use super::weighed::weighed;
use bw_model::Instance;
use bw_model::limits::MIN_WEIGHT;
use std::alloc::{AllocError, Global};

// The least weight of a row: 1 if it may change, else its own.
fn floor_of(instance: &Instance, may: &[bool], g: u32) -> u64
    requires row { g < length instance.now.rows }
    requires may { length may.now ≡ length instance.now.rows }
    ensures { result ≡ floor_of instance.now.rows may.now g }
{
    if may[g as usize] {
        MIN_WEIGHT
    } else {
        instance.row(g).weight
    }
}

// The least weight of each row.
fn floors_of(alloc: Global, instance: &Instance, may: &[bool]) -> Result<Vec<u64>, AllocError>
    requires { length may.now ≡ length instance.now.rows }
    ensures { IfOk result (λ floors. AreFloors instance.now.rows may.now floors.items) }
{
    let count = instance.rows().len();
    let mut floors = vec![in alloc; 0u64; count]?;
    for g in 0..count {
        floors[g] = floor_of(instance, may, g as u32);
    }
    Ok(floors)
}

/// The instance with weight 1 of each row that may change.
///
/// # Errors
/// `AllocError` if memory was refused.
pub(crate) fn lightened(
    alloc: Global,
    instance: &Instance,
    may: &[bool],
) -> Result<Instance, AllocError>
    requires { length may.now ≡ length instance.now.rows }
    ensures { IfOk result (IsLightened instance.now may.now) }
{
    let _rows = instance.rows();
    let floors = floors_of(alloc, instance, may)?;
    weighed(alloc, instance, floors.as_slice())
}
