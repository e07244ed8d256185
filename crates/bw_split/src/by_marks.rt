//! The split by marks: the plain program, one slice at a time.
ghost use Rattle.std.specs.Prelude.{IfOk};
ghost use Rattle.bw_model.specs.Split.{IsBestSplit};
ghost use Rattle.bw_split.specs.Conditions.{CanSplit};

use bw_model::Mark;
use std::alloc::{AllocError, Global};
use std::cmp::Reverse;
use std::collections::BinaryHeap;

/// [`split`](crate::split) by the plain program, one slice at a time.
///
/// Each slice goes to the child with the least next mark. The child's next mark goes back to the
/// heap while the child is below its maximum.
///
/// # Errors
/// `AllocError` if memory was refused.
pub fn split_by_marks(
    alloc: Global,
    amount: u64,
    weights: &[u64],
    most: &[u64],
) -> Result<Vec<u64>, AllocError>
    requires { CanSplit amount weights.now most.now }
    ensures best { IfOk result (λ parts. IsBestSplit amount weights.now most.now parts.items) }
{
    let mut heap = BinaryHeap::with_capacity(alloc, weights.len())?;
    for i in 0..weights.len() {
        if most[i] > 0 {
            heap.push(Reverse(Mark {
                num: 1,
                den: weights[i],
                place: i as u32,
            }))?;
        }
    }
    let mut parts = vec![in alloc; 0u64; weights.len()]?;
    for _slice in 0..amount {
        // The least mark. Of marks of one cost, a tie, the earlier sibling has the least place.
        match heap.pop() {
            Some(Reverse(mark)) => {
                let i = mark.place as usize;
                parts[i] += 1;
                if parts[i] < most[i] {
                    heap.push(Reverse(Mark {
                        num: mark.num + 2,
                        den: mark.den,
                        place: mark.place,
                    }))?;
                }
            }
            None => unreachable!(),
        }
    }
    Ok(parts)
}
