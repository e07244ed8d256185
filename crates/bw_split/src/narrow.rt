//! Lists of numbers of 16 bits, as the search for a level reads them.
ghost use Rattle.std.specs.Prelude.{◌≡◌, ◌≤◌, length, sum, IfOk};
ghost use Rattle.bw_split.specs.Conditions.{cut_at};

use crate::limits::{MAX_CHILDREN, MAX_PART};
use std::alloc::{AllocError, Global};

/// The sum of at most [`MAX_CHILDREN`] numbers.
pub fn sum_of(numbers: &[u16]) -> u64
    requires few { length numbers.now ≤ MAX_CHILDREN }
    ensures { result ≡ sum numbers.now }
{
    let mut total: u32 = 0;
    for i in 0..numbers.len() {
        total += u32::from(numbers[i]);
    }
    u64::from(total)
}

/// The numbers with 16 bits each, every one cut at a bound.
///
/// Weights have room there. A cut of the maxima at the amount changes no split.
///
/// # Errors
/// `AllocError` if memory was refused.
pub fn narrowed(alloc: Global, numbers: &[u64], bound: u64) -> Result<Vec<u16>, AllocError>
    requires { bound ≤ MAX_PART }
    ensures { IfOk result (λ narrow. narrow.items ≡ cut_at bound numbers.now) }
{
    let mut narrow = Vec::with_capacity(alloc, numbers.len())?;
    for number in numbers {
        narrow.push((*number).min(bound) as u16)?;
    }
    Ok(narrow)
}

/// Numbers of 16 bits as numbers of 64.
///
/// # Errors
/// `AllocError` if memory was refused.
pub(crate) fn widened(alloc: Global, numbers: &[u16]) -> Result<Vec<u64>, AllocError>
    ensures { IfOk result (λ wide. wide.items ≡ numbers.now) }
{
    let mut wide = Vec::with_capacity(alloc, numbers.len())?;
    for number in numbers {
        wide.push(u64::from(*number))?;
    }
    Ok(wide)
}
