//! The certificate that a caller gives, by column.
ghost use Rattle.std.specs.Prelude.{◌≡◌, true, length, IfOk};
ghost use Rattle.bw_model.specs.Certificate.{certified_of};
ghost use Rattle.bw_columns.specs.Certificates.{claimed_of, AreLevels, are_levels_even};
ghost use Rattle.bw_columns.specs.Certificates.{flags_in, IsSpelled};

use bw_model::{Certificate, Mark};
use std::alloc::{AllocError, Global};

/// Flags and levels of a claimed certificate, one entry in each column for each row.
#[derive(Clone, Copy)]
pub struct Claim<'a> {
    /// 0 for a group whose own limit does not bound its amount.
    pub flags: &'a [u8],
    /// `num` of each level, 0 for none.
    pub nums: &'a [u64],
    /// `den` of each level, 0 for none.
    pub dens: &'a [u64],
    /// `place` of each level.
    pub places: &'a [u32],
}

/// Whether each number is not 0.
///
/// # Errors
/// `AllocError` if an allocation failed.
pub fn flags_of(alloc: Global, flags: &[u8]) -> Result<Vec<bool>, AllocError>
    ensures { IfOk result (λ tight. tight.items ≡ flags_in flags.now) }
{
    flags.iter().map(|flag| *flag != 0).collect(alloc)
}

impl Claim<'_> {
    /// Whether the columns of the levels are of one length.
    pub fn is_even(&self) -> bool
        ensures { result ≡ are_levels_even (claimed_of self.now) }
    {
        let count = self.nums.len();
        self.dens.len() == count && self.places.len() == count
    }

    // The levels, None if `num` or `den` is 0.
    fn levels(&self, alloc: Global) -> Result<Vec<Option<Mark>>, AllocError>
        requires { are_levels_even (claimed_of self.now) ≡ true }
        ensures { IfOk result (λ levels. AreLevels (claimed_of self.now)
            (length self.now.nums.now) levels.items) }
    {
        let mut levels = Vec::new(alloc);
        for k in 0..self.nums.len() {
            levels.push(Mark::new(self.nums[k], self.dens[k], self.places[k]))?;
        }
        Ok(levels)
    }

    /// The certificate of columns of one length.
    ///
    /// # Errors
    /// `AllocError` if an allocation failed.
    pub fn certificate(&self, alloc: Global) -> Result<Certificate, AllocError>
        requires { are_levels_even (claimed_of self.now) ≡ true }
        ensures { IfOk result
            (λ certificate. IsSpelled (claimed_of self.now) (certified_of certificate)) }
    {
        let tight = flags_of(alloc, self.flags)?;
        let levels = self.levels(alloc)?;
        Ok(Certificate { tight, levels })
    }
}
