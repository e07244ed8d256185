//! A certificate as columns of numbers.
ghost use Rattle.std.specs.Prelude.{◌≡◌, length, map, IfOk};
ghost use Rattle.bw_model.specs.Certificate.{certified_of};
ghost use Rattle.bw_columns.specs.Certificates.{flag_number, num_of, den_of, place_of_level};
ghost use Rattle.bw_columns.specs.Certificates.{columns_in, columns_of, claimed_columns};

use bw_model::{Certificate, Mark};
use std::alloc::{AllocError, Global};

/// A certificate by column, one entry in each for each row.
#[derive(Drop)]
pub struct CertificateColumns {
    /// 1 if the group's own limit is below its want, else 0.
    pub flags: Vec<u8>,
    /// `num` of each level, 0 for none.
    pub nums: Vec<u64>,
    /// `den` of each level, 0 for none.
    pub dens: Vec<u64>,
    /// `place` of each level, 0 for none.
    pub places: Vec<u32>,
}

fn flag_number(flag: bool) -> u8
    ensures { result ≡ flag_number flag }
{
    if flag { 1 } else { 0 }
}

fn num_of(level: Option<Mark>) -> u64
    ensures { result ≡ num_of level }
{
    match level {
        None => 0,
        Some(mark) => mark.num,
    }
}

fn den_of(level: Option<Mark>) -> u64
    ensures { result ≡ den_of level }
{
    match level {
        None => 0,
        Some(mark) => mark.den,
    }
}

fn place_of(level: Option<Mark>) -> u32
    ensures { result ≡ place_of_level level }
{
    match level {
        None => 0,
        Some(mark) => mark.place,
    }
}

/// 1 for each flag, else 0.
///
/// # Errors
/// `AllocError` if an allocation failed.
pub fn flag_numbers(alloc: Global, flags: &[bool]) -> Result<Vec<u8>, AllocError>
    ensures { IfOk result (λ numbers. numbers.items ≡ map flag_number flags.now) }
{
    flags.iter().map(|flag| flag_number(*flag)).collect(alloc)
}

fn nums(alloc: Global, levels: &[Option<Mark>]) -> Result<Vec<u64>, AllocError>
    ensures { IfOk result (λ nums. nums.items ≡ map num_of levels.now) }
{
    levels.iter().map(|level| num_of(*level)).collect(alloc)
}

fn dens(alloc: Global, levels: &[Option<Mark>]) -> Result<Vec<u64>, AllocError>
    ensures { IfOk result (λ dens. dens.items ≡ map den_of levels.now) }
{
    levels.iter().map(|level| den_of(*level)).collect(alloc)
}

fn places(alloc: Global, levels: &[Option<Mark>]) -> Result<Vec<u32>, AllocError>
    ensures { IfOk result (λ places. places.items ≡ map place_of_level levels.now) }
{
    levels.iter().map(|level| place_of(*level)).collect(alloc)
}

/// The columns of a certificate.
///
/// # Errors
/// `AllocError` if an allocation failed.
pub fn certificate_columns(
    alloc: Global,
    certificate: &Certificate,
) -> Result<CertificateColumns, AllocError>
    ensures { IfOk result (λ c. columns_in c ≡ columns_of (certified_of certificate.now)) }
{
    let levels = certificate.levels.as_slice();
    Ok(CertificateColumns {
        flags: flag_numbers(alloc, certificate.tight.as_slice())?,
        nums: nums(alloc, levels)?,
        dens: dens(alloc, levels)?,
        places: places(alloc, levels)?,
    })
}

/// Writes the columns of a certificate over a caller's columns of the same lengths.
pub fn write_certificate(
    found: &CertificateColumns,
    flags: &mut [u8],
    nums: &mut [u64],
    dens: &mut [u64],
    places: &mut [u32],
)
    requires flags { length found.now.flags.items ≡ length flags.old }
    requires nums { length found.now.nums.items ≡ length nums.old }
    requires dens { length found.now.dens.items ≡ length dens.old }
    requires places { length found.now.places.items ≡ length places.old }
    ensures { claimed_columns flags.new nums.new dens.new places.new ≡ columns_in found.now }
{
    flags.copy_from_slice(found.flags.as_slice());
    nums.copy_from_slice(found.nums.as_slice());
    dens.copy_from_slice(found.dens.as_slice());
    places.copy_from_slice(found.places.as_slice());
}
