//! The exit status of a run.
ghost use Rattle.std.specs.Prelude.{◌≡◌, is_ok, if◌then◌else◌};

use bw_streams::RunFault;

/// Exit status of a run: 0 if the script was read to its end, refused lines included, and 1
/// otherwise.
pub fn status_of_run(run: &Result<(), RunFault>) -> u8
    ensures { result ≡ (if is_ok run.now then 0 else 1) }
{
    match run {
        Ok(()) => 0,
        Err(_) => 1,
    }
}
