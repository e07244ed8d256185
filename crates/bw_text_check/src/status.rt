//! The exit status of a check.
ghost use Rattle.std.specs.Prelude.{◌≡◌};
ghost use Rattle.bw_text_check.specs.CheckText.{check_status};

use bw_streams::RunFault;

/// Exit status of a check: 0 if the text is accepted, 3 if it is not, and 1 after a fault.
pub fn status_of_check(checked: &Result<bool, RunFault>) -> u8
    ensures { result ≡ check_status checked.now }
{
    match checked {
        Ok(true) => 0,
        Ok(false) => 3,
        Err(_) => 1,
    }
}
