//! Exit statuses.
ghost use Rattle.std.specs.Prelude.{◌≡◌};
ghost use Rattle.arbiter.specs.Status.{status_of_fault};

use crate::words::WordsFault;

/// Exit status of a command line that gives no job: 0 for help, 2 for a refusal, 1 if an allocation
/// failed.
pub fn status_of_words(fault: &WordsFault) -> u8
    ensures { result ≡ status_of_fault fault.now }
{
    match fault {
        WordsFault::Help(_) => 0,
        WordsFault::Usage(_) => 2,
        WordsFault::Memory => 1,
    }
}
