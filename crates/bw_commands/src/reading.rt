//! Reads the lines of a script one after another.
ghost use Rattle.std.specs.Prelude.{◌≡◌, ◌++◌, List, IfOk, OnOk};
ghost use Rattle.bw_commands.specs.Reading.{in_use, IsRead, TakesLine};
ghost use Rattle.bw_commands.specs.declared.reading.RefusedLine.{RefusedLine};

use crate::fault::ScriptFault;
use crate::lines::first_line;
use crate::reader::ScriptReader;
use bw_model::HostShape;
use std::alloc::{AllocError, Global};

// The number of the faults that stand for a failed allocation.
const OUT_OF_MEMORY: u8 = 71;

/// A line of a script that is refused.
#[derive(Clone, Copy, Debug)]
pub struct RefusedLine {
    /// Its number. The first line of a script has 1.
    pub line: u64,
    /// Why it is refused.
    pub fault: ScriptFault,
}

/// End of a whole script: its state, and the lines that were refused.
#[derive(Drop)]
pub struct ReadScript {
    /// The state after the last line.
    pub reader: ScriptReader,
    /// The refused lines, in order.
    pub refused: Vec<RefusedLine>,
}

// Takes one line, and notes its refusal.
fn take_line(
    reader: &mut ScriptReader,
    refused: &mut Vec<RefusedLine>,
    number: u64,
    line: &[u8],
) -> Result<(), AllocError>
    ensures { OnOk result ((first : List RefusedLine)
        × TakesLine (in_use reader.old) number line.now first (in_use reader.new)
        × (refused.new.items ≡ refused.old.items ++ first)) }
{
    match reader.take_line(line) {
        Ok(()) => Ok(()),
        Err(fault) => {
            if fault.number() == OUT_OF_MEMORY {
                return Err(AllocError);
            }
            refused.push(RefusedLine {
                line: number,
                fault,
            })?;
            Ok(())
        }
    }
}

/// Reads a script: makes the changes of its lines in a new hierarchy of the root alone.
///
/// `hash_key` is as in [`ScriptReader::new`]. Each leaf uses its slices, so `period` leaves of each
/// group's limit what the plan does not give it. A line that is only answered changes nothing, and
/// is refused as others are.
///
/// # Errors
///
/// `AllocError` if an allocation failed.
pub fn read_script(
    alloc: Global,
    shape: HostShape,
    hash_key: u64,
    text: &[u8],
) -> Result<ReadScript, AllocError>
    ensures { IfOk result (λ r. IsRead shape text.now r.refused.items r.reader) }
{
    let mut reader = ScriptReader::new(alloc, hash_key, shape)?;
    let mut refused = Vec::new(alloc);
    let mut number = 1;
    let mut rest = text;
    while !rest.is_empty() {
        let (line, behind) = first_line(rest);
        take_line(&mut reader, &mut refused, number, line)?;
        number += 1;
        rest = behind;
    }
    Ok(ReadScript { reader, refused })
}
