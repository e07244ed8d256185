//! Rounds of a loop that holds a plan: what each leaf asks for, and what it was not served.
ghost use Rattle.std.specs.Prelude.{◌≡◌, length, slice_index, EachIndex};
ghost use Rattle.bw_owned.specs.Round.{asks_for_all, all_flag, asked_column, unserved};
ghost use Rattle.bw_owned.specs.Round.{AreRoundColumns};

use bw_model::limits::MAX_DEMAND;

// Whether a reading asks for everything.
fn asks_for_all(asked: u64) -> bool
    ensures { result ≡ asks_for_all asked }
{
    MAX_DEMAND <= asked
}

// The flag of a leaf in a round: 1 where its reading asks for everything.
fn all_flag(asked: u64) -> u8
    ensures { result ≡ all_flag asked }
{
    u8::from(asks_for_all(asked))
}

// The slices of a leaf in a round: what it used where it asks for everything, else what it asks
// for.
fn asked_column(used: u64, asked: u64) -> u64
    ensures { result ≡ asked_column used asked }
{
    if asks_for_all(asked) { used } else { asked }
}

// The slices of its plan that a leaf was not served. One that would not have used more lacks none.
fn unserved(planned: u64, used: u64, hungry: u8) -> u64
    ensures { result ≡ unserved planned used hungry }
{
    if hungry == 0 {
        0
    } else {
        planned.saturating_sub(used)
    }
}

// Writes the slices of each leaf.
fn write_asked(used: &[u64], asked: &[u64], column: &mut [u64])
    requires asked { length asked.now ≡ length used.now }
    requires room { length column.old ≡ length used.now }
    ensures long { length column.new ≡ length column.old }
    ensures each { EachIndex used.now (λ k. slice_index column.new k
        ≡ asked_column (slice_index used.now k) (slice_index asked.now k)) }
{
    for k in 0..used.len() {
        column[k] = asked_column(used[k], asked[k]);
    }
}

// Writes the flag of each leaf.
fn write_flags(asked: &[u64], all: &mut [u8])
    requires room { length all.old ≡ length asked.now }
    ensures long { length all.new ≡ length all.old }
    ensures each { EachIndex asked.now
        (λ k. slice_index all.new k ≡ all_flag (slice_index asked.now k)) }
{
    for k in 0..asked.len() {
        all[k] = all_flag(asked[k]);
    }
}

// Writes the slices that each leaf was not served.
fn write_unserved(planned: &[u64], used: &[u64], hungry: &[u8], lacks: &mut [u64])
    requires planned { length planned.now ≡ length used.now }
    requires hungry { length hungry.now ≡ length used.now }
    requires room { length lacks.old ≡ length used.now }
    ensures long { length lacks.new ≡ length lacks.old }
    ensures each { EachIndex used.now (λ k. slice_index lacks.new k ≡ unserved
        (slice_index planned.now k) (slice_index used.now k) (slice_index hungry.now k)) }
{
    for k in 0..used.len() {
        lacks[k] = unserved(planned[k], used[k], hungry[k]);
    }
}

/// Writes what a round asks for each leaf, and what each was not served in the last one.
///
/// A reading says the slices that a leaf used and those that it asks for. A flag other than 0 in
/// `hungry` says that it would have used more. `planned` has the slices of the plan that stood.
pub fn write_round(
    planned: &[u64],
    used: &[u64],
    asked: &[u64],
    hungry: &[u8],
    column: &mut [u64],
    all: &mut [u8],
    lacks: &mut [u64],
)
    requires planned { length planned.now ≡ length used.now }
    requires asked { length asked.now ≡ length used.now }
    requires hungry { length hungry.now ≡ length used.now }
    requires column { length column.old ≡ length used.now }
    requires all { length all.old ≡ length used.now }
    requires lacks { length lacks.old ≡ length used.now }
    ensures { AreRoundColumns planned.now used.now asked.now hungry.now column.new all.new
        lacks.new }
{
    write_asked(used, asked, column);
    write_flags(asked, all);
    write_unserved(planned, used, hungry, lacks);
}
