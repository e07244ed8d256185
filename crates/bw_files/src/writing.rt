//! Writes the texts of a group's files.
ghost use Rattle.std.specs.Prelude.{◌≡◌, ◌≤◌, ◌++◌, OnOk};
ghost use Rattle.std.specs.Str.{IsUtf8};
ghost use Rattle.std.specs.Vec.{vec_capacity};
ghost use Rattle.bw_model.specs.Quota.{IsValid};
ghost use Rattle.bw_files.specs.Writing.{weight_text, burst_text, quota_word, max_text, line};
ghost use Rattle.bw_files.specs.Writing.{stat_text};

use bw_model::limits::{MAX_BURST_US, MAX_PERIOD_US, MAX_WEIGHT, MIN_PERIOD_US, MIN_WEIGHT};
use bw_model::{Quota, Stat};
use bw_streams::{put_number, put_number_line};
use std::alloc::AllocError;

/// Appends the text of `cpu.weight` for a weight, 1 to 10000.
///
/// # Errors
///
/// `AllocError` if an allocation fails.
pub fn put_weight(weight: u64, text: &mut Vec<u8>) -> Result<(), AllocError>
    requires { (MIN_WEIGHT ≤ weight) × (weight ≤ MAX_WEIGHT) }
    ensures ok { OnOk result (text.new.items ≡ text.old.items ++ weight_text weight) }
    ensures utf8 { OnOk result (IsUtf8 text.old.items → IsUtf8 text.new.items) }
    ensures room { vec_capacity text.old ≤ vec_capacity text.new }
{
    put_number_line(b"", weight, text)
}

/// Appends the text of `cpu.max.burst` for a burst, 0 to 10^15 microseconds.
///
/// # Errors
///
/// `AllocError` if an allocation fails.
pub fn put_burst(burst: u64, text: &mut Vec<u8>) -> Result<(), AllocError>
    requires { burst ≤ MAX_BURST_US }
    ensures ok { OnOk result (text.new.items ≡ text.old.items ++ burst_text burst) }
    ensures utf8 { OnOk result (IsUtf8 text.old.items → IsUtf8 text.new.items) }
    ensures room { vec_capacity text.old ≤ vec_capacity text.new }
{
    put_number_line(b"", burst, text)
}

/// Appends the text of `cpu.max` for a quota and a period, 1000 to 1000000 microseconds.
///
/// # Errors
///
/// `AllocError` if an allocation fails. The text may then have the quota.
pub fn put_max(quota: Quota, period: u64, text: &mut Vec<u8>) -> Result<(), AllocError>
    requires quota { IsValid quota }
    requires period { (MIN_PERIOD_US ≤ period) × (period ≤ MAX_PERIOD_US) }
    ensures ok { OnOk result (text.new.items ≡ text.old.items ++ max_text quota period) }
    ensures utf8 { OnOk result (IsUtf8 text.old.items → IsUtf8 text.new.items) }
    ensures room { vec_capacity text.old ≤ vec_capacity text.new }
{
    put_quota(quota, text)?;
    put_number_line(b" ", period, text)
}

// Appends a limit in microseconds, or `max`.
fn put_quota(quota: Quota, text: &mut Vec<u8>) -> Result<(), AllocError>
    requires { IsValid quota }
    ensures ok { OnOk result (text.new.items ≡ text.old.items ++ quota_word quota) }
    ensures utf8 { OnOk result (IsUtf8 text.old.items → IsUtf8 text.new.items) }
    ensures room { vec_capacity text.old ≤ vec_capacity text.new }
{
    match quota {
        Quota::Max => text.extend_from_slice(b"max"),
        Quota::Micros(n) => put_number(b"", n, text),
    }
}

// Appends a key and its value.
fn put_line(key: &str, n: u64, text: &mut Vec<u8>) -> Result<(), AllocError>
    ensures ok { OnOk result (text.new.items ≡ text.old.items ++ line key.now n) }
    ensures utf8 { OnOk result (IsUtf8 text.old.items → IsUtf8 text.new.items) }
    ensures room { vec_capacity text.old ≤ vec_capacity text.new }
{
    text.extend_from_slice(key.as_bytes())?;
    put_number_line(b" ", n, text)
}

/// Appends the text of `cpu.stat`, times in microseconds. The root's text has the usage alone.
///
/// # Errors
///
/// `AllocError` if an allocation fails. The text may then have some of the lines.
pub fn put_stat(stat: &Stat, root: bool, text: &mut Vec<u8>) -> Result<(), AllocError>
    ensures ok { OnOk result (text.new.items ≡ text.old.items ++ stat_text stat.now root) }
    ensures utf8 { OnOk result (IsUtf8 text.old.items → IsUtf8 text.new.items) }
    ensures room { vec_capacity text.old ≤ vec_capacity text.new }
{
    put_line("usage_usec", stat.usage_usec, text)?;
    if root {
        return Ok(());
    }
    put_line("nr_periods", stat.nr_periods, text)?;
    put_line("nr_throttled", stat.nr_throttled, text)?;
    put_line("throttled_usec", stat.throttled_usec, text)?;
    put_line("nr_bursts", stat.nr_bursts, text)?;
    put_line("burst_usec", stat.burst_usec, text)?;
    Ok(())
}
