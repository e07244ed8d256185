//! All small instances: the check accepts the certificate of the plan, and refuses all other
//! amounts with any certificate.
//!
//! The plan is compared with one found by trying all amounts. All flags are tried. Levels are tried
//! at groups with children alone, since no other level is read. These are none, and each mark of an
//! odd numerator up to twice the capacity less 1, of a weight that occurs, and of a child's place.
//! Among them is the greatest last mark of any amounts. If a higher level is accepted, so is the
//! greatest last mark: it is above the same last marks, and below the same next marks.
//!
//! Amounts above a limit or a demand, or that are not the sums of the children's, are tried with
//! all flags and with the levels of the plan alone.
//!
//! Built natively these tests take about a minute of one processor. The build of `rt try` checks
//! each step, takes some hundred times as long, and ends in time for one and two rows alone.

use bw_cert::certify;
use bw_check::{Verdict, check};
use bw_machine::Count;
use bw_model::{Certificate, HostShape, Instance, InstanceFault, Mark, Row};
use bw_plan::plan;
use std::alloc::{AllocError, Global};
use std::process::Abort;
use std::test::Fail;

/// The instances and amounts that are tried.
///
/// Each row below the root has any parent before it, a weight from 1, a demand up to the capacity,
/// and no limit or one up to the capacity. Each row's amount is at most the greatest.
#[derive(Clone, Copy)]
struct Size {
    rows: u32,
    capacity: u64,
    weights: u64,
    greatest: u64,
}

// The last digit of a number in a base, which is cut off.
fn cut(number: &mut u64, base: u64) -> u64 {
    let base = base.max(1);
    let digit = *number % base;
    *number /= base;
    digit
}

// The number of rows that may stand behind `before` rows.
fn choices_after(size: Size, before: u32) -> u64 {
    let demands = size.capacity.saturating_add(1);
    let limits = size.capacity.saturating_add(2);
    let settings = size.weights.saturating_mul(demands).saturating_mul(limits);
    settings.saturating_mul(u64::from(before))
}

// The number of instances, those with a demand of a group with children counted in.
fn instances(size: Size) -> u64 {
    let mut count = 1u64;
    for before in 1..size.rows {
        count = count.saturating_mul(choices_after(size, before));
    }
    count
}

// The rows of one instance.
fn rows_of(alloc: Global, size: Size, index: u64) -> Result<Vec<Row>, AllocError> {
    let mut rows = Vec::new(alloc);
    let root = Row {
        parent: None,
        weight: 1,
        limit: None,
        demand: 0,
    };
    rows.push(root)?;
    let mut rest = index;
    for before in 1..size.rows {
        let row = Row {
            parent: u32::try_from(cut(&mut rest, u64::from(before))).ok(),
            weight: cut(&mut rest, size.weights).saturating_add(1),
            limit: cut(&mut rest, size.capacity.saturating_add(2)).checked_sub(1),
            demand: cut(&mut rest, size.capacity.saturating_add(1)),
        };
        rows.push(row)?;
    }
    Ok(rows)
}

fn sum_of_children(rows: &[Row], amounts: &[u64], g: u32) -> u64 {
    let mut sum = 0u64;
    for (row, amount) in rows.iter().zip(amounts.iter()) {
        if row.parent == Some(g) {
            sum = sum.saturating_add(*amount);
        }
    }
    sum
}

// The sum of the squares over the weights of the children, 1 to 3, times 6.
fn cost(rows: &[Row], amounts: &[u64], g: u32) -> u64 {
    let mut cost = 0u64;
    for (row, amount) in rows.iter().zip(amounts.iter()) {
        if row.parent == Some(g) {
            let square = amount.saturating_mul(*amount);
            cost = cost.saturating_add(square.saturating_mul(6 / row.weight.max(1)));
        }
    }
    cost
}

fn is_within(rows: &[Row], amounts: &[u64], capacity: u64) -> bool {
    let mut g = 0u32;
    for (row, amount) in rows.iter().zip(amounts.iter()) {
        let limit = if g == 0 { Some(capacity) } else { row.limit };
        if let Some(limit) = limit {
            if *amount > limit {
                return false;
            }
        }
        if rows.iter().any(|r| r.parent == Some(g)) {
            if *amount != sum_of_children(rows, amounts, g) {
                return false;
            }
        } else if *amount > row.demand {
            return false;
        }
        g = g.saturating_add(1);
    }
    true
}

// Whether the first amounts split better at a group than others that give the group as much.
fn is_better(rows: &[Row], amounts: &[u64], others: &[u64], g: u32) -> bool {
    let mine = cost(rows, amounts, g);
    let theirs = cost(rows, others, g);
    if mine != theirs {
        return mine < theirs;
    }
    for ((row, amount), other) in rows.iter().zip(amounts.iter()).zip(others.iter()) {
        if row.parent == Some(g) && amount != other {
            return amount > other;
        }
    }
    false
}

// Whether the amounts have the greatest total of all within, and the best split at each group.
fn is_plan(rows: &[Row], within: &[Vec<u64>], amounts: &[u64]) -> bool {
    for others in within {
        let mut g = 0u32;
        for (mine, theirs) in amounts.iter().zip(others.iter()) {
            let is_less = g == 0 && mine < theirs;
            if is_less || mine == theirs && is_better(rows, others.as_slice(), amounts, g) {
                return false;
            }
            g = g.saturating_add(1);
        }
    }
    true
}

// The levels that are tried at a group with so many children.
fn levels_of(alloc: Global, size: Size, children: u32) -> Result<Vec<Option<Mark>>, AllocError> {
    let mut levels: Vec<Option<Mark>> = Vec::new(alloc);
    levels.push(None)?;
    if children > 0 {
        for half in 0..size.capacity {
            for den in 1..=size.weights {
                for place in 0..children {
                    let num = half.saturating_mul(2).saturating_add(1);
                    levels.push(Mark::new(num, den, place))?;
                }
            }
        }
    }
    Ok(levels)
}

// The flags that a number stands for.
fn write_flags(certificate: &mut Certificate, number: u64) {
    let mut rest = number;
    for flag in certificate.tight.iter_mut() {
        *flag = cut(&mut rest, 2) == 1;
    }
}

// The levels that a number stands for.
fn write_levels(certificate: &mut Certificate, levels: &[Vec<Option<Mark>>], number: u64) {
    let mut rest = number;
    for (level, choices) in certificate.levels.iter_mut().zip(levels.iter()) {
        let digit = cut(&mut rest, choices.len() as u64);
        *level = match choices.get(digit as usize) {
            None => None,
            Some(choice) => *choice,
        };
    }
}

// Whether the amounts are refused with all flags, at the levels as they are.
fn is_refused(
    alloc: Global,
    instance: &Instance,
    amounts: &[u64],
    certificate: &mut Certificate,
) -> Result<bool, AllocError> {
    for flags in 0..2u64.saturating_pow(instance.group_count()) {
        write_flags(certificate, flags);
        if check(alloc, instance, amounts, certificate, &mut Count::none())? == Verdict::Accepted {
            return Ok(false);
        }
    }
    Ok(true)
}

// Whether the amounts are refused with all flags and all levels.
fn is_refused_at_all(
    alloc: Global,
    instance: &Instance,
    amounts: &[u64],
    certificate: &mut Certificate,
    levels: &[Vec<Option<Mark>>],
) -> Result<bool, AllocError> {
    let mut count = 1u64;
    for choices in levels {
        count = count.saturating_mul(choices.len() as u64);
    }
    for number in 0..count {
        write_levels(certificate, levels, number);
        if !is_refused(alloc, instance, amounts, certificate)? {
            return Ok(false);
        }
    }
    Ok(true)
}

// All lists of amounts of an instance up to the greatest.
fn lists_of(alloc: Global, size: Size) -> Result<Vec<Vec<u64>>, AllocError> {
    let base = size.greatest.saturating_add(1);
    let mut lists: Vec<Vec<u64>> = Vec::new(alloc);
    for number in 0..base.saturating_pow(size.rows) {
        let mut rest = number;
        let mut list = Vec::new(alloc);
        for _ in 0..size.rows {
            list.push(cut(&mut rest, base))?;
        }
        lists.push(list)?;
    }
    Ok(lists)
}

// The lists that keep limits, demands and sums.
fn within_of(
    alloc: Global,
    size: Size,
    rows: &[Row],
    lists: &[Vec<u64>],
) -> Result<Vec<Vec<u64>>, AllocError> {
    let mut within: Vec<Vec<u64>> = Vec::new(alloc);
    for list in lists {
        if is_within(rows, list.as_slice(), size.capacity) {
            within.push(list.clone()?)?;
        }
    }
    Ok(within)
}

fn all_levels(
    alloc: Global,
    size: Size,
    instance: &Instance,
) -> Result<Vec<Vec<Option<Mark>>>, AllocError> {
    let mut levels: Vec<Vec<Option<Mark>>> = Vec::new(alloc);
    for g in 0..instance.group_count() {
        let children = u32::try_from(instance.children(g).len()).unwrap_or(0);
        levels.push(levels_of(alloc, size, children)?)?;
    }
    Ok(levels)
}

// Whether the plan alone is accepted.
fn is_exact(
    alloc: Global,
    size: Size,
    instance: &Instance,
    lists: &[Vec<u64>],
) -> Result<bool, AllocError> {
    let planned = plan(alloc, instance)?;
    let amounts = planned.amounts.as_slice();
    let mut certificate = certify(alloc, instance, &planned)?;
    if check(alloc, instance, amounts, &certificate, &mut Count::none())? != Verdict::Accepted {
        return Ok(false);
    }
    let within = within_of(alloc, size, instance.rows(), lists)?;
    if !is_within(instance.rows(), amounts, size.capacity) {
        return Ok(false);
    }
    if !is_plan(instance.rows(), within.as_slice(), amounts) {
        return Ok(false);
    }
    for list in lists {
        if !is_within(instance.rows(), list.as_slice(), size.capacity) {
            if !is_refused(alloc, instance, list.as_slice(), &mut certificate)? {
                return Ok(false);
            }
        }
    }
    let levels = all_levels(alloc, size, instance)?;
    for list in &within {
        if list.as_slice() != amounts {
            if !is_refused_at_all(
                alloc,
                instance,
                list.as_slice(),
                &mut certificate,
                levels.as_slice(),
            )? {
                return Ok(false);
            }
        }
    }
    Ok(true)
}

// Whether the plan alone is accepted for the instance of this number, if it is one.
fn is_exact_at(
    alloc: Global,
    size: Size,
    shape: HostShape,
    lists: &[Vec<u64>],
    index: u64,
) -> Result<bool, InstanceFault> {
    match Instance::new(alloc, rows_of(alloc, size, index)?, shape) {
        Ok(instance) => Ok(is_exact(alloc, size, &instance, lists)?),
        Err(InstanceFault::InnerDemand) => Ok(true),
        Err(fault) => Err(fault),
    }
}

// Asserts it of each instance whose number has this rest, with a second run if memory was refused.
fn assert_exact(
    rt: &impl Abort,
    alloc: Global,
    size: Size,
    parts: u64,
    rest: u64,
) -> Result<(), Fail> {
    let shape = HostShape::new(1, size.capacity.saturating_mul(1000), 1000)?;
    let lists = match lists_of(alloc, size) {
        Ok(lists) => lists,
        Err(_) => lists_of(alloc, size)?,
    };
    for index in 0..instances(size) {
        if index % parts.max(1) == rest {
            let exact = match is_exact_at(alloc, size, shape, lists.as_slice(), index) {
                Ok(exact) => exact,
                Err(_) => is_exact_at(alloc, size, shape, lists.as_slice(), index)?,
            };
            assert!(rt; exact, "{index}");
        }
    }
    Ok(())
}

/// One and two rows, with weights 1 to 3, demands and limits up to 3, and amounts up to 4.
#[test]
fn one_row_and_two(rt: HostRuntime) -> Result<(), Fail> {
    for rows in 1..3u32 {
        let size = Size {
            rows,
            capacity: 3,
            weights: 3,
            greatest: 4,
        };
        assert_exact(&rt, rt.alloc(), size, 1, 0)?;
    }
    Ok(())
}

/// Three rows, with weights 1 to 3, demands and limits up to 3, and amounts up to 4.
#[test]
fn three_rows(rt: HostRuntime) -> Result<(), Fail> {
    let size = Size {
        rows: 3,
        capacity: 3,
        weights: 3,
        greatest: 4,
    };
    assert_exact(&rt, rt.alloc(), size, 1, 0)
}

/// Four rows, with weights 1 and 2, demands and limits up to 2, and amounts up to 3. They are tried
/// in four parts, since together they take long.
const FOUR_ROWS: Size = Size {
    rows: 4,
    capacity: 2,
    weights: 2,
    greatest: 3,
};

#[test]
fn four_rows_first_part(rt: HostRuntime) -> Result<(), Fail> {
    assert_exact(&rt, rt.alloc(), FOUR_ROWS, 4, 0)
}

#[test]
fn four_rows_second_part(rt: HostRuntime) -> Result<(), Fail> {
    assert_exact(&rt, rt.alloc(), FOUR_ROWS, 4, 1)
}

#[test]
fn four_rows_third_part(rt: HostRuntime) -> Result<(), Fail> {
    assert_exact(&rt, rt.alloc(), FOUR_ROWS, 4, 2)
}

#[test]
fn four_rows_fourth_part(rt: HostRuntime) -> Result<(), Fail> {
    assert_exact(&rt, rt.alloc(), FOUR_ROWS, 4, 3)
}
