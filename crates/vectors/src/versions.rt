//! Versions, on rows of cases.

use crate::outcome::Outcome;
use crate::rows::{cell, unescaped, without_first, without_last};
use deb_version::{ByOrder, Op, Version, VersionFault, compare, meets};
use std::alloc::{AllocError, Global};
use std::cmp::Ordering;

/// The version that a cell stands for, or the first fault of its text.
fn version(alloc: Global, cell: &str) -> Result<Version, VersionFault> {
    let text = unescaped(alloc, cell)?;
    Version::parse(alloc, text.as_str())
}

/// An order as the rows write it.
fn sign(order: Ordering) -> &'static str {
    match order {
        Ordering::Less => "-1",
        Ordering::Equal => "0",
        Ordering::Greater => "1",
    }
}

/// The fault that a version has, or a dash.
fn fault_of(alloc: Global, version: &Result<Version, VersionFault>) -> Result<String, AllocError> {
    match version {
        Ok(_) => String::from_str(alloc, "-"),
        Err(fault) => format!(in alloc; "{fault:?}"),
    }
}

/// How a version compares to another, as the rows write it; `unlike` if the other compares to it in
/// another way, or if the order of the two by `ByOrder` differs.
fn sign_of(left: &Version, right: &Version) -> &'static str {
    let order = compare(left, right);
    if compare(right, left) == order.reverse() && ByOrder(left).cmp(&ByOrder(right)) == order {
        sign(order)
    } else {
        "unlike"
    }
}

/// The order of the versions in the first cell and the third, or their faults.
fn order_in(alloc: Global, row: &str) -> Result<String, AllocError> {
    let left = version(alloc, cell(row, 0));
    let right = version(alloc, cell(row, 2));
    if let (Ok(left), Ok(right)) = (&left, &right) {
        return String::from_str(alloc, sign_of(left, right));
    }
    let left = fault_of(alloc, &left)?;
    let right = fault_of(alloc, &right)?;
    format!(in alloc; "invalid:{left}/{right}")
}

/// The operator that a cell names.
fn operator(cell: &str) -> Option<Op> {
    match cell {
        "<<" => Some(Op::Earlier),
        "<=" => Some(Op::EarlierOrEqual),
        "=" => Some(Op::Equal),
        ">=" => Some(Op::LaterOrEqual),
        ">>" => Some(Op::Later),
        _ => None,
    }
}

/// Whether the version in the first cell stands to that in the third as the operator in the second
/// says.
fn answer_in(alloc: Global, row: &str) -> Result<String, AllocError> {
    let have = version(alloc, cell(row, 0));
    let want = version(alloc, cell(row, 2));
    match (operator(cell(row, 1)), &have, &want) {
        (Some(op), Ok(have), Ok(want)) => format!(in alloc; "{}", meets(op, have, want)),
        _ => String::from_str(alloc, "refused"),
    }
}

/// The parts of the version in the first cell with tabs between, or its fault; its own text, if
/// that differs.
fn parts_in(alloc: Global, row: &str) -> Result<String, AllocError> {
    let text = unescaped(alloc, cell(row, 0))?;
    match Version::parse(alloc, text.as_str()) {
        Ok(version) if version.text() != text.as_str() => String::from_str(alloc, version.text()),
        Ok(version) => {
            let (epoch, upstream) = (version.epoch(), version.upstream());
            let revision = version.revision().unwrap_or("-");
            format!(in alloc; "ok\t{epoch}\t{upstream}\t{revision}")
        }
        Err(fault) => format!(in alloc; "{fault:?}\t\t\t"),
    }
}

/// What is wanted of a row of this file, and what comes out.
fn answers<'a>(alloc: Global, name: &str, row: &'a str) -> Result<(&'a str, String), AllocError> {
    if name.starts_with("version_ops") {
        Ok((cell(row, 3), answer_in(alloc, row)?))
    } else if name.starts_with("version_parse") {
        Ok((without_last(without_first(row)), parts_in(alloc, row)?))
    } else {
        Ok((cell(row, 1), order_in(alloc, row)?))
    }
}

/// Tries each row of the file of this name after its first line.
pub(crate) fn tried(alloc: Global, name: &str, text: &str) -> Result<Outcome, AllocError> {
    let mut outcome = Outcome::new(alloc);
    for (line, row) in (1..u64::MAX).zip(text.lines()).skip(1) {
        let (wanted, found) = answers(alloc, name, row)?;
        outcome.add(alloc, line, wanted, found.as_str())?;
    }
    Ok(outcome)
}
