//! Lists of goals as rows write them: `-` is the empty list, `4`, `1,3` and `2..9`, from 2 to 9, are others.

use crate::rows::RowFault;
use std::alloc::Global;

/// How many goals are written one by one.
const SHOWN: usize = 12;

/// A number.
pub(crate) fn number(word: &str) -> Result<u32, RowFault> {
    match word.parse::<u32>() {
        Ok(number) => Ok(number),
        Err(_) => Err(RowFault::Malformed),
    }
}

/// The numbers from one to another.
fn put_range(goals: &mut Vec<u32>, first: u32, last: u32) -> Result<(), RowFault> {
    for goal in first..last {
        goals.push(goal)?;
    }
    goals.push(last)?;
    Ok(())
}

/// The numbers of a part of a list.
fn put_part(goals: &mut Vec<u32>, part: &str) -> Result<(), RowFault> {
    match part.split_once("..") {
        Some((first, last)) => put_range(goals, number(first)?, number(last)?),
        None => {
            goals.push(number(part)?)?;
            Ok(())
        }
    }
}

/// A list.
pub(crate) fn goals_of(alloc: Global, word: &str) -> Result<Vec<u32>, RowFault> {
    let mut goals = Vec::new(alloc);
    if word == "-" {
        return Ok(goals);
    }
    for part in word.split(',') {
        put_part(&mut goals, part)?;
    }
    Ok(goals)
}

/// Writes goals one by one.
fn write_each(alloc: Global, goals: &[u32], out: &mut String) -> Result<(), RowFault> {
    for goal in goals {
        let text = format!(in alloc; " {goal}")?;
        out.push_str(&text)?;
    }
    Ok(())
}

/// Writes a list, or how many goals it has where there are many.
pub(crate) fn write_goals(alloc: Global, goals: &[u32], out: &mut String) -> Result<(), RowFault> {
    let many = goals.len();
    if many <= SHOWN {
        return write_each(alloc, goals, out);
    }
    let text = format!(in alloc; " {many} goals from {} to {}", goals[0], goals[many - 1])?;
    out.push_str(&text)?;
    Ok(())
}
