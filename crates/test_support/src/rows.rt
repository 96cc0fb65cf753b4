//! Reads the rows, and tries each.
use crate::fault::RowFault;
use std::alloc::Global;
use std::io::{BufRead, BufReader};

/// What answers the questions of rows, one after the other.
pub trait Answers {
    /// The answer to a question.
    fn answer(&mut self, alloc: Global, question: &str) -> Result<Vec<u8>, RowFault>;
}

/// Whether a line is a row.
fn is_row(line: &str) -> bool {
    !line.is_empty() && !line.starts_with('#')
}

/// Whether the row has the answer that it wants; a row that has another one is printed with it.
fn is_answered<A: Answers>(
    rt: &impl Print,
    alloc: Global,
    answers: &mut A,
    row: &str,
) -> Result<bool, RowFault> {
    let Some((question, wanted)) = row.split_once(" => ") else {
        return Err(RowFault::Form);
    };
    let answer = answers.answer(alloc, question)?;
    if answer.as_slice() == wanted.as_bytes() {
        return Ok(true);
    }
    let text = String::from_utf8_lossy(alloc, &answer)?;
    println!(rt; "{row}, but answered: {text}")?;
    Ok(false)
}

/// Tries each row of standard input, and prints how many there are.
pub fn try_rows<A: Answers>(
    rt: &(impl Input + Print + AllocGlobal),
    answers: &mut A,
) -> Result<(), RowFault> {
    let alloc = rt.alloc();
    let mut rows = 0_u64;
    let mut others = 0_u64;
    for line in BufReader::new(alloc, rt.reader())?.lines(alloc) {
        let line = line?;
        if is_row(&line) {
            rows = rows.saturating_add(1);
            if !is_answered(rt, alloc, answers, &line)? {
                others = others.saturating_add(1);
            }
        }
    }
    if others != 0 {
        return Err(RowFault::Differ(others));
    }
    println!(rt; "{rows} rows are answered as wanted")?;
    Ok(())
}
