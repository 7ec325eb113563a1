//! What the lines of a case say beside its files: the words, and the calls that fail.

use crate::fault::CaseFault;
use crate::narrow::NarrowSink;
use std::alloc::Global;
use wp_model::Memory;

/// How each line of a case begins, where it isn't empty.
const BEGINNINGS: [&str; 24] = [
    "#",
    "words ",
    "file ",
    "bytes ",
    "rows ",
    "failing read ",
    "failing write ",
    "each write fails in turn",
    "one byte a write",
    "by itself",
    "desks meet",
    "workers meet",
    "passes are counted",
    "runs ",
    "audit ",
    "certificates",
    "output ",
    "store before ",
    "store after ",
    "store fails ",
    "store stops ",
    "store goes on",
    "next ",
    "drawn ",
];

fn is_known(line: &str) -> bool {
    line.is_empty()
        || BEGINNINGS
            .iter()
            .any(|beginning| line.starts_with(*beginning))
}

/// Tells a line that no case may have.
pub fn test_lines(lines: &str) -> Result<(), CaseFault> {
    if lines.lines().all(|line| is_known(line)) {
        Ok(())
    } else {
        Err(CaseFault::Line)
    }
}

fn add_words(words: &mut Vec<String>, alloc: Global, more: &str) -> Result<(), Memory> {
    for word in more.split(' ') {
        words.push(String::from_str(alloc, word)?)?;
    }
    Ok(())
}

/// The words of the lines that begin so, behind that.
pub fn words_in(alloc: Global, lines: &str, beginning: &str) -> Result<Vec<String>, Memory> {
    let mut words = Vec::new(alloc);
    for line in lines.lines() {
        if let Some(more) = line.strip_prefix(beginning) {
            add_words(&mut words, alloc, more)?;
        }
    }
    Ok(words)
}

/// The words of the command line.
pub fn words_of(alloc: Global, lines: &str) -> Result<Vec<String>, Memory> {
    words_in(alloc, lines, "words ")
}

fn add_number(numbers: &mut Vec<u64>, digits: &str) -> Result<(), CaseFault> {
    let Ok(number) = digits.parse::<u64>() else {
        return Err(CaseFault::Line);
    };
    if numbers.push(number).is_err() {
        return Err(CaseFault::Memory);
    }
    Ok(())
}

/// The numbers of the calls that fail, each in a line that begins so.
pub fn failing(alloc: Global, lines: &str, beginning: &str) -> Result<Vec<u64>, CaseFault> {
    let mut numbers = Vec::new(alloc);
    for line in lines.lines() {
        if let Some(digits) = line.strip_prefix(beginning) {
            add_number(&mut numbers, digits)?;
        }
    }
    Ok(numbers)
}

/// Whether one of the lines is this.
pub fn has_line(lines: &str, wanted: &str) -> bool {
    lines.lines().any(|line| line == wanted)
}

/// The sink of a case, whose write of this number fails too, where there is one.
pub fn sink_of(alloc: Global, lines: &str, number: Option<u64>) -> Result<NarrowSink, CaseFault> {
    let mut fails = failing(alloc, lines, "failing write ")?;
    if let Some(number) = number {
        add_fail(&mut fails, number)?;
    }
    Ok(NarrowSink::of(alloc, fails, has_line(lines, "one byte a write")))
}

fn add_fail(fails: &mut Vec<u64>, number: u64) -> Result<(), Memory> {
    fails.push(number)?;
    Ok(())
}

/// What stands in the first line that begins so, behind that.
pub fn rest_of<'a>(lines: &'a str, beginning: &str) -> Option<&'a str> {
    for line in lines.lines() {
        if let Some(rest) = line.strip_prefix(beginning) {
            return Some(rest);
        }
    }
    None
}

/// The number in the first line that begins so, where there is such a line.
pub fn number_in(lines: &str, beginning: &str) -> Result<Option<u64>, CaseFault> {
    match rest_of(lines, beginning) {
        None => Ok(None),
        Some(digits) => match digits.parse::<u64>() {
            Ok(number) => Ok(Some(number)),
            Err(_) => Err(CaseFault::Line),
        },
    }
}

/// A line of a word and a text.
pub fn line_of(alloc: Global, word: &str, text: &str) -> Result<String, Memory> {
    let line = format!(in alloc; "{word} {text}\n")?;
    Ok(line)
}
