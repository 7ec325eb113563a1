//! The sheets of an output, and whether their certificates show their bounds.

use crate::fault::CaseFault;
use crate::judging::check_writes;
use crate::lines::line_of;
use std::alloc::Global;
use wp_outside::MemFiles;

fn lines_that_end(text: &str, end: &str) -> usize {
    text.lines().filter(|line| line.ends_with(end)).count()
}

fn lines_that_begin(text: &str, beginning: &str) -> usize {
    text.lines()
        .filter(|line| line.starts_with(beginning))
        .count()
}

/// The bound in the first line of a sheet: the word after `bound`.
fn bound_in(sheet: &str) -> &str {
    match sheet.split_once(" bound ") {
        Some((_, rest)) => rest.split(' ').next().unwrap_or(""),
        None => "",
    }
}

/// The certificate of a sheet.
fn certificate_in(sheet: &str) -> &str {
    match sheet.split_once("\ncertificate ") {
        Some((_, rest)) => rest.lines().next().unwrap_or(""),
        None => "",
    }
}

/// Whether the certificate of a sheet shows its bound.
fn shows_bound(alloc: Global, files: &mut MemFiles, sheet: &str) -> Result<bool, CaseFault> {
    let text = line_of(alloc, "bound", bound_in(sheet))?;
    check_writes(alloc, files, certificate_in(sheet), text.as_str())
}

fn all_show_bounds(alloc: Global, files: &mut MemFiles, output: &str) -> Result<bool, CaseFault> {
    let mut sheets = output.split("\nwave ");
    let _journal = sheets.next();
    for sheet in sheets {
        if !shows_bound(alloc, files, sheet)? {
            return Ok(false);
        }
    }
    Ok(true)
}

/// Whether some wave went out, each that did has a sheet, and the certificate of each sheet shows its bound.
pub fn is_certified(alloc: Global, files: &mut MemFiles, output: &str) -> Result<bool, CaseFault> {
    let released = lines_that_end(output, " -> released");
    let sheets = lines_that_begin(output, "wave ");
    Ok(released > 0 && sheets == released && all_show_bounds(alloc, files, output)?)
}
