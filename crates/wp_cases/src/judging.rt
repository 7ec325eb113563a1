//! The judges of an output: the program's own audit and check, and files of outputs that are right.

use crate::fault::CaseFault;
use crate::given::files_with;
use crate::lines::{rest_of, words_of};
use std::alloc::Global;
use wp_model::Memory;
use wp_outside::{Files, MemFiles, MemSink, Sink};
use wp_top::{run_audit, run_check};
use wp_words::{Job, read_words};

/// The words of the audit of an output.
const AUDIT: &str =
    "words audit --layout layout.json --stock stock.csv --orders orders.csv --journal output.txt";

/// The files that it reads besides the output.
const AUDITED: &[&str] = &["layout.json", "stock.csv", "orders.csv"];

/// The words of the check of a sheet's certificate.
const CHECK: &str = "words check --layout layout.json --certificate sheet.json";

/// The file that it reads besides the certificate.
const CHECKED: &[&str] = &["layout.json"];

/// The status of a check or an audit that is asked for by itself.
pub fn own_status<F: Files, K: Sink>(
    alloc: Global,
    words: &Vec<String>,
    files: &mut F,
    out: &mut K,
) -> Result<u8, CaseFault> {
    match read_words(alloc, words) {
        Ok(Job::Check(words)) => Ok(run_check(alloc, &words, files, out)),
        Ok(Job::Audit(words)) => Ok(run_audit(alloc, &words, files, out)),
        _ => Err(CaseFault::Line),
    }
}

/// Whether a check or an audit ends well and writes this text.
fn writes<F: Files>(
    alloc: Global,
    line: &str,
    files: &mut F,
    text: &str,
) -> Result<bool, CaseFault> {
    let words = words_of(alloc, line)?;
    let mut out = MemSink::of(alloc, Vec::new(alloc));
    let status = own_status(alloc, &words, files, &mut out)?;
    Ok(status == 0 && out.taken() == text.as_bytes())
}

/// The units that words give, where they give any.
fn units_in<'a>(words: &'a str) -> Option<&'a str> {
    let mut is_next = false;
    for word in words.split(' ') {
        if is_next {
            return Some(word);
        }
        is_next = word == "--units";
    }
    None
}

/// The words of the audit of an output, with the units that the words of the case give.
pub fn audit_words(alloc: Global, lines: &str) -> Result<String, Memory> {
    let words = match rest_of(lines, "words ").and_then(units_in) {
        Some(units) => format!(in alloc; "{AUDIT} --units {units}")?,
        None => String::from_str(alloc, AUDIT)?,
    };
    Ok(words)
}

/// Whether an audit of an output by these words writes this text, over the files of a case.
pub fn audit_writes(
    alloc: Global,
    words: &str,
    files: &mut MemFiles,
    output: &str,
    text: &str,
) -> Result<bool, CaseFault> {
    let mut files = files_with(alloc, files, AUDITED, ("output.txt", output))?;
    writes(alloc, words, &mut files, text)
}

/// Whether a check of a certificate writes this text, over the layout of a case.
pub fn check_writes(
    alloc: Global,
    files: &mut MemFiles,
    certificate: &str,
    text: &str,
) -> Result<bool, CaseFault> {
    let mut files = files_with(alloc, files, CHECKED, ("sheet.json", certificate))?;
    writes(alloc, CHECK, &mut files, text)
}

/// Whether a text is that of one of the files that lines `output` name, where there are any.
pub fn is_among(
    alloc: Global,
    lines: &str,
    files: &mut MemFiles,
    text: &str,
) -> Result<bool, CaseFault> {
    let mut is_any_named = false;
    for line in lines.lines() {
        if let Some(name) = line.strip_prefix("output ") {
            is_any_named = true;
            if is_text_of(alloc, files, name, text)? {
                return Ok(true);
            }
        }
    }
    Ok(!is_any_named)
}

fn is_text_of(
    alloc: Global,
    files: &mut MemFiles,
    name: &str,
    text: &str,
) -> Result<bool, CaseFault> {
    let bytes = files.read(alloc, name)?;
    Ok(bytes.as_slice() == text.as_bytes())
}
