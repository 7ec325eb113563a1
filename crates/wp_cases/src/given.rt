//! The files of a case.
ghost use Rattle.std.specs.Prelude.{◌≡◌, ◌+◌, length, vec_len, IfOk};

use crate::fault::CaseFault;
use crate::lines::failing;
use std::alloc::Global;
use wp_model::Memory;
use wp_outside::{Files, MemFiles};

/// The name of a file that a line begins.
fn name_in(line: &str) -> Option<&str> {
    let (kind, rest) = line.split_once(' ')?;
    let (name, _) = rest.split_once(' ')?;
    match kind {
        "file" | "bytes" => Some(name),
        _ => None,
    }
}

fn add_names(names: &mut Vec<String>, alloc: Global, lines: &str) -> Result<(), Memory> {
    for line in lines.lines() {
        if let Some(name) = name_in(line) {
            names.push(String::from_str(alloc, name)?)?;
        }
    }
    Ok(())
}

/// The names of a case's own files, and then of those that every case has.
fn names_of(alloc: Global, own: &str, common: &str) -> Result<Vec<String>, Memory> {
    let mut names = Vec::new(alloc);
    add_names(&mut names, alloc, own)?;
    add_names(&mut names, alloc, common)?;
    Ok(names)
}

fn gives(lines: &str, name: &str) -> bool {
    lines.lines().any(|line| name_in(line) == Some(name))
}

fn add_file<F: Files>(
    bytes: &mut Vec<u8>,
    alloc: Global,
    path: &str,
    source: &mut F,
) -> Result<(), CaseFault> {
    let more = source.read(alloc, path)?;
    extend(bytes, more.as_slice())?;
    Ok(())
}

fn extend(bytes: &mut Vec<u8>, more: &[u8]) -> Result<(), Memory> {
    bytes.extend_from_slice(more)?;
    Ok(())
}

/// So many times the first byte of a text.
fn add_bytes(bytes: &mut Vec<u8>, count: usize, text: &str) -> Result<(), Memory> {
    let byte = text.as_bytes().first().copied().unwrap_or(b' ');
    bytes.resize(bytes.len().saturating_add(count), byte)?;
    Ok(())
}

/// A row for each word, in which `#` stands for the number.
fn add_row(bytes: &mut Vec<u8>, alloc: Global, number: usize, words: &str) -> Result<(), Memory> {
    let digits = format!(in alloc; "{number}")?;
    let rows = words.replace(alloc, "#", digits.as_str())?;
    for row in rows.as_str().split(' ') {
        bytes.extend_from_slice(row.as_bytes())?;
        bytes.push(b'\n')?;
    }
    Ok(())
}

fn add_rows(bytes: &mut Vec<u8>, alloc: Global, count: usize, words: &str) -> Result<(), Memory> {
    for number in 0..count {
        add_row(bytes, alloc, number.saturating_add(1), words)?;
    }
    Ok(())
}

/// What a line makes of a count and a text.
fn add_made(bytes: &mut Vec<u8>, alloc: Global, kind: &str, rest: &str) -> Result<(), CaseFault> {
    let Some((digits, text)) = rest.split_once(' ') else {
        return Err(CaseFault::Line);
    };
    let Ok(count) = digits.parse::<usize>() else {
        return Err(CaseFault::Line);
    };
    match kind {
        "rows" => add_rows(bytes, alloc, count, text)?,
        _ => add_bytes(bytes, count, text)?,
    }
    Ok(())
}

/// What a line says of the file of this name.
fn add_part<F: Files>(
    bytes: &mut Vec<u8>,
    alloc: Global,
    line: &str,
    name: &str,
    source: &mut F,
) -> Result<(), CaseFault> {
    let Some((kind, rest)) = line.split_once(' ') else {
        return Ok(());
    };
    match rest.split_once(' ') {
        Some((known, rest)) if known == name => match kind {
            "file" => add_file(bytes, alloc, rest, source),
            "bytes" | "rows" => add_made(bytes, alloc, kind, rest),
            _ => Ok(()),
        },
        _ => Ok(()),
    }
}

fn content_of<F: Files>(
    alloc: Global,
    lines: &str,
    name: &str,
    source: &mut F,
) -> Result<Vec<u8>, CaseFault> {
    let mut bytes = Vec::new(alloc);
    for line in lines.lines() {
        add_part(&mut bytes, alloc, line, name, source)?;
    }
    Ok(bytes)
}

fn contents_of<F: Files>(
    alloc: Global,
    own: &str,
    common: &str,
    names: &[String],
    source: &mut F,
) -> Result<Vec<Vec<u8>>, CaseFault>
    ensures { IfOk result (λ contents. vec_len contents ≡ length names.now) }
{
    let mut contents = Vec::new(alloc);
    for name in names {
        let name = name.as_str();
        let lines = if gives(own, name) { own } else { common };
        add_content(&mut contents, content_of(alloc, lines, name, source)?)?;
    }
    Ok(contents)
}

fn add_content(contents: &mut Vec<Vec<u8>>, content: Vec<u8>) -> Result<(), Memory>
    ensures { IfOk result (λ _. vec_len contents.new ≡ vec_len contents.old + 1) }
{
    contents.push(content)?;
    Ok(())
}

/// The files of a case: its own, and those that every case has.
pub fn files_of<F: Files>(
    alloc: Global,
    own: &str,
    common: &str,
    source: &mut F,
) -> Result<MemFiles, CaseFault> {
    let names = names_of(alloc, own, common)?;
    let fails = failing(alloc, own, "failing read ")?;
    let contents = contents_of(alloc, own, common, names.as_slice(), source)?;
    Ok(MemFiles::of(names, contents, fails))
}

/// The bytes of a file, where its name isn't that of another text.
fn copy_of<F: Files>(
    alloc: Global,
    files: &mut F,
    name: &str,
    (other, text): (&str, &str),
) -> Result<Vec<u8>, CaseFault> {
    if name == other {
        Ok(bytes_of(alloc, text.as_bytes())?)
    } else {
        Ok(files.read(alloc, name)?)
    }
}

/// A copy of bytes.
pub fn bytes_of(alloc: Global, bytes: &[u8]) -> Result<Vec<u8>, Memory> {
    let copy = bytes.to_vec(alloc)?;
    Ok(copy)
}

fn copies_of<F: Files>(
    alloc: Global,
    files: &mut F,
    names: &[String],
    other: (&str, &str),
) -> Result<Vec<Vec<u8>>, CaseFault>
    ensures { IfOk result (λ contents. vec_len contents ≡ length names.now) }
{
    let mut contents = Vec::new(alloc);
    for name in names {
        add_content(&mut contents, copy_of(alloc, files, name.as_str(), other)?)?;
    }
    Ok(contents)
}

fn names_with(alloc: Global, names: &[&str], other: &str) -> Result<Vec<String>, Memory> {
    let mut all = Vec::new(alloc);
    for name in names {
        all.push(String::from_str(alloc, name)?)?;
    }
    all.push(String::from_str(alloc, other)?)?;
    Ok(all)
}

/// Copies of the files of these names, and another of this name and text.
pub fn files_with<F: Files>(
    alloc: Global,
    files: &mut F,
    names: &[&str],
    other: (&str, &str),
) -> Result<MemFiles, CaseFault> {
    let names = names_with(alloc, names, other.0)?;
    let contents = copies_of(alloc, files, names.as_slice(), other)?;
    Ok(MemFiles::of(names, contents, Vec::new(alloc)))
}

/// The text that bytes are.
pub fn text_of(bytes: Vec<u8>) -> Result<String, CaseFault> {
    match String::from_utf8(bytes) {
        Ok(text) => Ok(text),
        Err(_) => Err(CaseFault::File),
    }
}
