//! The names and numbers that words give.
use std::alloc::{AllocError, Global};
use wp_words::{AuditWords, CheckWords, Job, MakeWords, PlanWords, WordsFault, read_words};

/// Words, parted by single spaces.
fn words_of(alloc: Global, line: &str) -> Result<Vec<String>, AllocError> {
    let mut words = Vec::new(alloc);
    for word in line.split(' ') {
        words.push(String::from_str(alloc, word)?)?;
    }
    Ok(words)
}

/// A text, and behind it the units that a cart holds, where they are given.
fn with_units(alloc: Global, text: String, units: Option<u32>) -> Result<String, AllocError> {
    match units {
        None => Ok(text),
        Some(units) => format!(in alloc; "{text}, {units} units"),
    }
}

/// A text, and behind it for how many nodes a search may work, where that is given.
fn with_nodes(alloc: Global, text: String, nodes: Option<u64>) -> Result<String, AllocError> {
    match nodes {
        None => Ok(text),
        Some(nodes) => format!(in alloc; "{text}, {nodes} nodes"),
    }
}

/// A text, and behind it the number of a switch, where it isn't 0.
fn with_switch(alloc: Global, text: String, name: &str, number: u32) -> Result<String, AllocError> {
    match number {
        0 => Ok(text),
        number => format!(in alloc; "{text}, {number} {name}"),
    }
}

fn plan_text(alloc: Global, words: &PlanWords) -> Result<String, AllocError> {
    let PlanWords {
        layout,
        stock,
        orders,
        desks,
        capacity,
        units,
        budget,
        nodes,
        workers,
        rules,
        pickers,
        root,
        store,
    } = words;
    let text = format!(in alloc;
        "plan {layout}, {stock}, {orders}, {desks}, {capacity}, {budget}, {workers}"
    )?;
    let text = with_nodes(alloc, text, *nodes)?;
    let text = with_units(alloc, text, *units)?;
    let text = with_switch(alloc, text, "rules", *rules)?;
    let text = with_switch(alloc, text, "pickers", *pickers)?;
    let text = with_switch(alloc, text, "root", *root)?;
    with_switch(alloc, text, "store", *store)
}

fn check_text(alloc: Global, words: &CheckWords) -> Result<String, AllocError> {
    let CheckWords {
        layout,
        certificate,
    } = words;
    format!(in alloc; "check {layout}, {certificate}")
}

fn audit_text(alloc: Global, words: &AuditWords) -> Result<String, AllocError> {
    let AuditWords {
        layout,
        stock,
        orders,
        journal,
        units,
    } = words;
    let text = format!(in alloc; "audit {layout}, {stock}, {orders}, {journal}")?;
    with_units(alloc, text, *units)
}

fn make_text(alloc: Global, words: &MakeWords) -> Result<String, AllocError> {
    let MakeWords {
        number,
        aisles,
        orders,
        desks,
        wave,
        capacity,
        budget,
        nodes,
        workers,
    } = words;
    let text = format!(in alloc;
        "make {number}, {aisles}, {orders}, {desks}, {wave}, {capacity}, {budget}, {workers}"
    )?;
    with_nodes(alloc, text, *nodes)
}

/// The mode of a job and the names and numbers that it gives, or what the fault is told as.
fn told(alloc: Global, read: &Result<Job, WordsFault>) -> Result<String, AllocError> {
    match read {
        Ok(Job::Plan(words)) => plan_text(alloc, words),
        Ok(Job::Check(words)) => check_text(alloc, words),
        Ok(Job::Audit(words)) => audit_text(alloc, words),
        Ok(Job::Make(words)) => make_text(alloc, words),
        Err(fault) => fault.to_string(alloc),
    }
}

/// Whether a line of words is read so.
fn is_read(alloc: Global, line: &str, said: &str) -> Result<bool, AllocError> {
    let words = words_of(alloc, line)?;
    let text = told(alloc, &read_words(alloc, &words))?;
    Ok(text.as_str() == said)
}

/// Words that ask for a job, and what they are read as.
const JOBS: &[(&str, &str)] = &[
    (
        "plan --layout l --stock s --orders o --desks d --capacity 3",
        "plan l, s, o, d, 3, 2000000, 1",
    ),
    (
        "plan --capacity=3 --layout=l --stock=s --orders=o --desks=d",
        "plan l, s, o, d, 3, 2000000, 1",
    ),
    (
        "plan --layout=l --stock s --orders o --desks d --capacity=3",
        "plan l, s, o, d, 3, 2000000, 1",
    ),
    (
        "plan --capacity 3 --layout l --stock=s --orders o --desks d",
        "plan l, s, o, d, 3, 2000000, 1",
    ),
    (
        "plan --layout l --stock s --orders=o --desks d --capacity 3",
        "plan l, s, o, d, 3, 2000000, 1",
    ),
    (
        "plan --capacity 3 --layout l --stock s --orders o --desks=d",
        "plan l, s, o, d, 3, 2000000, 1",
    ),
    (
        "plan --capacity 3 --desks d --orders o --stock s --layout l",
        "plan l, s, o, d, 3, 2000000, 1",
    ),
    (
        "plan --capacity=3 --stock=s --desks d --layout=l --orders o",
        "plan l, s, o, d, 3, 2000000, 1",
    ),
    (
        "plan --capacity 3 --layout a --stock a --orders a --desks a",
        "plan a, a, a, a, 3, 2000000, 1",
    ),
    (
        "plan --capacity 3 --layout plan --stock audit --orders layout --desks stock",
        "plan plan, audit, layout, stock, 3, 2000000, 1",
    ),
    (
        "plan --capacity=3 --layout=--stock --stock=-s --orders=o=d --desks=--",
        "plan --stock, -s, o=d, --, 3, 2000000, 1",
    ),
    (
        "plan --capacity=3 --layout= --stock=s --orders= --desks=d",
        "plan , s, , d, 3, 2000000, 1",
    ),
    (
        "plan --capacity 3 --layout a/b.json --stock ../s.csv --orders /o --desks größe.csv",
        "plan a/b.json, ../s.csv, /o, größe.csv, 3, 2000000, 1",
    ),
    ("check --layout l --certificate c", "check l, c"),
    ("check --layout=l --certificate=c", "check l, c"),
    ("check --layout l --certificate=c", "check l, c"),
    ("check --layout=l --certificate c", "check l, c"),
    ("check --certificate c --layout l", "check l, c"),
    ("check --certificate=c --layout=l", "check l, c"),
    ("check --layout a --certificate a", "check a, a"),
    (
        "check --layout check --certificate layout",
        "check check, layout",
    ),
    ("check --certificate=--layout --layout=", "check , --layout"),
    (
        "audit --layout l --stock s --orders o --journal j",
        "audit l, s, o, j",
    ),
    (
        "audit --layout=l --stock=s --orders=o --journal=j",
        "audit l, s, o, j",
    ),
    (
        "audit --layout l --stock s --orders o --journal=j",
        "audit l, s, o, j",
    ),
    (
        "audit --journal j --orders=o --layout l --stock=s",
        "audit l, s, o, j",
    ),
    (
        "audit --layout l --stock s --orders o --journal j --units 1",
        "audit l, s, o, j, 1 units",
    ),
    (
        "audit --units=40000000 --journal j --orders=o --layout l --stock=s",
        "audit l, s, o, j, 40000000 units",
    ),
    (
        "audit --layout l --units +05 --stock s --orders o --journal=--units",
        "audit l, s, o, --units, 5 units",
    ),
    (
        "make --number 1 --aisles 60 --orders 200 --desks 4 --wave 20 --capacity 3 --budget 120000 --workers 16",
        "make 1, 60, 200, 4, 20, 3, 120000, 16",
    ),
    (
        "make --number 1 --aisles 60 --orders 200 --desks 4 --nodes 16 --wave 20 --capacity 3",
        "make 1, 60, 200, 4, 20, 3, 2000000, 1, 16 nodes",
    ),
    (
        "make --number=18446744073709551615 --aisles=64 --orders=10000 --desks=8 --wave=64 --capacity=8",
        "make 18446744073709551615, 64, 10000, 8, 64, 8, 2000000, 1",
    ),
    (
        "make --wave 1 --number 0 --desks 1 --capacity 1 --orders 1 --aisles 1",
        "make 0, 1, 1, 1, 1, 1, 2000000, 1",
    ),
    (
        "make --number 2 --aisles 3 --orders 10000 --desks 5 --wave 20 --capacity 7",
        "make 2, 3, 10000, 5, 20, 7, 2000000, 1",
    ),
    (
        "make --number 2 --aisles 3 --orders 500 --desks 5 --wave 1 --capacity 7",
        "make 2, 3, 500, 5, 1, 7, 2000000, 1",
    ),
    (
        "make --number 2 --aisles 3 --orders 4500 --desks 5 --wave 9 --capacity 7",
        "make 2, 3, 4500, 5, 9, 7, 2000000, 1",
    ),
];

/// The first line that is read otherwise.
fn misread_job(alloc: Global) -> Result<Option<&'static str>, AllocError> {
    for (line, said) in JOBS {
        if !is_read(alloc, line, said)? {
            return Ok(Some(*line));
        }
    }
    Ok(None)
}

#[test]
fn jobs_are_read(rt: HostRuntime) {
    assert_eq!(rt; misread_job(rt.alloc()), Ok(None));
}

/// The words of a plan but for its numbers.
const FILES: &str = "plan --layout l --stock s --orders o --desks d";

/// Numbers of a plan, and the capacity, the budget, the workers, the units and the switches that they are read as.
const NUMBERS: &[(&str, &str)] = &[
    (" --capacity 1", "1, 2000000, 1"),
    (" --capacity 8", "8, 2000000, 1"),
    (" --capacity=3", "3, 2000000, 1"),
    (" --capacity +3", "3, 2000000, 1"),
    (" --capacity 03", "3, 2000000, 1"),
    (" --capacity=+0000000000000000000000003", "3, 2000000, 1"),
    (" --capacity 2 --budget 0", "2, 0, 1"),
    (" --capacity 2 --budget +007", "2, 7, 1"),
    (" --budget=2000001 --capacity 2", "2, 2000001, 1"),
    (
        " --capacity 2 --budget 1000000000000000000",
        "2, 1000000000000000000, 1",
    ),
    (" --capacity 2 --nodes 1", "2, 2000000, 1, 1 nodes"),
    (
        " --nodes=1000000000 --capacity 2",
        "2, 2000000, 1, 1000000000 nodes",
    ),
    (
        " --capacity 2 --workers 4 --units 7 --nodes=+0000000000000000000000016",
        "2, 2000000, 4, 16 nodes, 7 units",
    ),
    (" --capacity 2 --workers 1", "2, 2000000, 1"),
    (" --workers 16 --capacity 2", "2, 2000000, 16"),
    (" --capacity 2 --workers=+02", "2, 2000000, 2"),
    (" --workers=4 --budget=5 --capacity=6", "6, 5, 4"),
    (" --capacity 6 --budget 5 --workers 4 --", "6, 5, 4"),
    (" --capacity 2 --units 1", "2, 2000000, 1, 1 units"),
    (
        " --units=40000000 --capacity 2",
        "2, 2000000, 1, 40000000 units",
    ),
    (
        " --capacity 2 --units +0000000000000000000000012",
        "2, 2000000, 1, 12 units",
    ),
    (
        " --workers=4 --units=7 --budget=5 --capacity=6",
        "6, 5, 4, 7 units",
    ),
    (" --capacity 2 --rules 0", "2, 2000000, 1"),
    (" --capacity 2 --rules 1", "2, 2000000, 1, 1 rules"),
    (" --rules=-0 --capacity 2", "2, 2000000, 1"),
    (" --pickers=0 --capacity 2", "2, 2000000, 1"),
    (" --capacity 2 --pickers 1", "2, 2000000, 1, 1 pickers"),
    (" --pickers=100 --capacity 2", "2, 2000000, 1, 100 pickers"),
    (
        " --rules 1 --pickers 0 --capacity 2",
        "2, 2000000, 1, 1 rules",
    ),
    (
        " --capacity 2 --pickers +02 --rules=+0000000000000000000000001",
        "2, 2000000, 1, 1 rules, 2 pickers",
    ),
    (
        " --pickers=8 --workers=4 --rules=1 --units=7 --budget=5 --capacity=6",
        "6, 5, 4, 7 units, 1 rules, 8 pickers",
    ),
    (" --capacity 2 --root 0", "2, 2000000, 1"),
    (" --root=1 --capacity 2", "2, 2000000, 1, 1 root"),
    (" --capacity 2 --root=-0", "2, 2000000, 1"),
    (
        " --root +01 --pickers=3 --capacity 2 --rules 1",
        "2, 2000000, 1, 1 rules, 3 pickers, 1 root",
    ),
    (" --capacity 2 --store 0", "2, 2000000, 1"),
    (" --store=1 --capacity 2", "2, 2000000, 1, 1 store"),
    (" --capacity 2 --store=-0", "2, 2000000, 1"),
    (
        " --store +01 --root=1 --capacity 2 --units 9",
        "2, 2000000, 1, 9 units, 1 root, 1 store",
    ),
];

fn are_read(alloc: Global, words: &str, numbers: &str) -> Result<bool, AllocError> {
    let line = format!(in alloc; "{FILES}{words}")?;
    let said = format!(in alloc; "plan l, s, o, d, {numbers}")?;
    is_read(alloc, line.as_str(), said.as_str())
}

/// The first numbers that are read otherwise.
fn misread_numbers(alloc: Global) -> Result<Option<&'static str>, AllocError> {
    for (words, numbers) in NUMBERS {
        if !are_read(alloc, words, numbers)? {
            return Ok(Some(*words));
        }
    }
    Ok(None)
}

#[test]
fn numbers_of_plan_are_read(rt: HostRuntime) {
    assert_eq!(rt; misread_numbers(rt.alloc()), Ok(None));
}

/// Commands with all that they want, and units that they don't take.
const REFUSED_UNITS: &[(&str, &[&str])] = &[
    (
        "plan --layout l --stock s --orders o --desks d --capacity 2",
        BAD_UNITS,
    ),
    (
        "audit --layout l --stock s --orders o --journal j",
        BAD_UNITS,
    ),
    ("check --layout l --certificate c", GOOD_UNITS),
    (
        "make --number 1 --aisles 1 --orders 1 --desks 1 --wave 1 --capacity 1",
        GOOD_UNITS,
    ),
];

/// Units that no cart holds, that aren't whole numbers, or that aren't given once.
const BAD_UNITS: &[&str] = &[
    "--units 0",
    "--units=0",
    "--units 40000001",
    "--units 4294967297",
    "--units 18446744073709551617",
    "--units -1",
    "--units=-1",
    "--units 1.5",
    "--units 1e3",
    "--units 40,000",
    "--units x",
    "--units=",
    "--units",
    "--units 5 --units 5",
    "--units=5 --units 6",
    "--unit 5",
    "-units 5",
    "5",
];

/// Units that a plan and an audit take.
const GOOD_UNITS: &[&str] = &["--units 1", "--units=5", "--units 40000000"];

/// Commands with all that they want, and switches that they don't take.
const REFUSED_SWITCHES: &[(&str, &[&str])] = &[
    (
        "plan --layout l --stock s --orders o --desks d --capacity 2",
        BAD_SWITCHES,
    ),
    (
        "audit --layout l --stock s --orders o --journal j",
        GOOD_SWITCHES,
    ),
    ("check --layout l --certificate c", GOOD_SWITCHES),
    (
        "make --number 1 --aisles 1 --orders 1 --desks 1 --wave 1 --capacity 1",
        GOOD_SWITCHES,
    ),
    (
        "make --number 1 --aisles 1 --orders 1 --desks 1 --wave 1 --capacity 1",
        BAD_SWITCHES,
    ),
    ("check --layout l --certificate c", GOOD_NODES),
    (
        "audit --layout l --stock s --orders o --journal j",
        GOOD_NODES,
    ),
];

/// Switches whose numbers are out of their ranges or aren't whole, or that aren't given at most once and with a number.
const BAD_SWITCHES: &[&str] = &[
    "--rules 2",
    "--rules=2",
    "--rules 100",
    "--pickers 101",
    "--pickers=101",
    "--rules -1",
    "--rules=-1",
    "--pickers=-1",
    "--pickers -0",
    "--rules 4294967296",
    "--pickers 4294967296",
    "--rules=18446744073709551616",
    "--rules 0.5",
    "--pickers 1e1",
    "--rules x",
    "--pickers x",
    "--rules=",
    "--pickers=",
    "--rules",
    "--pickers",
    "--rules --pickers 1",
    "--rules 1 --rules 1",
    "--rules=0 --rules 1",
    "--pickers 5 --pickers 5",
    "--nodes 0",
    "--nodes=0",
    "--nodes -1",
    "--nodes=-1",
    "--nodes 1000000001",
    "--nodes 18446744073709551617",
    "--nodes 1.5",
    "--nodes x",
    "--nodes=",
    "--nodes",
    "--nodes --root 1",
    "--nodes 1 --nodes 1",
    "--nodes=1 --nodes 2",
    "--nodes 1 --budget 112",
    "--budget=2000000 --nodes=1",
    "--node 1",
    "-nodes 1",
    "--pickers=0 --pickers 6",
    "--rules 1 --pickers 5 --rules 1",
    "--rule 1",
    "--picker 5",
    "-rules 1",
    "--root 2",
    "--root=2",
    "--root=-1",
    "--root -1",
    "--root 4294967296",
    "--root 0.5",
    "--root x",
    "--root=",
    "--root",
    "--root --rules 1",
    "--root 1 --root 1",
    "--root=0 --root 1",
    "--roots 1",
    "-root 1",
    "--store 2",
    "--store=2",
    "--store=-1",
    "--store -1",
    "--store 4294967296",
    "--store 0.5",
    "--store x",
    "--store=",
    "--store",
    "--store --root 1",
    "--store 1 --store 1",
    "--store=0 --store 1",
    "--stores 1",
    "-store 1",
];

/// Switches that a plan takes.
const GOOD_SWITCHES: &[&str] = &[
    "--rules 0",
    "--rules=1",
    "--pickers 0",
    "--pickers=100",
    "--rules 1 --pickers 5",
    "--root 0",
    "--root=1",
    "--store 0",
    "--store=1",
];

/// Nodes that a plan and a make take.
const GOOD_NODES: &[&str] = &["--nodes 1", "--nodes=1000000000"];

/// The first of some words that a command takes.
fn taken_among(
    alloc: Global,
    command: &str,
    refused: &[&'static str],
) -> Result<Option<&'static str>, AllocError> {
    for words in refused {
        let line = format!(in alloc; "{command} {words}")?;
        if !is_read(alloc, line.as_str(), "bad-words")? {
            return Ok(Some(*words));
        }
    }
    Ok(None)
}

/// The first words that are taken, of those that each command doesn't take.
fn first_taken(
    alloc: Global,
    refused: &[(&str, &[&'static str])],
) -> Result<Option<&'static str>, AllocError> {
    for (command, words) in refused {
        let taken = taken_among(alloc, command, words)?;
        if taken.is_some() {
            return Ok(taken);
        }
    }
    Ok(None)
}

#[test]
fn bad_units_are_refused(rt: HostRuntime) {
    assert_eq!(rt; first_taken(rt.alloc(), REFUSED_UNITS), Ok(None));
}

#[test]
fn bad_switches_are_refused(rt: HostRuntime) {
    assert_eq!(rt; first_taken(rt.alloc(), REFUSED_SWITCHES), Ok(None));
}
