//! Lines of the journal that are read as entries and printed again, lines that are no entries, and the most entries of
//! a journal.
ghost use Rattle.std.specs.Prelude.{IfOk};
ghost use Rattle.wp_model.specs.Tables.{AreReadOrders};

use std::alloc::{AllocError, Global};
use std::test::Fail;
use wp_graph::Layout;
use wp_journal::{EntryFault, audit, print_entry, read_entry};
use wp_machine::Opening;
use wp_model::Memory;
use wp_tables::{Orders, RowFault, Stock, read_orders, read_stock};

/// A line of each command, of each reply, and of the least and the greatest numbers.
const LINES: [&str; 41] = [
    "0 1 submit W1 -> submitted\n",
    "1 8 submit W1 O1 -> submitted\n",
    "2 1 submit W1 O1 O2 submit -> submitted\n",
    "9999 1 allot allot -> allotted\n",
    "4 1 release W1 -> released\n",
    "5 1 cancel W1 -> cancelled\n",
    "6 1 pick W1 O1 0-0-L 1 -> picked\n",
    "7 1 missing W1 O1 99999-99999-R 100000 -> lost A 100000\n",
    "8 1 receive 10-20-R A 30 -> received\n",
    "9 1 allot W1 -> refilled 1\n",
    "10 1 allot W1 -> refilled 100000\n",
    "11 1 allot W1 -> lost A-b_c.9 1\n",
    "12 1 allot W1 -> refused no-orders\n",
    "13 1 allot W1 -> refused wave-full 0\n",
    "14 1 allot W1 -> refused wave-full 4294967295\n",
    "15 1 allot W1 -> refused known-wave\n",
    "16 1 allot W1 -> refused unknown-order O1\n",
    "17 1 allot W1 -> refused order-twice O1\n",
    "18 1 allot W1 -> refused order-taken O1 W2\n",
    "19 1 allot W1 -> refused unknown-wave\n",
    "20 1 allot W1 -> refused wrong-state submitted\n",
    "21 1 allot W1 -> refused wrong-state allotted\n",
    "22 1 allot W1 -> refused wrong-state released\n",
    "23 1 allot W1 -> refused wrong-state cancelled\n",
    "24 1 allot W1 -> refused wrong-state done\n",
    "25 1 allot W1 -> refused short A 0 0\n",
    "26 1 allot W1 -> refused short A 18446744073709551615 18446744073709551615\n",
    "27 1 allot W1 -> refused picking\n",
    "28 1 allot W1 -> refused not-held 1-2-L\n",
    "29 1 allot W1 -> refused too-much 0\n",
    "30 1 allot W1 -> refused too-much 4294967295\n",
    "31 1 allot W1 -> refused no-row\n",
    "32 1 allot W1 -> refused other-article refused\n",
    "33 1 allot W1 -> refused too-many 0\n",
    "34 1 allot W1 -> refused too-many 4294967295\n",
    "35 1 allot - -> allotted\n",
    "36 1 submit - -- -> submitted\n",
    "37 1 allot W1 -> refused over-cart O1 0\n",
    "38 1 allot W1 -> refused over-cart O1 4294967295\n",
    "39 1 allot W1 -> refused over-cart over-cart 2\n",
    "40 1 cancel abcdefghijklmnopqrstuvwxyz0123456789-_.Z -> picked\n",
];

/// Lines of no entry.
const OTHER_LINES: [&[u8]; 58] = [
    b"",
    b"\n",
    b"journal\n",
    b"0 1 allot W1 -> allotted",
    b"0 1 allot W1 -> allotted\r\n",
    b"0 1 allot W1 -> allotted\n\n",
    b"0 1 allot W1 -> allotted\n1 1 allot W1 -> allotted\n",
    b"0 1 allot W1 -> allotted \n",
    b" 0 1 allot W1 -> allotted\n",
    b"0  1 allot W1 -> allotted\n",
    b"0 1  allot W1 -> allotted\n",
    b"0 1 allot  W1 -> allotted\n",
    b"0 1 allot W1  -> allotted\n",
    b"0 1 allot W1 ->  allotted\n",
    b"0 1 allot W1 ->\n",
    b"0 1 allot W1 allotted\n",
    b"0 1 allot W1 - > allotted\n",
    b"0 1 allot W1->allotted\n",
    b"0 1 allot W1 -> -> allotted\n",
    b"00 1 allot W1 -> allotted\n",
    b"01 1 allot W1 -> allotted\n",
    b"0 01 allot W1 -> allotted\n",
    b"+0 1 allot W1 -> allotted\n",
    b"-1 1 allot W1 -> allotted\n",
    b"10000 1 allot W1 -> allotted\n",
    b"0 0 allot W1 -> allotted\n",
    b"0 9 allot W1 -> allotted\n",
    b"0 4294967297 allot W1 -> allotted\n",
    b"18446744073709551616 1 allot W1 -> allotted\n",
    b"0 1 -> allotted\n",
    b"0 1 submit -> submitted\n",
    b"0 1 allot -> allotted\n",
    b"0 1 allot W1 W2 -> allotted\n",
    b"0 1 Allot W1 -> allotted\n",
    b"0 1 hold W1 -> allotted\n",
    b"0 1 allot W,1 -> allotted\n",
    b"0 1 allot abcdefghijklmnopqrstuvwxyz0123456789-_.ZZ -> allotted\n",
    b"0 1 pick W1 O1 1-1-L -> picked\n",
    b"0 1 pick W1 O1 1-1-L 0 -> picked\n",
    b"0 1 pick W1 O1 1-1-L 100001 -> picked\n",
    b"0 1 pick W1 O1 1-1-L 01 -> picked\n",
    b"0 1 pick W1 O1 01-1-L 1 -> picked\n",
    b"0 1 pick W1 O1 1-100000-L 1 -> picked\n",
    b"0 1 pick W1 O1 1-1-l 1 -> picked\n",
    b"0 1 take W1 O1 1-1-L 1 -> picked\n",
    b"0 1 fetch 1-1-L A 1 -> received\n",
    b"0 1 allot W1 -> lost A 0\n",
    b"0 1 allot W1 -> declined too-much 1\n",
    b"0 1 allot W1 -> refused wave-full 4294967296\n",
    b"0 1 allot W1 -> refused short A 1 18446744073709551616\n",
    b"0 1 allot W1 -> refused not-held 100000-1-L\n",
    b"0 1 allot W1 -> refused over-cart O1 4294967296\n",
    b"0 1 allot W1 -> refused over-cart O1 02\n",
    b"0 1 allot W1 -> refused over-cart abcdefghijklmnopqrstuvwxyz0123456789-_.ZZ 2\n",
    b"0 1 allot W1 -> refused over-cart O1 W2\n",
    b"0 1 allot W1 -> refused over-cart O1\n",
    b"0 1 allot W1 -> refused over-cart 2\n",
    b"0 1 allot W\xc3\xa9 -> allotted\n",
];

/// Whether a line is read as an entry that is printed as it.
fn is_printed_again(alloc: Global, line: &str) -> Result<bool, EntryFault> {
    let entry = read_entry(alloc, line.as_bytes())?;
    let printed = print_entry(alloc, &entry)?;
    Ok(printed.as_slice() == line.as_bytes())
}

fn first_printed_otherwise<'a>(
    alloc: Global,
    lines: &[&'a str],
) -> Result<Option<&'a str>, EntryFault> {
    for line in lines {
        if !is_printed_again(alloc, line)? {
            return Ok(Some(*line));
        }
    }
    Ok(None)
}

#[test]
fn lines_are_read_and_printed_again(rt: HostRuntime) -> Result<(), Fail> {
    assert_eq!(rt; first_printed_otherwise(rt.alloc(), &LINES)?, None);
    Ok(())
}

fn is_no_entry(alloc: Global, line: &[u8]) -> bool {
    match read_entry(alloc, line) {
        Ok(_) => false,
        Err(fault) => fault == EntryFault::NotEntry,
    }
}

/// The place of the first line that is read, or refused otherwise than as no entry.
fn first_entry(alloc: Global, lines: &[&[u8]]) -> Option<usize> {
    for (at, line) in lines.iter().enumerate() {
        if !is_no_entry(alloc, line) {
            return Some(at);
        }
    }
    None
}

#[test]
fn other_lines_are_refused(rt: HostRuntime) -> Result<(), Fail> {
    assert_eq!(rt; first_entry(rt.alloc(), &OTHER_LINES), None);
    Ok(())
}

const STOCK: &str = "location,article,on_hand\n1-1-L,A,5\n";

const ORDERS: &str = "order,article,quantity\nO1,A,2\n";

fn stock_of(alloc: Global, text: &str) -> Result<Stock, RowFault> {
    let layout = Layout::new(64, 200, 1, 1, 1, 1).ok_or(Memory)?;
    read_stock(alloc, &text.as_bytes().to_vec(alloc)?, &layout)
}

fn orders_of(alloc: Global, text: &str, stock: &Stock) -> Result<Orders, RowFault>
    ensures { IfOk result (AreReadOrders stock.now.articles) }
{
    read_orders(alloc, &text.as_bytes().to_vec(alloc)?, stock)
}

fn opening_of(alloc: Global, stock: &str, orders: &str) -> Result<Opening, RowFault> {
    let stock = stock_of(alloc, stock)?;
    let orders = orders_of(alloc, orders, &stock)?;
    Ok(Opening::of(stock, orders))
}

/// What an audit finds.
fn found(alloc: Global, opening: &Opening, text: &str) -> Result<String, AllocError> {
    match audit(alloc, opening, &text.as_bytes().to_vec(alloc)?) {
        Ok(audit) => {
            let entries = audit.entries;
            format!(in alloc; "{entries} entries")
        }
        Err(fault) => format!(in alloc; "{fault}"),
    }
}

/// A journal of so many entries.
fn long_journal(alloc: Global, entries: u32) -> Result<String, AllocError> {
    let mut text = String::from_str(alloc, "journal\n")?;
    for number in 0..entries {
        let line = format!(in alloc; "{number} 1 allot W1 -> refused unknown-wave\n")?;
        text.push_str(line.as_str())?;
    }
    text.push_str("end journal\n")?;
    Ok(text)
}

/// What an audit finds of so many entries.
fn found_of(alloc: Global, opening: &Opening, entries: u32) -> Result<String, AllocError> {
    let text = long_journal(alloc, entries)?;
    found(alloc, opening, text.as_str())
}

#[test]
fn a_journal_has_at_most_10_000_entries(rt: HostRuntime) -> Result<(), Fail> {
    let alloc = rt.alloc();
    let opening = opening_of(alloc, STOCK, ORDERS)?;
    assert_eq!(rt;
        found_of(alloc, &opening, 10_000)?.as_str(),
        "10000 entries"
    );
    assert_eq!(rt; found_of(alloc, &opening, 10_001)?.as_str(), "line 10002");
    Ok(())
}
