//! What the readers of the tables count, the lines of an order, and the commands of each desk.
use std::alloc::{AllocError, Global};
use std::test::Fail;
use wp_graph::Layout;
use wp_model::Memory;
use wp_tables::{Line, Orders, RowFault, Scripts, Stock, Why, read_desks, read_orders, read_stock};

/// One row of the article A and one of B.
pub const STOCK_OF_TWO: &[u8] = b"location,article,on_hand\n1-1-R,A,5\n1-1-L,B,5\n";

/// The stock of a text, for the greatest layout.
pub fn stock_of(alloc: Global, text: &[u8]) -> Result<Stock, RowFault> {
    let layout = Layout::new(64, 200, 1, 1, 1, 1).ok_or(Memory)?;
    read_stock(alloc, &text.to_vec(alloc)?, &layout)
}

/// The orders of a text, for a stock of the articles A and B.
pub fn orders_of(alloc: Global, text: &[u8]) -> Result<Orders, RowFault> {
    let stock = stock_of(alloc, STOCK_OF_TWO)?;
    read_orders(alloc, &text.to_vec(alloc)?, &stock)
}

fn desks_of(alloc: Global, text: &[u8]) -> Result<Scripts, RowFault> {
    read_desks(alloc, &text.to_vec(alloc)?)
}

/// The article and the quantity of each line.
fn lines_text(alloc: Global, lines: &[Line]) -> Result<String, AllocError> {
    let mut said = String::new(alloc);
    for line in lines {
        let article = line.article;
        let quantity = line.quantity;
        said.push_str(format!(in alloc; " {article}*{quantity}")?.as_str())?;
    }
    Ok(said)
}

/// Each order's name and lines.
fn orders_text(alloc: Global, orders: &Orders) -> Result<String, AllocError> {
    let mut said = String::new(alloc);
    for i in 0..orders.count() {
        let name = orders.name(i);
        let lines = lines_text(alloc, orders.lines(i))?;
        said.push_str(format!(in alloc; "{name}{lines};")?.as_str())?;
    }
    Ok(said)
}

/// How many desks there are, and each desk's commands.
fn desks_text(alloc: Global, scripts: &Scripts) -> Result<String, AllocError> {
    let desks = scripts.desks();
    let mut said = format!(in alloc; "{desks} desks:")?;
    for desk in 1..=desks {
        for command in scripts.script(desk) {
            said.push_str(format!(in alloc; " {desk} {command};")?.as_str())?;
        }
    }
    Ok(said)
}

/// Whether these desks and commands are read of a text.
fn are_desks(alloc: Global, text: &[u8], wanted: &str) -> Result<bool, RowFault> {
    let scripts = desks_of(alloc, text)?;
    let said = desks_text(alloc, &scripts)?;
    Ok(said.as_str() == wanted)
}

/// Desk files, and how many desks they are of, with the commands of each.
const DESK_FILES: &[(&[u8], &str)] = &[
    (b"desk,command,arguments\n", "1 desks:"),
    (
        b"desk,command,arguments\n1,allot,W\n",
        "1 desks: 1 allot W;",
    ),
    (
        b"desk,command,arguments\n3,allot,W\n2,allot,V\n",
        "3 desks: 2 allot V; 3 allot W;",
    ),
    (
        b"desk,command,arguments\n8,allot,W\n",
        "8 desks: 8 allot W;",
    ),
    (
        b"desk,command,arguments\n3,submit,W\n1,allot,V\n3,cancel,W\n1,release,V\n",
        "3 desks: 1 allot V; 1 release V; 3 submit W; 3 cancel W;",
    ),
];

/// The first file of which something else is read than stands beside it.
fn misread_desks(alloc: Global) -> Result<Option<&'static str>, RowFault> {
    for (text, wanted) in DESK_FILES {
        if !are_desks(alloc, *text, *wanted)? {
            return Ok(Some(*wanted));
        }
    }
    Ok(None)
}

#[test]
fn each_desk_has_its_commands(rt: HostRuntime) -> Result<(), Fail> {
    assert_eq!(rt; misread_desks(rt.alloc())?, None);
    Ok(())
}

/// Records of two orders, in turn.
const ORDERS_IN_TURN: &[u8] = b"order,article,quantity\nO2,A,1\nO1,B,2\nO2,B,3\nO2,A,1\n";

#[test]
fn an_order_keeps_its_lines_as_they_come(rt: HostRuntime) -> Result<(), Fail> {
    let orders = orders_of(rt.alloc(), ORDERS_IN_TURN)?;
    let said = orders_text(rt.alloc(), &orders)?;
    assert_eq!(rt; said.as_str(), "O2 0*1 1*3 0*1;O1 1*2;");
    Ok(())
}

#[test]
fn a_lack_of_memory_is_told_by_its_row(rt: HostRuntime) -> Result<(), Fail> {
    let fault = RowFault {
        row: 25_602,
        why: Why::Memory,
    };
    let said = format!(in rt.alloc(); "{fault}")?;
    assert_eq!(rt; said.as_str(), "row 25602 memory");
    Ok(())
}

const STOCK: &str = "location,article,on_hand\n";

const DESKS: &str = "desk,command,arguments\n";

/// A heading, and so many records of one text.
fn repeated(alloc: Global, heading: &str, record: &str, count: u32) -> Result<String, AllocError> {
    let mut text = String::from_str(alloc, heading)?;
    for _ in 0..count {
        text.push_str(record)?;
    }
    Ok(text)
}

/// Records of which a desk file has the most, how many, and records that may follow.
const FULL_DESKS: &[(&str, u32, &str)] = &[
    ("1,allot,W\n", 10_000, ""),
    ("1,submit,W,O\n", 500, "1,allot,W\n"),
];

fn are_desks_read(alloc: Global, record: &str, count: u32, more: &str) -> Result<bool, AllocError> {
    let mut text = repeated(alloc, DESKS, record, count)?;
    text.push_str(more)?;
    Ok(desks_of(alloc, text.as_bytes()).is_ok())
}

/// The first records of which a file isn't read.
fn refused_desks(alloc: Global) -> Result<Option<&'static str>, AllocError> {
    for (record, count, more) in FULL_DESKS {
        if !are_desks_read(alloc, *record, *count, *more)? {
            return Ok(Some(*record));
        }
    }
    Ok(None)
}

#[test]
fn full_desk_files_are_read(rt: HostRuntime) -> Result<(), Fail> {
    assert_eq!(rt; refused_desks(rt.alloc())?, None);
    Ok(())
}

/// The records of both sides of an aisle, with an article for each slot.
fn put_aisle(alloc: Global, text: &mut String, aisle: u32) -> Result<(), AllocError> {
    for slot in 1..=200 {
        let place = format!(in alloc; "{aisle}-{slot}")?;
        text.push_str(format!(in alloc; "{place}-R,A{place},1\n{place}-L,A{place},1\n")?.as_str())?;
    }
    Ok(())
}

fn rows_of_64_aisles(alloc: Global) -> Result<String, AllocError> {
    let mut text = String::from_str(alloc, STOCK)?;
    for aisle in 1..=64 {
        put_aisle(alloc, &mut text, aisle)?;
    }
    Ok(text)
}

fn rows_of_a(alloc: Global) -> Result<String, AllocError> {
    let mut text = String::from_str(alloc, STOCK)?;
    for place in 0..1_000 {
        let aisle = 1 + place / 200;
        let slot = 1 + place % 200;
        text.push_str(format!(in alloc; "{aisle}-{slot}-L,A,1\n")?.as_str())?;
    }
    Ok(text)
}

const STOCK_OF_THREE: &[u8] = b"location,article,on_hand\n2-1-L,A,5\n1-1-L,B,5\n1-2-R,A,5\n";

/// How many rows are of an article, and 0 where the stock has no such article.
fn places_of(stock: &Stock, a: u32) -> u32 {
    if a < stock.articles() {
        stock.places(a)
    } else {
        0
    }
}

/// How many rows and articles there are, and how many rows of the first, the second and the 12,800th article.
fn counts_in(alloc: Global, text: &[u8]) -> Result<[u32; 5], RowFault> {
    let stock = stock_of(alloc, text)?;
    Ok([
        stock.rows(),
        stock.articles(),
        places_of(&stock, 0),
        places_of(&stock, 1),
        places_of(&stock, 12_799),
    ])
}

#[test]
fn rows_and_places_are_counted(rt: HostRuntime) -> Result<(), Fail> {
    let alloc = rt.alloc();
    assert_eq!(rt; counts_in(alloc, STOCK_OF_THREE)?, [3, 2, 2, 1, 0]);
    let full = rows_of_64_aisles(alloc)?;
    assert_eq!(rt;
        counts_in(alloc, full.as_bytes())?,
        [25_600, 12_800, 2, 2, 2]
    );
    Ok(())
}

#[test]
fn places_of_one_article_are_counted(rt: HostRuntime) -> Result<(), Fail> {
    let alloc = rt.alloc();
    let full = rows_of_a(alloc)?;
    assert_eq!(rt; counts_in(alloc, full.as_bytes())?, [1_000, 1, 1_000, 0, 0]);
    Ok(())
}

const ORDERS: &str = "order,article,quantity\n";

fn orders_of_one_line(alloc: Global) -> Result<String, AllocError> {
    let mut text = String::from_str(alloc, ORDERS)?;
    for i in 0..10_000 {
        text.push_str(format!(in alloc; "O{i},A,1\n")?.as_str())?;
    }
    Ok(text)
}

#[test]
fn all_orders_are_counted(rt: HostRuntime) -> Result<(), Fail> {
    let text = orders_of_one_line(rt.alloc())?;
    let orders = orders_of(rt.alloc(), text.as_bytes())?;
    assert_eq!(rt; orders.count(), 10_000);
    Ok(())
}
