//! Lines of sheets, refills and rows with numbers that no run comes to, and lines of rules and crews that were worked
//! by hand.
ghost use Rattle.std.specs.Prelude.{◌≡◌, ◌≤◌, ◌^◌, ◌↔◌, IfOk, IsTrue, [], length};
ghost use Rattle.std.specs.List.{All};

use std::alloc::Global;
use std::test::Fail;
use wp_crew::assign;
use wp_graph::{Layout, Point};
use wp_machine::{Refill, WaveHolds};
use wp_model::{Holds, Location, Memory, Name, Names, Row, Side};
use wp_pairs::Batch;
use wp_sheets::{
    BatchSheet, RootLine, print_batch, print_crew, print_heading, print_refill, print_root,
    print_row, print_rules,
};
use wp_tables::{RowFault, Stock, read_stock};

fn stock_of(alloc: Global, text: &[u8]) -> Result<Stock, RowFault> {
    let layout = Layout::new(3, 4, 1, 1, 1, 1).ok_or(Memory)?;
    read_stock(alloc, &text.to_vec(alloc)?, &layout)
}

fn name_of(text: &[u8]) -> Result<Name, Memory> {
    Name::new(text).ok_or(Memory)
}

/// A wave of one order for which nothing is held, by the greatest number.
fn wave_of_nothing(alloc: Global) -> Result<WaveHolds, Memory>
    ensures orders { IfOk result (λ wave. length wave.orders ≡ 1) }
    ensures holds { IfOk result (λ wave. wave.holds ≡ []) }
{
    let wave = name_of(b"W")?;
    let order = name_of(b"O")?;
    let mut orders = Vec::new(alloc);
    orders.push(order)?;
    Ok(WaveHolds {
        number: 18_446_744_073_709_551_615,
        wave,
        orders: Names::of(orders),
        holds: Holds::of(Vec::new(alloc)),
    })
}

fn heading_text(alloc: Global, units: Option<u32>) -> Result<Vec<u8>, Memory> {
    let wave = wave_of_nothing(alloc)?;
    print_heading(
        alloc,
        &wave,
        4_294_967_295,
        units,
        18_446_744_073_709_551_615,
        18_446_744_073_709_551_614,
        true,
        false,
    )
}

#[test]
fn a_heading_has_the_greatest_numbers(rt: HostRuntime) -> Result<(), Fail> {
    let text = heading_text(rt.alloc(), None)?;
    assert!(rt;
        text.as_slice()
            == "wave W entry 18446744073709551615 orders 1 capacity 4294967295 cost 18446744073709551615 bound 18446744073709551614 open\n".as_bytes()
    );
    Ok(())
}

#[test]
fn a_heading_has_the_greatest_number_of_units(rt: HostRuntime) -> Result<(), Fail> {
    let text = heading_text(rt.alloc(), Some(4_294_967_294))?;
    assert!(rt;
        text.as_slice()
            == "wave W entry 18446744073709551615 orders 1 capacity 4294967295 units 4294967294 cost 18446744073709551615 bound 18446744073709551614 open\n".as_bytes()
    );
    Ok(())
}

/// A walk of one point, by the greatest numbers.
fn walk_of_one(alloc: Global) -> Result<Vec<Point>, Memory> {
    let mut walk = Vec::new(alloc);
    walk.push(Point {
        aisle: 4_294_967_295,
        slot: 4_294_967_295,
    })?;
    Ok(walk)
}

/// The part of a batch of the only order of a wave.
fn only_batch_text(
    alloc: Global,
    wave: &WaveHolds,
    stock: &Stock,
    walk: Vec<Point>,
) -> Result<Vec<u8>, Memory>
    requires orders { length wave.now.orders ≡ 1 }
    requires holds { wave.now.holds ≡ [] }
{
    let sheet = BatchSheet {
        batch: Batch::empty().with(0),
        length: 18_446_744_073_709_551_615,
        walk,
    };
    print_batch(alloc, 4_294_967_295, wave, stock, &sheet)
}

fn batch_text(alloc: Global, stock: &Stock) -> Result<Vec<u8>, Memory> {
    let wave = wave_of_nothing(alloc)?;
    only_batch_text(alloc, &wave, stock, walk_of_one(alloc)?)
}

#[test]
fn a_batch_has_the_greatest_numbers_and_no_picks(rt: HostRuntime) -> Result<(), Fail> {
    let stock = stock_of(rt.alloc(), b"location,article,on_hand\n")?;
    let text = batch_text(rt.alloc(), &stock)?;
    assert!(rt;
        text.as_slice()
            == "batch 4294967295 length 18446744073709551615 orders O\ntour 4294967295-4294967295\n".as_bytes()
    );
    Ok(())
}

/// The line of a row of the first article.
fn row_text(alloc: Global, stock: &Stock) -> Result<Vec<u8>, Memory> {
    if stock.articles() == 0 {
        return Err(Memory);
    }
    let row = Row {
        location: Location {
            aisle: 99_999,
            slot: 10,
            side: Side::R,
        },
        article: 0,
        on_hand: 4_294_967_295,
        free: 1,
        held: 4_294_967_294,
    };
    print_row(alloc, &row, stock)
}

#[test]
fn a_row_has_the_greatest_numbers(rt: HostRuntime) -> Result<(), Fail> {
    let stock = stock_of(rt.alloc(), b"location,article,on_hand\n3-2-L,C,1\n")?;
    let text = row_text(rt.alloc(), &stock)?;
    assert!(rt; text.as_slice() == "99999-10-R C 4294967295 1 4294967294\n".as_bytes());
    Ok(())
}

/// The lines of a refill of no units.
fn refill_text(alloc: Global, stock: &Stock) -> Result<Vec<u8>, Memory> {
    let wave = name_of(b"W")?;
    let order = name_of(b"O")?;
    let refill = Refill {
        number: 15,
        wave,
        order,
        holds: Holds::of(Vec::new(alloc)),
    };
    print_refill(alloc, &refill, stock)
}

#[test]
fn a_refill_of_no_units_has_no_lines(rt: HostRuntime) -> Result<(), Fail> {
    let stock = stock_of(rt.alloc(), b"location,article,on_hand\n")?;
    let text = refill_text(rt.alloc(), &stock)?;
    assert!(rt; text.is_empty());
    Ok(())
}

/// What S-shape, return and largest gap walk, the length of a shortest tour, and the line of these rules.
const RULES: &[([u64; 3], u64, &str)] = &[
    (
        [50, 62, 48],
        48,
        "rules s-shape 50 2 return 62 14 largest-gap 48 0\n",
    ),
    (
        [38, 50, 40],
        38,
        "rules s-shape 38 0 return 50 12 largest-gap 40 2\n",
    ),
    (
        [34, 34, 34],
        34,
        "rules s-shape 34 0 return 34 0 largest-gap 34 0\n",
    ),
];

/// Whether rules have this line, where none walks less than a shortest tour.
fn is_rules_line(
    alloc: Global,
    walked: [u64; 3],
    shortest: u64,
    wanted: &str,
) -> Result<bool, Memory> {
    let [shape, back, gap] = walked;
    if shape < shortest || back < shortest || gap < shortest {
        return Ok(false);
    }
    let line = print_rules(alloc, shape, back, gap, shortest)?;
    Ok(line.as_slice() == wanted.as_bytes())
}

/// The first line that rules have otherwise.
fn other_rules_line(alloc: Global) -> Result<Option<&'static str>, Memory> {
    for (walked, shortest, wanted) in RULES {
        if !is_rules_line(alloc, *walked, *shortest, *wanted)? {
            return Ok(Some(*wanted));
        }
    }
    Ok(None)
}

#[test]
fn rules_have_their_lengths_and_surpluses(rt: HostRuntime) -> Result<(), Fail> {
    assert_eq!(rt; other_rules_line(rt.alloc())?, None);
    Ok(())
}

/// The low and the high side of a bracket, the denominator, whether it is narrow, and its line.
const BRACKETS: &[(i128, i128, i128, bool, &str)] = &[
    (3060, 3060, 60, true, "root 3060 3060 over 60 narrow\n"),
    (4320, 6120, 60, false, "root 4320 6120 over 60 open\n"),
    (0, 0, 1, true, "root 0 0 over 1 narrow\n"),
    (-1, 12, 0, false, "root -1 12 over 0 open\n"),
    (
        i128::MIN,
        i128::MAX,
        10_000_000_000_000_000_000,
        false,
        "root -170141183460469231731687303715884105728 170141183460469231731687303715884105727 over 10000000000000000000 open\n",
    ),
];

/// The first line that brackets have otherwise.
fn other_bracket(alloc: Global) -> Result<Option<&'static str>, Memory> {
    for (low, high, denominator, narrow, wanted) in BRACKETS {
        let root = RootLine {
            low: *low,
            high: *high,
            denominator: *denominator,
            narrow: *narrow,
        };
        if print_root(alloc, &root)?.as_slice() != wanted.as_bytes() {
            return Ok(Some(*wanted));
        }
    }
    Ok(None)
}

#[test]
fn a_bracket_has_both_sides_over_its_denominator(rt: HostRuntime) -> Result<(), Fail> {
    assert_eq!(rt; other_bracket(rt.alloc())?, None);
    Ok(())
}

/// Whether each length is one that may be dealt.
fn are_lengths(lengths: &[u64]) -> bool
    ensures { IsTrue result ↔ All (λ one. (1 ≤ one) × (one ≤ 2 ^ 40)) lengths.now }
{
    lengths
        .iter()
        .all(|length| 1 <= *length && *length <= 1 << 40)
}

/// The section of a crew for batches of one wave with these lengths, numbered from 1.
fn section_of(
    alloc: Global,
    lengths: &[u64],
    numbers: &[u32],
    pickers: u32,
) -> Result<Vec<u8>, Memory>
    requires some { 1 ≤ pickers }
    requires most { pickers ≤ 100 }
    requires count { length lengths.now ≤ 1000000 }
    requires each { All (λ one. (1 ≤ one) × (one ≤ 2 ^ 40)) lengths.now }
    requires numbers { length numbers.now ≡ length lengths.now }
{
    let wave = name_of(b"W1")?;
    let crew = assign(alloc, lengths, pickers)?;
    let names = vec![in alloc; wave; numbers.len()]?;
    print_crew(alloc, &crew, &names, numbers)
}

/// Lengths and numbers of batches of the wave W1, a number of pickers, and the section of their crew.
const CREWS: &[(&[u64], &[u32], u32, &str)] = &[
    (
        &[26, 22],
        &[1, 2],
        2,
        "crew longest 26 least 26\npicker 1 load 26 batches W1/1\npicker 2 load 22 batches W1/2\nend crew\n",
    ),
    (
        &[7],
        &[1],
        3,
        "crew longest 7 least 7\npicker 1 load 7 batches W1/1\npicker 2 load 0 batches\npicker 3 load 0 batches\nend crew\n",
    ),
    (
        &[5, 6, 1],
        &[1, 2, 3],
        2,
        "crew longest 6 least 6\npicker 1 load 6 batches W1/1 W1/3\npicker 2 load 6 batches W1/2\nend crew\n",
    ),
    (
        &[],
        &[],
        1,
        "crew longest 0 least 0\npicker 1 load 0 batches\nend crew\n",
    ),
];

/// Whether the crew for these lengths has this section, where it may be made.
fn is_section(
    alloc: Global,
    lengths: &[u64],
    numbers: &[u32],
    pickers: u32,
    wanted: &str,
) -> Result<bool, Memory> {
    let few = lengths.len() <= 1_000_000 && 1 <= pickers && pickers <= 100;
    if !few || numbers.len() != lengths.len() || !are_lengths(lengths) {
        return Ok(false);
    }
    let section = section_of(alloc, lengths, numbers, pickers)?;
    Ok(section.as_slice() == wanted.as_bytes())
}

/// The first section that a crew has otherwise.
fn other_section(alloc: Global) -> Result<Option<&'static str>, Memory> {
    for (lengths, numbers, pickers, wanted) in CREWS {
        if !is_section(alloc, *lengths, *numbers, *pickers, *wanted)? {
            return Ok(Some(*wanted));
        }
    }
    Ok(None)
}

#[test]
fn a_crew_has_its_pickers_and_their_batches(rt: HostRuntime) -> Result<(), Fail> {
    assert_eq!(rt; other_section(rt.alloc())?, None);
    Ok(())
}
