//! The files of made days.
use std::alloc::Global;
use wp_layout::{Layout, read_layout};
use wp_make::{Generator, Input, Size, make};
use wp_model::Memory;
use wp_tables::{Orders, Scripts, Stock, read_desks, read_orders, read_stock};

#[test]
fn numbers_follow_from_the_first_state(rt: HostRuntime) {
    let mut generator = Generator::new(1);
    assert_eq!(rt; generator.draw(u32::MAX), 908_834_774);
    assert_eq!(rt; generator.state(), 7_806_831_264_735_756_412);
    assert_eq!(rt; generator.draw(u32::MAX), 1_093_944_153);
    assert_eq!(rt; generator.state(), 9_396_908_728_118_811_419);
}

/// The input of a size, or nothing where that is no size of one.
fn made(alloc: Global, number: u64, numbers: [u32; 4]) -> Result<Option<Input>, Memory> {
    let [aisles, orders, desks, wave] = numbers;
    let few = aisles <= 64 && orders <= 10_000 && desks <= 8 && wave <= 64;
    let some = 1 <= aisles && 1 <= orders && 1 <= desks && 1 <= wave;
    if !few || !some || orders.div_ceil(wave) > 500 {
        return Ok(None);
    }
    let size = Size {
        aisles,
        orders,
        desks,
        wave,
    };
    Ok(Some(make(alloc, number, size)?))
}

/// Numbers and sizes (the aisles, the orders, the desks and the orders of a wave), and the layout, the orders and the
/// desks' commands that are made from them.
const MADE: &[(u64, [u32; 4], &str, &str, &str)] = &[
    (
        7,
        [1, 3, 1, 2],
        "{\"aisles\":1,\"clearance\":1,\"depot\":1,\"end\":\"front\",\"pitch\":2,\"slots\":40,\"spacings\":[],\"version\":2}
",
        "order,article,quantity
O1,A1-34,4
O1,A1-20,5
O1,A1-20,2
O2,A1-33,1
O2,A1-3,1
O3,A1-32,2
",
        "desk,command,arguments
1,submit,W1,O1,O2
1,release,W1
1,submit,W2,O3
1,release,W2
",
    ),
    (
        7,
        [4, 5, 2, 2],
        "{\"aisles\":4,\"clearance\":1,\"depot\":2,\"pitch\":2,\"slots\":40,\"spacing\":5,\"version\":1}
",
        "order,article,quantity
O1,A4-34,4
O1,A2-20,5
O1,A1-20,2
O2,A4-33,1
O2,A2-3,1
O3,A1-32,2
O4,A3-19,4
O4,A1-1,1
O5,A1-33,3
",
        "desk,command,arguments
1,submit,W1,O1,O2
1,release,W1
2,submit,W2,O3,O4
2,release,W2
1,submit,W3,O5
1,release,W3
",
    ),
    (
        u64::MAX,
        [64, 7, 8, 3],
        "{\"aisles\":64,\"clearance\":1,\"depot\":32,\"pitch\":2,\"slots\":40,\"spacing\":5,\"version\":1}
",
        "order,article,quantity
O1,A56-38,3
O1,A1-28,1
O2,A25-13,4
O2,A51-1,4
O2,A47-1,2
O3,A35-3,2
O3,A29-2,1
O4,A6-6,5
O4,A23-36,2
O5,A25-12,5
O5,A30-3,1
O5,A5-8,5
O6,A25-3,2
O6,A60-19,4
O6,A58-19,3
O7,A55-32,3
",
        "desk,command,arguments
1,submit,W1,O1,O2,O3
1,release,W1
2,submit,W2,O4,O5,O6
2,release,W2
3,submit,W3,O7
3,release,W3
",
    ),
    (
        0,
        [3, 4, 3, 1],
        "{\"aisles\":3,\"clearance\":1,\"depot\":2,\"pitch\":2,\"slots\":40,\"spacing\":5,\"version\":1}
",
        "order,article,quantity
O1,A1-18,2
O1,A3-12,5
O1,A3-25,5
O2,A1-23,1
O2,A1-23,1
O3,A3-4,5
O4,A2-19,4
O4,A1-2,2
O4,A3-23,3
",
        "desk,command,arguments
1,submit,W1,O1
1,release,W1
2,submit,W2,O2
2,release,W2
3,submit,W3,O3
3,release,W3
1,submit,W4,O4
1,release,W4
",
    ),
];

fn has_texts(input: &Input, layout: &str, orders: &str, desks: &str) -> bool {
    input.layout.as_slice() == layout.as_bytes()
        && input.orders.as_slice() == orders.as_bytes()
        && input.desks.as_slice() == desks.as_bytes()
}

/// The number and the size of the first input that is made otherwise.
fn mismade(alloc: Global) -> Result<Option<(u64, [u32; 4])>, Memory> {
    for (number, size, layout, orders, desks) in MADE {
        match made(alloc, *number, *size)? {
            Some(input) if has_texts(&input, layout, orders, desks) => {}
            _ => return Ok(Some((*number, *size))),
        }
    }
    Ok(None)
}

#[test]
fn inputs_are_made_as_they_are_defined(rt: HostRuntime) {
    assert_eq!(rt; mismade(rt.alloc()), Ok(None));
}

/// The stock of one aisle.
const STOCK: &str = "location,article,on_hand
1-1-L,A1-1,1000000
1-2-L,A1-2,1000000
1-3-L,A1-3,1000000
1-4-L,A1-4,1000000
1-5-L,A1-5,1000000
1-6-L,A1-6,1000000
1-7-L,A1-7,1000000
1-8-L,A1-8,1000000
1-9-L,A1-9,1000000
1-10-L,A1-10,1000000
1-11-L,A1-11,1000000
1-12-L,A1-12,1000000
1-13-L,A1-13,1000000
1-14-L,A1-14,1000000
1-15-L,A1-15,1000000
1-16-L,A1-16,1000000
1-17-L,A1-17,1000000
1-18-L,A1-18,1000000
1-19-L,A1-19,1000000
1-20-L,A1-20,1000000
1-21-L,A1-21,1000000
1-22-L,A1-22,1000000
1-23-L,A1-23,1000000
1-24-L,A1-24,1000000
1-25-L,A1-25,1000000
1-26-L,A1-26,1000000
1-27-L,A1-27,1000000
1-28-L,A1-28,1000000
1-29-L,A1-29,1000000
1-30-L,A1-30,1000000
1-31-L,A1-31,1000000
1-32-L,A1-32,1000000
1-33-L,A1-33,1000000
1-34-L,A1-34,1000000
1-35-L,A1-35,1000000
1-36-L,A1-36,1000000
1-37-L,A1-37,1000000
1-38-L,A1-38,1000000
1-39-L,A1-39,1000000
1-40-L,A1-40,1000000
";

fn is_stock_of_one_aisle(alloc: Global) -> Result<bool, Memory> {
    let Some(input) = made(alloc, 7, [1, 3, 1, 2])? else {
        return Ok(false);
    };
    Ok(input.stock.as_slice() == STOCK.as_bytes())
}

#[test]
fn each_slot_has_a_row(rt: HostRuntime) {
    assert_eq!(rt; is_stock_of_one_aisle(rt.alloc()), Ok(true));
}

/// How many rows and articles a made stock has, or nothing where its text is refused.
fn rows_read(alloc: Global, input: &Input, layout: &Layout) -> Option<(Stock, [u32; 2])> {
    let stock = read_stock(alloc, &input.stock, layout).ok()?;
    let counts = [stock.rows(), stock.articles()];
    Some((stock, counts))
}

/// How many orders there are, or nothing where their text is refused.
fn orders_read(alloc: Global, input: &Input, stock: &Stock) -> Option<u32> {
    let orders: Orders = read_orders(alloc, &input.orders, stock).ok()?;
    Some(orders.count())
}

/// How many desks there are and how many commands they have together, or nothing where their text is refused.
fn commands_read(alloc: Global, input: &Input) -> Option<(u32, usize)> {
    let scripts: Scripts = read_desks(alloc, &input.desks).ok()?;
    let mut commands: usize = 0;
    for desk in 1..=scripts.desks() {
        commands = commands.saturating_add(scripts.script(desk).len());
    }
    Some((scripts.desks(), commands))
}

/// The numbers of aisles, rows, articles, orders and desks that the readers find in a made input, and that of commands.
fn counts(alloc: Global, input: &Input) -> Option<([u32; 5], usize)> {
    let layout = read_layout(alloc, &input.layout).ok()?;
    let (stock, [rows, articles]) = rows_read(alloc, input, &layout)?;
    let orders = orders_read(alloc, input, &stock)?;
    let (desks, commands) = commands_read(alloc, input)?;
    Some(([layout.aisles(), rows, articles, orders, desks], commands))
}

/// Sizes, and the numbers of rows, desks and commands of the inputs that are made of them.
const COUNTS: &[([u32; 4], [u32; 2], usize)] = &[
    ([1, 1, 1, 1], [40, 1], 2),
    ([1, 3, 1, 2], [40, 1], 4),
    ([4, 5, 2, 2], [160, 2], 6),
    ([3, 4, 8, 1], [120, 4], 8),
    ([64, 64, 8, 64], [2560, 1], 2),
    ([64, 65, 8, 64], [2560, 2], 4),
    ([64, 500, 8, 1], [2560, 8], 1000),
    ([64, 10_000, 8, 20], [2560, 8], 1000),
    ([64, 9_981, 7, 20], [2560, 7], 1000),
];

fn has_counts(
    alloc: Global,
    size: [u32; 4],
    found: [u32; 2],
    commands: usize,
) -> Result<bool, Memory> {
    let [aisles, orders, _, _] = size;
    let [rows, desks] = found;
    let Some(input) = made(alloc, 1, size)? else {
        return Ok(false);
    };
    Ok(counts(alloc, &input) == Some(([aisles, rows, rows, orders, desks], commands)))
}

/// The first size whose input the readers refuse, or in which they count otherwise.
fn miscounted(alloc: Global) -> Result<Option<[u32; 4]>, Memory> {
    for (size, found, commands) in COUNTS {
        if !has_counts(alloc, *size, *found, *commands)? {
            return Ok(Some(*size));
        }
    }
    Ok(None)
}

#[test]
fn made_inputs_are_accepted(rt: HostRuntime) {
    assert_eq!(rt; miscounted(rt.alloc()), Ok(None));
}
