ghost use Rattle.std.specs.Prelude.{◌≡◌, ◌<◌, ◌≤◌, ◌^◌, ◌==◌, Some, true, false, [], length, slice_get, map, IfNone};
ghost use Rattle.std.specs.Prelude.{IfOk, IfSome, OnOk, Ok};
ghost use Rattle.csv.specs.Records.{fields_of};
ghost use Rattle.wp_model.specs.Limits.{most_file_orders};
ghost use Rattle.wp_model.specs.Opening.{is_known_order, lines_of};
ghost use Rattle.wp_model.specs.TableLines.{MayJoinOrders, add_order_line, article_in};
ghost use Rattle.wp_model.specs.Tables.{AreReadOrders};
ghost use Rattle.wp_tables.specs.Keys.{IsHashUnder, IsOrdersKey, made_of};
ghost use Rattle.wp_tables.specs.OrderFile.{article_read, order_line_of, order_line_of_three, order_read};
ghost use Rattle.wp_tables.specs.OrderFile.{order_with_room, orders_after, orders_said};
ghost use Rattle.wp_tables.specs.Orders.{HasRoom, lines_in, name_of};
ghost use Rattle.wp_tables.specs.Reading.{Reads, ReadsBy, TakesIn, at_row, made_by};
ghost use Rattle.wp_tables.specs.RecordsLeft.{IsReading, kept_left};

use crate::fault::{RowFault, Why};
use crate::fields::{read_name, read_quantity, three_texts};
use crate::hashing::FileKey;
use crate::records::Records;
use crate::stock::Stock;
use csv::ByteRecord;
use indexmap::IndexSet;
use std::alloc::Global;
use std::hash::BuildHasher;
use std::marker::Model;
use wp_model::{Line, MOST_FILE_ORDERS, MOST_LINES, Memory, Name, OrderLine};

/// The orders that the lines read so far make, in the order of their first appearance. Contracts see the list of those
/// orders and the key under which their names are hashed.
#[derive(Drop)]
struct OrdersSoFar {
    names: IndexSet<Name, FileKey>,
    lines: Vec<Vec<Line>>,
}

impl Model for OrdersSoFar {
    ghost use Rattle.std.specs.Prelude.{◌≡◌, ◌≤◌, List, length};
    ghost use Rattle.indexmap.specs.IndexSet.{hasher_of};
    ghost use Rattle.wp_model.specs.Opening as opening;
    ghost use Rattle.wp_tables.specs.Keyed.{Keyed};

    ghost Value = { Keyed (List opening.Order) };

    ghost use Rattle.wp_model.specs.Limits.{most_file_orders};
    ghost use Rattle.wp_tables.specs.Orders.{orders_of_parts};

    ghost view = { λ o. record { made = orders_of_parts o.names.keys o.lines.items; key = hasher_of o.names } };

    ghost invariant = { λ o. (length o.lines.items ≡ length o.names.keys) × (length o.names.keys ≤ most_file_orders) };
}

fn read_article(stock: &Stock, field: &[u8]) -> Result<u32, Why>
    ensures article { result ≡ article_read stock.now.articles field.now }
    ensures known { IfOk result (λ article. article < length stock.now.articles) }
{
    let article = read_name(field)?;
    stock.find(&article).ok_or(Why::UnknownArticle)
}

impl OrdersSoFar {
    fn new(alloc: Global, key: FileKey) -> OrdersSoFar
        ensures made { result.made ≡ [] }
        ensures key { result.key ≡ key }
    {
        OrdersSoFar {
            names: IndexSet::with_hasher(alloc, key),
            lines: Vec::new(alloc),
        }
    }

    fn len(&self) -> usize
        ensures { result ≡ length self.now.made }
    {
        self.names.len()
    }

    fn lines_of(&self, name: &Name) -> Option<usize>
        ensures known { IfSome result (λ lines. (is_known_order self.now.made name.now ≡ true)
            × (lines ≡ length (lines_of self.now.made name.now))) }
        ensures new { IfNone result (is_known_order self.now.made name.now ≡ false) }
        ensures none { IfNone result (lines_of self.now.made name.now ≡ []) }
    {
        match self.names.get_index_of(name) {
            Some(order) => Some(self.lines[order].len()),
            None => None,
        }
    }

    fn with_room(&self, name: Name) -> Result<Name, Why>
        ensures order { result ≡ order_with_room self.now.made name }
        ensures room { IfOk result (HasRoom self.now.made) }
    {
        match self.lines_of(&name) {
            Some(lines) if lines >= MOST_LINES as usize => Err(Why::TooManyLines),
            None if self.len() >= MOST_FILE_ORDERS as usize => Err(Why::TooManyOrders),
            _ => Ok(name),
        }
    }

    fn read_order(&self, field: &[u8]) -> Result<Name, Why>
        ensures order { result ≡ order_read self.now.made field.now }
        ensures room { IfOk result (HasRoom self.now.made) }
    {
        let name = read_name(field)?;
        self.with_room(name)
    }

    fn read_three(
        &self,
        stock: &Stock,
        order: &[u8],
        article: &[u8],
        quantity: &[u8],
    ) -> Result<OrderLine, Why>
        ensures line { result ≡ order_line_of_three stock.now.articles self.now.made
            (order.now, article.now, quantity.now) }
        ensures joins { IfOk result (MayJoinOrders stock.now.articles self.now.made) }
    {
        let order = self.read_order(order)?;
        let article = read_article(stock, article)?;
        let quantity = read_quantity(quantity)?;
        let line = Line { article, quantity };
        Ok(OrderLine { order, line })
    }

    fn read_line(&self, stock: &Stock, fields: &ByteRecord) -> Result<OrderLine, Why>
        ensures line { result ≡ order_line_of stock.now.articles self.now.made
            (fields_of fields.now) }
        ensures joins { IfOk result (MayJoinOrders stock.now.articles self.now.made) }
    {
        let (order, article, quantity) = three_texts(fields)?;
        self.read_three(stock, order, article, quantity)
    }

    fn add_to(&mut self, order: usize, line: OrderLine) -> Result<(), Memory>
        requires { article_in (map name_of self.old.made) line.order ≡ Some order }
        ensures made { IfOk result (λ _. self.new.made ≡ add_order_line self.old.made line) }
        ensures key { IfOk result (λ _. self.new.key ≡ self.old.key) }
    {
        self.lines[order].push(line.line)?;
        Ok(())
    }

    fn add_order(&mut self, alloc: Global, line: OrderLine) -> Result<(), Memory>
        requires new { is_known_order self.old.made line.order ≡ false }
        requires room { length self.old.made < most_file_orders }
        ensures made { IfOk result (λ _. self.new.made ≡ add_order_line self.old.made line) }
        ensures key { IfOk result (λ _. self.new.key ≡ self.old.key) }
    {
        let mut first = Vec::new(alloc);
        first.push(line.line)?;
        self.names.reserve(1)?;
        self.lines.push(first)?;
        self.names.insert(line.order).unwrap();
        Ok(())
    }

    fn add(&mut self, alloc: Global, line: OrderLine) -> Result<(), Memory>
        requires { is_known_order self.old.made line.order ≡ false
            → length self.old.made < most_file_orders }
        ensures made { IfOk result (λ _. self.new.made ≡ add_order_line self.old.made line) }
        ensures key { IfOk result (λ _. self.new.key ≡ self.old.key) }
    {
        match self.names.get_index_of(&line.order) {
            Some(order) => self.add_to(order, line),
            None => self.add_order(alloc, line),
        }
    }

    fn take(
        &mut self,
        alloc: Global,
        stock: &Stock,
        row: u64,
        fields: &ByteRecord,
    ) -> Result<(), RowFault>
        ensures taken { TakesIn result self.new.made
            (at_row row (orders_after stock.now.articles self.old.made (fields_of fields.now))) }
        ensures read { AreReadOrders stock.now.articles self.old.made
            → OnOk result (AreReadOrders stock.now.articles self.new.made) }
        ensures key { OnOk result (self.new.key ≡ self.old.key) }
    {
        match self.read_line(stock, fields) {
            Ok(line) => Ok(self.add(alloc, line)?),
            Err(why) => Err(RowFault { row, why }),
        }
    }

    fn finish(self) -> Orders
        requires { IsOrdersKey self.made self.key }
        ensures { result ≡ self.made }
    {
        Orders {
            names: self.names,
            lines: self.lines,
        }
    }
}

/// The orders of a warehouse in the order of their first appearance in the order file, numbered from 0. Contracts
/// see the list of the orders, each with its name and its lines. The names are hashed under the digest of a file that
/// says these orders.
#[derive(Drop)]
pub struct Orders {
    names: IndexSet<Name, FileKey>,
    lines: Vec<Vec<Line>>,
}

impl Model for Orders {
    ghost use Rattle.std.specs.Prelude.{◌≡◌, ◌≤◌, List, length};
    ghost use Rattle.indexmap.specs.IndexSet.{hasher_of};
    ghost use Rattle.wp_model.specs.Opening as opening;

    ghost Value = { List opening.Order };

    ghost use Rattle.wp_model.specs.Limits.{most_file_orders};
    ghost use Rattle.wp_tables.specs.Keys.{IsOrdersKey};
    ghost use Rattle.wp_tables.specs.Orders.{orders_of_parts};

    ghost view = { λ o. orders_of_parts o.names.keys o.lines.items };

    ghost invariant = { λ o. (length o.lines.items ≡ length o.names.keys) × (length o.names.keys ≤ most_file_orders)
        × IsOrdersKey (orders_of_parts o.names.keys o.lines.items) (hasher_of o.names) };
}

impl Orders {
    /// How many orders there are, at most 10,000.
    pub fn count(&self) -> u32
        ensures { result ≡ length self.now }
    {
        self.names.len() as u32
    }

    /// The name of the order with a number.
    pub fn name(&self, i: u32) -> Name
        requires { i < length self.now }
        ensures { slice_get (map name_of self.now) i ≡ Some result }
    {
        self.names.as_slice()[i as usize]
    }

    /// The lines of the order with a number, 1 to 50 of them, in the order of the file.
    pub fn lines(&self, i: u32) -> &[Line]
        requires { i < length self.now }
        ensures { slice_get (map lines_in self.now) i ≡ Some result.now }
    {
        self.lines[i as usize].as_slice()
    }

    /// The number of the order with a name. None comes exactly where there is none.
    pub fn find(&self, name: &Name) -> Option<u32>
        ensures { result ≡ article_in (map name_of self.now) name.now }
    {
        match self.names.get_index_of(name) {
            Some(order) => Some(order as u32),
            None => None,
        }
    }

    /// The hash of a name under the key that comes from the bytes of the file.
    pub fn hash_of(&self, name: Name) -> u64
        ensures { IsHashUnder (IsOrdersKey self.now) name result }
    {
        self.names.hasher().hash_one(name)
    }
}

fn read_lines(
    alloc: Global,
    key: FileKey,
    stock: &Stock,
    records: &mut Records,
) -> Result<OrdersSoFar, RowFault>
    requires { IsReading records.old }
    ensures exact { ReadsBy made_of result (made_by (orders_after stock.now.articles) []
        (kept_left records.old)) }
    ensures read { IfOk result (λ orders. AreReadOrders stock.now.articles orders.made) }
    ensures key { IfOk result (λ orders. orders.key ≡ key) }
{
    let mut fields = ByteRecord::new(alloc);
    let mut orders = OrdersSoFar::new(alloc, key);
    while let Some(row) = records.next(&mut fields)? {
        orders.take(alloc, stock, row, &fields)?;
    }
    Ok(orders)
}

/// The orders that an order file says, for a stock: the heading `order,article,quantity`, and then a record for each
/// line of an order. A record is refused, in this order, as `Columns` where it hasn't three fields, `NotUtf8` where one
/// isn't text, `BadName` where the first is no name, `TooManyOrders` where it is a new one and there are 10,000
/// already, `TooManyLines` where that order has 50 lines already, `BadName` where the second is no name,
/// `UnknownArticle` where the stock has no such article, and `BadNumber` or `OutOfRange` where the third is no number 1
/// to 100,000. The first record that is refused is the answer, and so is the first record at all, or row 1 where there
/// is none, as `Columns` where it isn't the heading.
pub fn read_orders(alloc: Global, text: &Vec<u8>, stock: &Stock) -> Result<Orders, RowFault>
    ensures exact { Reads result (orders_said stock.now text.now.items) }
    ensures read { IfOk result (AreReadOrders stock.now.articles) }
{
    let mut records = Records::under(alloc, text, b"order", b"article", b"quantity")?;
    let orders = read_lines(alloc, FileKey::of(text), stock, &mut records)?;
    Ok(orders.finish())
}
