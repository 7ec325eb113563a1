//! The open file: which orders wait to go out, with what each leaves, and how soon.
ghost use Rattle.std.specs.Prelude.{◌≡◌, ◌≤◌, ◌++◌, ◌∷◌, [], true, false, length, replicate, map, IfOk, OnOk, Ok};
ghost use Rattle.csv.specs.Records.{fields_of};
ghost use Rattle.wp_tables.specs.RecordsLeft.{IsReading, kept_left};
ghost use Rattle.wp_waves.specs.OpenFile.{greatest_rank, group_read, most_group_bytes, open_after, open_made};
ghost use Rattle.wp_waves.specs.OpenFile.{open_of_three, open_order_of};
ghost use Rattle.wp_waves.specs.OpenFile.{open_said, order_read};
ghost use Rattle.wp_waves.specs.OpenOrders.{AreOpenOrders, AreNamedApart, MayFollow};
ghost use Rattle.wp_waves.specs.Reading.{ReadsBy, TakesIn, at_row};

use crate::fault::{OpenFileFault, OpenWhy};
use csv::ByteRecord;
use std::alloc::Global;
use std::marker::Model;
use wp_model::{Memory, Name};
use wp_tables::{Orders, Records, Why, read_name, read_number_in, three_texts};

/// The most bytes that the name of a group may have.
pub const MOST_GROUP_BYTES: usize = 32;

/// The greatest rank of an open order.
pub const GREATEST_RANK: u32 = 1_000_000_000;

/// An order that waits to go out: its name in the order file, the group with which it leaves, as a route, a carrier or
/// a gate, by a name of 1 to 32 bytes, and its rank, 0 to 1,000,000,000, the lower the sooner.
#[derive(Clone, Copy)]
pub struct OpenOrder {
    pub order: Name,
    pub group: Name,
    pub rank: u32,
}

/// The open orders that the records so far say, in the order of the file, and for each order of the order file whether
/// one of them is of it. Contracts see the orders of the order file and the open orders.
#[derive(Drop)]
struct OpenSoFar<'a> {
    orders: &'a Orders,
    listed: Vec<OpenOrder>,
    named: Vec<bool>,
}

impl<'a> Model for OpenSoFar<'a> {
    ghost use Rattle.wp_waves.specs.OpenOrders.{AreMarked, SoFar};

    ghost Value = { SoFar };

    ghost view = { λ s. record { orders = s.orders.now; listed = s.listed.items } };

    ghost invariant = { λ s. AreMarked s.orders.now s.listed.items s.named.items };
}

fn read_group(field: &[u8]) -> Result<Name, Why>
    ensures group { result ≡ group_read field.now }
    ensures most { IfOk result (λ group. length group ≤ most_group_bytes) }
{
    let group = read_name(field)?;
    if group.as_bytes().len() > MOST_GROUP_BYTES {
        return Err(Why::BadName);
    }
    Ok(group)
}

impl<'a> OpenSoFar<'a> {
    fn new(alloc: Global, orders: &'a Orders) -> Result<OpenSoFar<'a>, Memory>
        requires { AreNamedApart orders.now }
        ensures { IfOk result (λ so_far. so_far ≡ record { orders = orders.now; listed = [] }) }
    {
        let named = vec![in alloc; false; orders.count() as usize]?;
        Ok(OpenSoFar {
            orders,
            listed: Vec::new(alloc),
            named,
        })
    }

    fn read_order(&self, field: &[u8]) -> Result<Name, OpenWhy>
        ensures order { result ≡ order_read self.now.orders self.now.listed field.now }
    {
        let name = read_name(field)?;
        match self.orders.find(&name) {
            Some(number) if self.named[number as usize] => Err(OpenWhy::OrderTwice),
            Some(_) => Ok(name),
            None => Err(OpenWhy::UnknownOrder),
        }
    }

    fn read_three(&self, order: &[u8], group: &[u8], rank: &[u8]) -> Result<OpenOrder, OpenWhy>
        ensures order { result ≡ open_of_three self.now.orders self.now.listed
            (order.now, group.now, rank.now) }
        ensures follows { IfOk result (MayFollow self.now.orders self.now.listed) }
    {
        let order = self.read_order(order)?;
        let group = read_group(group)?;
        let rank = read_number_in(rank, 0, GREATEST_RANK)?;
        Ok(OpenOrder { order, group, rank })
    }

    fn read_record(&self, fields: &ByteRecord) -> Result<OpenOrder, OpenWhy>
        ensures order { result ≡ open_order_of self.now.orders self.now.listed
            (fields_of fields.now) }
        ensures follows { IfOk result (MayFollow self.now.orders self.now.listed) }
    {
        let (order, group, rank) = three_texts(fields)?;
        self.read_three(order, group, rank)
    }

    fn add(&mut self, one: OpenOrder) -> Result<(), Memory>
        requires { MayFollow self.old.orders self.old.listed one }
        ensures { IfOk result (λ _. self.new ≡ record {
          orders = self.old.orders;
          listed = self.old.listed ++ one ∷ [];
        }) }
    {
        let number = self.orders.find(&one.order).unwrap();
        self.listed.push(one)?;
        self.named[number as usize] = true;
        Ok(())
    }

    fn take(&mut self, row: u64, fields: &ByteRecord) -> Result<(), OpenFileFault>
        ensures taken { TakesIn result self.new.listed
            (at_row row (open_after self.old.orders self.old.listed (fields_of fields.now))) }
        ensures orders { OnOk result (self.new.orders ≡ self.old.orders) }
    {
        match self.read_record(fields) {
            Ok(one) => Ok(self.add(one)?),
            Err(why) => Err(OpenFileFault { row, why }),
        }
    }

    fn finish(self) -> Vec<OpenOrder>
        ensures listed { result.items ≡ self.entry.listed }
        ensures read { AreOpenOrders self.entry.orders result.items }
    {
        self.listed
    }
}

fn read_records<'a>(
    alloc: Global,
    orders: &'a Orders,
    records: &mut Records,
) -> Result<OpenSoFar<'a>, OpenFileFault>
    requires names { AreNamedApart orders.now }
    requires reading { IsReading records.old }
    ensures exact { ReadsBy (λ so_far. so_far.listed) result
        (open_made orders.now [] (kept_left records.old)) }
    ensures orders { IfOk result (λ so_far. so_far.orders ≡ orders.now) }
{
    let mut fields = ByteRecord::new(alloc);
    let mut so_far = OpenSoFar::new(alloc, orders)?;
    while let Some(row) = records.next(&mut fields)? {
        so_far.take(row, &fields)?;
    }
    Ok(so_far)
}

/// The open orders that an open file says, for the orders of an order file: the heading `order,group,rank`, and then a
/// record for each open order. A record is refused, in this order, as `Columns` where it hasn't three fields, `NotUtf8`
/// where one isn't text, `BadName` where the first is no name, `UnknownOrder` where the order file has no such order,
/// `OrderTwice` where an earlier record names it, `BadName` where the second is no name of at most 32 bytes, and
/// `BadNumber` or `OutOfRange` where the third is no number 0 to 1,000,000,000. The first record that is refused is the
/// answer, and so is the first record at all, or row 1 where there is none, as `Columns` where it isn't the heading.
pub fn read_open(
    alloc: Global,
    text: &Vec<u8>,
    orders: &Orders,
) -> Result<Vec<OpenOrder>, OpenFileFault>
    requires { AreNamedApart orders.now }
    ensures exact { ReadsBy (λ listed. listed.items) result (open_said orders.now text.now.items) }
    ensures read { IfOk result (λ listed. AreOpenOrders orders.now listed.items) }
{
    let mut records = Records::under(alloc, text, b"order", b"group", b"rank")?;
    let so_far = read_records(alloc, orders, &mut records)?;
    Ok(so_far.finish())
}
