ghost use Rattle.std.specs.Prelude.{◌≡◌, ◌+◌, Err, IfOk, IfErr, OnOk, if◌then◌else◌};
ghost use Rattle.std.proofs.Props.{props};
ghost use Rattle.wp_floor.specs.Opening.{opening_of};
ghost use Rattle.wp_model.specs.Tables.{AreReadOrders, AreReadScripts, IsReadOpening, IsReadStock};
ghost use Rattle.wp_planner.specs.Released.{LiesIn};
ghost use Rattle.wp_outside.specs.Outside.{NoneFalls, SameBytes};
ghost use Rattle.wp_tables.specs.Faults.{wants_memory};
ghost use Rattle.wp_top.specs.Ends.{ReadsWithin, among};
ghost use Rattle.wp_top.specs.Stops.{IsRead, IsSaid, StopsFor, lacks_memory, of_file, opening_files, tables_said};
ghost use Rattle.wp_top.specs.Texts.{HaveSaid, IsHeld, layout_in, opening_with, orders_in, scripts_in, stock_in};
ghost use Rattle.wp_top.specs.Texts.{text_in};
ghost use Rattle.wp_top.specs.declared.complaint.Complaint.TheVariants as complaint;
ghost use Rattle.wp_top.specs.declared.complaint.Stop.TheVariants as stop;
ghost use Rattle.wp_top.specs.declared.input.Input.TheVariants as input;
ghost use Rattle.wp_top.specs.declared.input.Refusal.TheVariants as refusal;
ghost use Rattle.wp_words.specs.Limits.{AreUnits};

use crate::complaint::{Complaint, Stop};
use crate::input::{Input, Refusal};
use std::alloc::Global;
use wp_graph::Layout;
use wp_layout::{LayoutFault, read_layout};
use wp_machine::Opening;
use wp_outside::{FileFault, Files, MOST_FILE_BYTES};
use wp_tables::{Orders, RowFault, Scripts, Stock, Why, read_desks, read_orders, read_stock};

fn too_long(file: Input) -> Stop
    ensures { result ≡ stop.Complaint (complaint.Refused file refusal.TooLong) }
{
    Stop::Complaint(Complaint::Refused(file, Refusal::TooLong))
}

/// The text of a file, at most 16,777,216 bytes. It is read once.
pub fn read_text<F: Files>(
    alloc: Global,
    files: &mut F,
    name: &str,
    file: Input,
) -> Result<Vec<u8>, Stop>
    ensures text { IfOk result (λ text. IsRead (F.told files.old).holds name.now text.items) }
    ensures stops { IfErr result (StopsFor (of_file text_in (F.told files.old)
        (F.told files.new) name.now file)) }
    ensures same { SameBytes (F.told files.old).holds (F.told files.new).holds }
    ensures counts { NoneFalls (F.told files.old).faults (F.told files.new).faults }
    ensures once { OnOk result ((F.told files.new).reads ≡ (F.told files.old).reads + 1) }
    ensures reads { ReadsWithin (F.told files.old) (F.told files.new) 1 }
{
    match files.read(alloc, name) {
        Ok(text) if text.len() > MOST_FILE_BYTES => Err(too_long(file)),
        Ok(text) => Ok(text),
        Err(FileFault::Failed) => Err(Stop::Complaint(Complaint::Fault(file))),
        Err(FileFault::TooLong) => Err(too_long(file)),
        Err(FileFault::Memory) => Err(Stop::Memory),
    }
}

/// Why a run stops at a fault of a layout file.
fn stop_at_layout(fault: LayoutFault) -> Stop
    ensures { result ≡ (if lacks_memory fault then stop.Memory
        else stop.Complaint (complaint.Refused input.Layout (refusal.Layout fault))) }
{
    match fault {
        LayoutFault::Memory => Stop::Memory,
        _ => Stop::Complaint(Complaint::Refused(Input::Layout, Refusal::Layout(fault))),
    }
}

/// Why a run stops at a fault of a table.
fn stop_at(file: Input, fault: RowFault) -> Stop
    ensures { result ≡ (if wants_memory fault.why then stop.Memory
        else stop.Complaint (complaint.Refused file (refusal.Row fault))) }
{
    match fault.why {
        Why::Memory => Stop::Memory,
        _ => Stop::Complaint(Complaint::Refused(file, Refusal::Row(fault))),
    }
}

/// The layout that a layout file says.
pub fn layout_from<F: Files>(alloc: Global, files: &mut F, name: &str) -> Result<Layout, Stop>
    ensures said { IfOk result (IsSaid layout_in (F.told files.old).holds name.now) }
    ensures stops { IfErr result (StopsFor (of_file layout_in (F.told files.old)
        (F.told files.new) name.now Input.Layout)) }
    ensures same { SameBytes (F.told files.old).holds (F.told files.new).holds }
    ensures counts { NoneFalls (F.told files.old).faults (F.told files.new).faults }
    ensures once { OnOk result ((F.told files.new).reads ≡ (F.told files.old).reads + 1) }
    ensures reads { ReadsWithin (F.told files.old) (F.told files.new) 1 }
{
    let text = read_text(alloc, files, name, Input::Layout)?;
    match read_layout(alloc, &text) {
        Ok(layout) => Ok(layout),
        Err(fault) => Err(stop_at_layout(fault)),
    }
}

fn stock_from<F: Files>(
    alloc: Global,
    files: &mut F,
    name: &str,
    layout: &Layout,
) -> Result<Stock, Stop>
    ensures said { IfOk result (IsSaid (stock_in layout.now) (F.told files.old).holds name.now) }
    ensures read { IfOk result IsReadStock }
    ensures lies { IfOk result (LiesIn layout.now) }
    ensures stops { IfErr result (StopsFor (of_file (stock_in layout.now) (F.told files.old)
        (F.told files.new) name.now Input.Stock)) }
    ensures same { SameBytes (F.told files.old).holds (F.told files.new).holds }
    ensures counts { NoneFalls (F.told files.old).faults (F.told files.new).faults }
    ensures once { OnOk result ((F.told files.new).reads ≡ (F.told files.old).reads + 1) }
    ensures reads { ReadsWithin (F.told files.old) (F.told files.new) 1 }
{
    let text = read_text(alloc, files, name, Input::Stock)?;
    match read_stock(alloc, &text, layout) {
        Ok(stock) => Ok(stock),
        Err(fault) => Err(stop_at(Input::Stock, fault)),
    }
}

fn orders_from<F: Files>(
    alloc: Global,
    files: &mut F,
    name: &str,
    stock: &Stock,
) -> Result<Orders, Stop>
    ensures said { IfOk result (IsSaid (orders_in stock.now) (F.told files.old).holds name.now) }
    ensures read { IfOk result (AreReadOrders stock.now.articles) }
    ensures stops { IfErr result (StopsFor (of_file (orders_in stock.now) (F.told files.old)
        (F.told files.new) name.now Input.Orders)) }
    ensures same { SameBytes (F.told files.old).holds (F.told files.new).holds }
    ensures counts { NoneFalls (F.told files.old).faults (F.told files.new).faults }
    ensures once { OnOk result ((F.told files.new).reads ≡ (F.told files.old).reads + 1) }
    ensures reads { ReadsWithin (F.told files.old) (F.told files.new) 1 }
{
    let text = read_text(alloc, files, name, Input::Orders)?;
    match read_orders(alloc, &text, stock) {
        Ok(orders) => Ok(orders),
        Err(fault) => Err(stop_at(Input::Orders, fault)),
    }
}

/// The scripts that a desk file says.
pub fn scripts_from<F: Files>(alloc: Global, files: &mut F, name: &str) -> Result<Scripts, Stop>
    ensures said { IfOk result (IsSaid scripts_in (F.told files.old).holds name.now) }
    ensures read { IfOk result AreReadScripts }
    ensures stops { IfErr result (StopsFor (of_file scripts_in (F.told files.old)
        (F.told files.new) name.now Input.Desks)) }
    ensures same { SameBytes (F.told files.old).holds (F.told files.new).holds }
    ensures counts { NoneFalls (F.told files.old).faults (F.told files.new).faults }
    ensures once { OnOk result ((F.told files.new).reads ≡ (F.told files.old).reads + 1) }
    ensures reads { ReadsWithin (F.told files.old) (F.told files.new) 1 }
{
    let text = read_text(alloc, files, name, Input::Desks)?;
    match read_desks(alloc, &text) {
        Ok(scripts) => Ok(scripts),
        Err(fault) => Err(stop_at(Input::Desks, fault)),
    }
}

/// A layout, and the stock in it with the orders for it.
#[derive(Drop)]
pub struct Warehouse {
    pub layout: Layout,
    pub opening: Opening,
    pub ghost read: { IsReadOpening opening } by { Prim.hlevel props },
    pub ghost lies: { LiesIn layout opening.stock },
}

/// The names of the files that say a warehouse, and how many units its carts hold, 1 to 40,000,000, or none where they
/// hold any number.
#[derive(Clone, Copy)]
pub struct WarehouseNames<'a> {
    pub layout: &'a str,
    pub stock: &'a str,
    pub orders: &'a str,
    pub units: Option<u32>,
    pub ghost cart: { AreUnits units },
}

// The opening of a stock and of orders, for carts of these units.
fn opening_for(stock: Stock, orders: Orders, units: Option<u32>) -> Opening
    requires orders { AreReadOrders stock.articles orders }
    requires cart { AreUnits units }
    ensures { result ≡ opening_with (opening_of stock orders) units }
{
    match units {
        Some(units) => Opening::with_cart(stock, orders, units),
        None => Opening::of(stock, orders),
    }
}

/// Reads the layout, the stock file and the order file, one after the other. The first that isn't read stops it.
pub fn read_warehouse<F: Files>(
    alloc: Global,
    files: &mut F,
    names: &WarehouseNames<'_>,
) -> Result<Warehouse, Stop>
    ensures said { IfOk result (λ warehouse. HaveSaid (IsHeld (F.told files.old).holds)
        (opening_files names.now.layout.now names.now.stock.now names.now.orders.now)
        (tables_said warehouse.layout warehouse.opening)) }
    ensures units { IfOk result (λ warehouse. warehouse.opening.units ≡ names.now.units) }
    ensures stops { IfErr result (StopsFor (among (F.told files.old) (F.told files.new)
        (opening_files names.now.layout.now names.now.stock.now names.now.orders.now))) }
    ensures same { SameBytes (F.told files.old).holds (F.told files.new).holds }
    ensures counts { NoneFalls (F.told files.old).faults (F.told files.new).faults }
    ensures all { OnOk result ((F.told files.new).reads ≡ (F.told files.old).reads + 3) }
    ensures reads { ReadsWithin (F.told files.old) (F.told files.new) 3 }
{
    let layout = layout_from(alloc, files, names.layout)?;
    let stock = stock_from(alloc, files, names.stock, &layout)?;
    let orders = orders_from(alloc, files, names.orders, &stock)?;
    let opening = opening_for(stock, orders, names.units);
    Ok(Warehouse { layout, opening })
}
