ghost use Rattle.std.specs.Prelude.{◌≡◌, ◌++◌, ◌<◌, ◌≤◌, ◌^◌, ◌∷◌, [], IfOk, IfErr, IfSome, None, Some, codes};
ghost use Rattle.std.specs.Prelude.{option_and_then};
ghost use Rattle.serde_json.specs.View.{view};
ghost use Rattle.wp_cert.specs.Text.{batch_said, cut_said, dead_said, each_of, has_keys, keys_in, kept_said, leaf_said, list_said};
ghost use Rattle.wp_cert.specs.Text.{mark_said, marks_said, number_said};
ghost use Rattle.wp_cert.specs.Text.{node_of_kind, node_said, own_said, place_said, plain_own_said, position_said, priced_said, said_at};
ghost use Rattle.wp_cert.specs.Text.{split_own_said, split_said, within};
ghost use Rattle.wp_cert.specs.declared.text.form.Unread.TheVariants as unread;

use crate::text::form::{Unread, WrittenSlot};
use crate::text::part::{CertificatePart, list_at, read_at, read_list};
use crate::{Node, Nodes, Own, WrittenCut};
use serde_json::Value;
use std::alloc::Global;
use wp_lengths::Marks;
use wp_model::Listing;
use wp_pairs::Batch;

impl CertificatePart for WrittenSlot {
    ghost said = { place_said };

    fn read(_alloc: Global, value: &Value) -> Result<WrittenSlot, Unread> {
        if value.get(2usize).is_some() {
            return Err(Unread::BadShape);
        }
        let aisle = value
            .get(0usize)
            .and_then(Value::as_u64)
            .ok_or(Unread::BadShape)?;
        let slot = value
            .get(1usize)
            .and_then(Value::as_u64)
            .ok_or(Unread::BadShape)?;
        Ok(WrittenSlot { aisle, slot })
    }
}

impl CertificatePart for Listing<WrittenSlot> {
    ghost said = { list_said place_said };

    fn read(alloc: Global, value: &Value) -> Result<Listing<WrittenSlot>, Unread> {
        read_list(alloc, value)
    }
}

// Whether a value is an object with so many keys.
pub(crate) fn has_keys(value: &Value, count: usize) -> bool
    ensures { result ≡ has_keys count (view value.now) }
{
    match value.as_object() {
        Some(members) => members.len() == count,
        None => false,
    }
}

// The order that a value says, from the least on and below 64.
fn order_in(value: &Value, least: u32) -> Option<u32>
    requires { least < 65 }
    ensures value { result ≡ option_and_then (within least 64) (number_said (view value.now)) }
    ensures range { IfSome result (λ order. (least ≤ order) × (order < 64)) }
{
    let order = value.as_u64()?;
    if u64::from(least) <= order && order < 64 {
        Some(order as u32)
    } else {
        None
    }
}

// The order at a key, which may be any number of 32 bits.
fn order_at(value: &Value, key: &str) -> Result<u32, Unread>
    ensures ok { IfOk result (λ order. said_at position_said key.now (view value.now)
        ≡ Some order) }
    ensures bad { IfErr result (λ fault. said_at position_said key.now (view value.now) ≡ None) }
{
    let order = value
        .get(key)
        .and_then(Value::as_u64)
        .ok_or(Unread::BadShape)?;
    if order <= 4_294_967_295 {
        Ok(order as u32)
    } else {
        Err(Unread::BadShape)
    }
}

impl CertificatePart for Batch {
    ghost said = { batch_said };

    fn read(_alloc: Global, value: &Value) -> Result<Batch, Unread> {
        let items = value.as_array().ok_or(Unread::BadShape)?;
        let mut batch = Batch::empty();
        let mut least = 0;
        for item in items {
            let order = order_in(item, least).ok_or(Unread::BadShape)?;
            batch = batch.with(order);
            least = order + 1;
        }
        Ok(batch)
    }
}

// The mark that a character says.
fn mark_in(code: u8) -> Option<bool>
    ensures { result ≡ mark_said code }
{
    match code {
        b'1' => Some(true),
        b'0' => Some(false),
        _ => None,
    }
}

// The marks that the characters of a text say.
fn read_marks(alloc: Global, text: &str) -> Result<Marks, Unread>
    ensures ok { IfOk result (λ marks. each_of mark_said text.now ≡ Some marks) }
    ensures bad { IfErr result (λ fault. fault ≡ unread.BadShape → each_of mark_said text.now
        ≡ None) }
{
    let mut marks = Marks::new(alloc);
    for code in text.as_bytes() {
        marks.push(mark_in(*code).ok_or(Unread::BadShape)?)?;
    }
    Ok(marks)
}

// The marks at a key.
fn marks_at(alloc: Global, value: &Value, key: &str) -> Result<Marks, Unread>
    ensures ok { IfOk result (λ marks. said_at marks_said key.now (view value.now) ≡ Some marks) }
    ensures bad { IfErr result (λ fault. fault ≡ unread.BadShape
        → said_at marks_said key.now (view value.now) ≡ None) }
{
    let text = value
        .get(key)
        .and_then(Value::as_str)
        .ok_or(Unread::BadShape)?;
    read_marks(alloc, text)
}

impl CertificatePart for u32 {
    ghost said = { position_said };

    fn read(_alloc: Global, value: &Value) -> Result<u32, Unread> {
        let number = value.as_u64().ok_or(Unread::BadShape)?;
        if number <= 4_294_967_295 {
            Ok(number as u32)
        } else {
            Err(Unread::BadShape)
        }
    }
}

impl CertificatePart for WrittenCut {
    ghost said = { cut_said };

    fn read(alloc: Global, value: &Value) -> Result<WrittenCut, Unread> {
        if !has_keys(value, 3) {
            return Err(Unread::BadShape);
        }
        let divisor = read_at(alloc, value, "divisor")?;
        let orders = list_at(alloc, value, "orders")?;
        let parts = list_at(alloc, value, "parts")?;
        Ok(WrittenCut::of(divisor, orders, parts))
    }
}

// The duals, the marks and the tight batches of a node; nothing else has a price.
fn read_plain(alloc: Global, value: &Value) -> Result<Own, Unread>
    ensures ok { IfOk result (λ own. plain_own_said (view value.now) ≡ Some own) }
    ensures bad { IfErr result (λ fault. fault ≡ unread.BadShape → plain_own_said (view value.now)
        ≡ None) }
{
    let duals = list_at(alloc, value, "duals")?;
    let marks = marks_at(alloc, value, "marks")?;
    let tight = list_at(alloc, value, "tight")?;
    Ok(Own::plain(alloc, duals, marks, tight))
}

// What a node has of its own, with what each batch pays and a price for each cut.
fn read_priced(alloc: Global, value: &Value, own: Own) -> Result<Own, Unread>
    ensures ok { IfOk result (λ priced. priced_said (view value.now) own ≡ Some priced) }
    ensures bad { IfErr result (λ fault. fault ≡ unread.BadShape → priced_said (view value.now) own
        ≡ None) }
{
    let count = read_at(alloc, value, "count")?;
    let prices = list_at(alloc, value, "prices")?;
    let Own {
        duals,
        marks,
        tight,
        ..
    } = own;
    Ok(Own {
        duals,
        marks,
        tight,
        count,
        prices,
    })
}

// What a node has of its own: in the third form with prices.
fn read_own(alloc: Global, value: &Value, third: bool) -> Result<Own, Unread>
    ensures ok { IfOk result (λ own. own_said third (view value.now) ≡ Some own) }
    ensures bad { IfErr result (λ fault. fault ≡ unread.BadShape → own_said third (view value.now)
        ≡ None) }
{
    let own = read_plain(alloc, value)?;
    if third {
        read_priced(alloc, value, own)
    } else {
        Ok(own)
    }
}

// So many keys, and in the third form two more.
pub(crate) fn keys_in(third: bool, count: usize) -> usize
    requires { count ≤ 8 }
    ensures { result ≡ keys_in third count }
{
    if third { count + 2 } else { count }
}

// A leaf that keeps its parent's duals.
fn read_kept(value: &Value) -> Result<Node, Unread>
    ensures ok { IfOk result (λ node. kept_said (view value.now) ≡ Some node) }
    ensures bad { IfErr result (λ fault. kept_said (view value.now) ≡ None) }
{
    if has_keys(value, 1) {
        Ok(Node::Leaf(None))
    } else {
        Err(Unread::BadShape)
    }
}

// A leaf with duals of its own.
fn read_leaf(alloc: Global, value: &Value, third: bool) -> Result<Node, Unread>
    ensures ok { IfOk result (λ node. leaf_said third (view value.now) ≡ Some node) }
    ensures bad { IfErr result (λ fault. fault ≡ unread.BadShape → leaf_said third (view value.now)
        ≡ None) }
{
    if has_keys(value, keys_in(third, 4)) {
        Ok(Node::Leaf(Some(read_own(alloc, value, third)?)))
    } else {
        Err(Unread::BadShape)
    }
}

// What a split has of its own: all of it or nothing.
fn read_split_own(alloc: Global, value: &Value, third: bool) -> Result<Option<Own>, Unread>
    ensures ok { IfOk result (λ own. split_own_said third (view value.now) ≡ Some own) }
    ensures bad { IfErr result (λ fault. fault ≡ unread.BadShape → split_own_said third (view value.now)
        ≡ None) }
{
    if has_keys(value, 3) {
        Ok(None)
    } else if has_keys(value, keys_in(third, 6)) {
        Ok(Some(read_own(alloc, value, third)?))
    } else {
        Err(Unread::BadShape)
    }
}

// A split on a pair of orders.
fn read_split(alloc: Global, value: &Value, third: bool) -> Result<Node, Unread>
    ensures ok { IfOk result (λ node. split_said third (view value.now) ≡ Some node) }
    ensures bad { IfErr result (λ fault. fault ≡ unread.BadShape → split_said third (view value.now)
        ≡ None) }
{
    let first = order_at(value, "first")?;
    let second = order_at(value, "second")?;
    let own = read_split_own(alloc, value, third)?;
    Ok(Node::Split { first, second, own })
}

// A leaf with an order that no permitted batch holds.
fn read_dead(value: &Value) -> Result<Node, Unread>
    ensures ok { IfOk result (λ node. dead_said (view value.now) ≡ Some node) }
    ensures bad { IfErr result (λ fault. dead_said (view value.now) ≡ None) }
{
    if has_keys(value, 2) {
        Ok(Node::Dead(order_at(value, "order")?))
    } else {
        Err(Unread::BadShape)
    }
}

// A node of this kind.
fn read_kind(alloc: Global, value: &Value, third: bool, kind: &str) -> Result<Node, Unread>
    ensures ok { IfOk result (λ node. node_of_kind third (view value.now) kind.now ≡ Some node) }
    ensures bad { IfErr result (λ fault. fault ≡ unread.BadShape
        → node_of_kind third (view value.now) kind.now ≡ None) }
{
    if kind == "kept" {
        read_kept(value)
    } else if kind == "leaf" {
        read_leaf(alloc, value, third)
    } else if kind == "split" {
        read_split(alloc, value, third)
    } else if kind == "dead" {
        read_dead(value)
    } else {
        Err(Unread::BadShape)
    }
}

// A node.
fn read_node(alloc: Global, value: &Value, third: bool) -> Result<Node, Unread>
    ensures ok { IfOk result (λ node. node_said third (view value.now) ≡ Some node) }
    ensures bad { IfErr result (λ fault. fault ≡ unread.BadShape → node_said third (view value.now)
        ≡ None) }
{
    let kind = value
        .get("kind")
        .and_then(Value::as_str)
        .ok_or(Unread::BadShape)?;
    read_kind(alloc, value, third, kind)
}

// The nodes that the items of a list say.
fn read_nodes(alloc: Global, value: &Value, third: bool) -> Result<Vec<Node>, Unread>
    ensures ok { IfOk result (λ nodes. list_said (node_said third) (view value.now)
        ≡ Some nodes.items) }
    ensures bad { IfErr result (λ fault. fault ≡ unread.BadShape
        → list_said (node_said third) (view value.now) ≡ None) }
{
    let items = value.as_array().ok_or(Unread::BadShape)?;
    let mut nodes = Vec::new(alloc);
    for item in items {
        nodes.push(read_node(alloc, item, third)?)?;
    }
    Ok(nodes)
}

/// The nodes at the key of the nodes: in the third form with prices.
pub(crate) fn nodes_of(alloc: Global, value: &Value, third: bool) -> Result<Nodes, Unread>
    ensures ok { IfOk result (λ nodes. said_at (list_said (node_said third)) (codes "nodes")
        (view value.now) ≡ Some nodes) }
    ensures bad { IfErr result (λ fault. fault ≡ unread.BadShape
        → said_at (list_said (node_said third)) (codes "nodes") (view value.now) ≡ None) }
{
    let member = value.get("nodes").ok_or(Unread::BadShape)?;
    Ok(Nodes::of(read_nodes(alloc, member, third)?))
}
