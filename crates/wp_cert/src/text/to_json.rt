ghost use Rattle.std.specs.Prelude.{◌≡◌, ◌<◌, ◌++◌, ◌∷◌, [], All, IfOk, None, OnOk, Some, codes, map, string_bytes, ⊤};
ghost use Rattle.std.specs.Prelude.{false, true};
ghost use Rattle.serde_json.specs.Data.{Data, put, string};
ghost use Rattle.serde_json.specs.View.{members_view, view};
ghost use Rattle.wp_pairs.specs.Batches.{IsBatch};
ghost use Rattle.wp_cert.specs.TextData.{AreTightBatches, IsKeptCut, IsKeptNode, IsPosition, batch_data, cut_data};
ghost use Rattle.wp_cert.specs.TextData.{dead_data, leaf_data, list_data, own_leaf_data, own_split_data};
ghost use Rattle.wp_cert.specs.TextData.{mark_code, marks_data, node_data, number_data, split_data};

use crate::{Node, Own, WrittenCut};
use serde_json::{Map, Value, json};
use std::alloc::{AllocError, Global};
use wp_lengths::Marks;
use wp_pairs::Batch;

/// What is printed as a value of JSON.
pub(crate) trait ToJson {
    /// The value as which it is printed. Contracts alone name it.
    ghost shown: { Self → Data };

    /// What is known of each that is printed. Contracts alone name it.
    ghost kept: { Self → Type 0 };

    /// The value as which it is printed.
    fn to_json(&self, alloc: Global) -> Result<Value, AllocError>
        ensures value { IfOk result (λ value. view value ≡ shown self.now) }
        ensures known { IfOk result (λ value. kept self.now) };
}

// The list of the values as which these are printed.
pub(crate) fn list_json<T: ToJson>(alloc: Global, parts: &[T]) -> Result<Value, AllocError>
    ensures value { IfOk result (λ value. view value ≡ list_data T.shown parts.now) }
    ensures known { IfOk result (λ value. All T.kept parts.now) }
{
    let mut values = Vec::new(alloc);
    for part in parts {
        values.push(part.to_json(alloc)?)?;
    }
    Ok(Value::Array(values))
}

impl ToJson for u64 {
    ghost shown = { number_data };

    ghost kept = { λ _. ⊤ };

    fn to_json(&self, _alloc: Global) -> Result<Value, AllocError> {
        Ok(Value::from(*self))
    }
}

impl ToJson for u32 {
    ghost shown = { number_data };

    ghost kept = { IsPosition };

    fn to_json(&self, _alloc: Global) -> Result<Value, AllocError> {
        Ok(Value::from(*self))
    }
}

impl ToJson for WrittenCut {
    ghost shown = { cut_data };

    ghost kept = { IsKeptCut };

    fn to_json(&self, alloc: Global) -> Result<Value, AllocError> {
        let mut members = Map::new(alloc);
        serde_json::put(&mut members, alloc, "divisor", Value::from(self.divisor()))?;
        serde_json::put(
            &mut members,
            alloc,
            "orders",
            list_json(alloc, self.orders())?,
        )?;
        serde_json::put(
            &mut members,
            alloc,
            "parts",
            list_json(alloc, self.parts())?,
        )?;
        Ok(Value::Object(members))
    }
}

impl ToJson for Batch {
    ghost shown = { batch_data };

    ghost kept = { IsBatch };

    fn to_json(&self, alloc: Global) -> Result<Value, AllocError> {
        let mut values = Vec::with_capacity(alloc, self.len() as usize)?;
        for order in 0..64 {
            if self.has(order) {
                values.push(Value::from(order))?;
            }
        }
        Ok(Value::Array(values))
    }
}

// The character of a mark.
fn mark_text(mark: bool) -> &'static str
    ensures { result.now ≡ mark_code mark ∷ [] }
{
    if mark { "1" } else { "0" }
}

// Marks as a text.
fn marks_json(alloc: Global, marks: &Marks) -> Result<Value, AllocError>
    ensures { IfOk result (λ value. view value ≡ marks_data marks.now) }
{
    let mut text = String::new(alloc);
    for place in 0..marks.len() {
        text.push_str(mark_text(marks.at(place)))?;
    }
    Ok(Value::String(text))
}

// Adds what a node has of its own to the members of its object.
fn put_own(alloc: Global, members: &mut Map<String, Value>, own: &Own) -> Result<(), AllocError>
    ensures value { OnOk result (members_view members.new.entries
        ≡ put (codes "tight") (list_data batch_data own.now.tight)
        (put (codes "marks") (marks_data own.now.marks) (put (codes "duals") (list_data number_data own.now.duals)
        (members_view members.old.entries)))) }
    ensures known { OnOk result (All IsBatch own.now.tight) }
{
    serde_json::put(
        members,
        alloc,
        "duals",
        list_json(alloc, own.duals.as_slice())?,
    )?;
    serde_json::put(members, alloc, "marks", marks_json(alloc, &own.marks)?)?;
    serde_json::put(
        members,
        alloc,
        "tight",
        list_json(alloc, own.tight.as_slice())?,
    )
}

// Adds what each batch pays and a price for each cut to the members of a node's object.
fn put_prices(alloc: Global, members: &mut Map<String, Value>, own: &Own) -> Result<(), AllocError>
    ensures { OnOk result (members_view members.new.entries
        ≡ put (codes "prices") (list_data number_data own.now.prices)
        (put (codes "count") (number_data own.now.count) (members_view members.old.entries))) }
{
    serde_json::put(members, alloc, "count", Value::from(own.count))?;
    serde_json::put(
        members,
        alloc,
        "prices",
        list_json(alloc, own.prices.as_slice())?,
    )
}

// Adds the kind of a node.
fn put_kind(alloc: Global, members: &mut Map<String, Value>, kind: &str) -> Result<(), AllocError>
    ensures { OnOk result (members_view members.new.entries
        ≡ put (codes "kind") (string kind.now) (members_view members.old.entries)) }
{
    serde_json::put(members, alloc, "kind", Value::try_from_str(alloc, kind)?)
}

// A leaf that keeps its parent's duals.
fn kept_json(alloc: Global) -> Result<Value, AllocError>
    ensures { IfOk result (λ value. view value ≡ leaf_data false None) }
{
    let mut members = Map::new(alloc);
    put_kind(alloc, &mut members, "kept")?;
    Ok(Value::Object(members))
}

// A leaf with duals of its own, where nothing else has a price.
fn plain_leaf_json(alloc: Global, own: &Own) -> Result<Value, AllocError>
    ensures value { IfOk result (λ value. view value ≡ own_leaf_data false own.now) }
    ensures known { IfOk result (λ value. All IsBatch own.now.tight) }
{
    let mut members = Map::new(alloc);
    put_kind(alloc, &mut members, "leaf")?;
    put_own(alloc, &mut members, own)?;
    Ok(Value::Object(members))
}

// A leaf with duals and prices of its own.
fn priced_leaf_json(alloc: Global, own: &Own) -> Result<Value, AllocError>
    ensures value { IfOk result (λ value. view value ≡ own_leaf_data true own.now) }
    ensures known { IfOk result (λ value. All IsBatch own.now.tight) }
{
    let mut members = Map::new(alloc);
    put_kind(alloc, &mut members, "leaf")?;
    put_own(alloc, &mut members, own)?;
    put_prices(alloc, &mut members, own)?;
    Ok(Value::Object(members))
}

// A leaf with duals of its own.
fn own_leaf_json(alloc: Global, third: bool, own: &Own) -> Result<Value, AllocError>
    ensures value { IfOk result (λ value. view value ≡ own_leaf_data third own.now) }
    ensures known { IfOk result (λ value. All IsBatch own.now.tight) }
{
    if third {
        priced_leaf_json(alloc, own)
    } else {
        plain_leaf_json(alloc, own)
    }
}

// A leaf.
fn leaf_json(alloc: Global, third: bool, own: &Option<Own>) -> Result<Value, AllocError>
    ensures value { IfOk result (λ value. view value ≡ leaf_data third own.now) }
    ensures known { IfOk result (λ value. AreTightBatches own.now) }
{
    match own {
        None => kept_json(alloc),
        Some(own) => own_leaf_json(alloc, third, own),
    }
}

// Adds kind and pair of a split.
fn put_split(
    alloc: Global,
    members: &mut Map<String, Value>,
    first: u32,
    second: u32,
) -> Result<(), AllocError>
    ensures { OnOk result (members_view members.new.entries
        ≡ put (codes "second") (number_data second) (put (codes "first") (number_data first)
        (put (codes "kind") (string (codes "split")) (members_view members.old.entries)))) }
{
    put_kind(alloc, members, "split")?;
    serde_json::put(members, alloc, "first", Value::from(first))?;
    serde_json::put(members, alloc, "second", Value::from(second))
}

// A split that keeps its parent's duals.
fn kept_split_json(alloc: Global, first: u32, second: u32) -> Result<Value, AllocError>
    ensures { IfOk result (λ value. view value ≡ split_data false first second None) }
{
    let mut members = Map::new(alloc);
    put_split(alloc, &mut members, first, second)?;
    Ok(Value::Object(members))
}

// A split with duals of its own, where nothing else has a price.
fn plain_split_json(alloc: Global, first: u32, second: u32, own: &Own) -> Result<Value, AllocError>
    ensures value { IfOk result (λ value. view value
        ≡ own_split_data false first second own.now) }
    ensures known { IfOk result (λ value. All IsBatch own.now.tight) }
{
    let mut members = Map::new(alloc);
    put_split(alloc, &mut members, first, second)?;
    put_own(alloc, &mut members, own)?;
    Ok(Value::Object(members))
}

// A split with duals and prices of its own.
fn priced_split_json(alloc: Global, first: u32, second: u32, own: &Own) -> Result<Value, AllocError>
    ensures value { IfOk result (λ value. view value ≡ own_split_data true first second own.now) }
    ensures known { IfOk result (λ value. All IsBatch own.now.tight) }
{
    let mut members = Map::new(alloc);
    put_split(alloc, &mut members, first, second)?;
    put_own(alloc, &mut members, own)?;
    put_prices(alloc, &mut members, own)?;
    Ok(Value::Object(members))
}

// A split with duals of its own.
fn own_split_json(
    alloc: Global,
    third: bool,
    first: u32,
    second: u32,
    own: &Own,
) -> Result<Value, AllocError>
    ensures value { IfOk result (λ value. view value
        ≡ own_split_data third first second own.now) }
    ensures known { IfOk result (λ value. All IsBatch own.now.tight) }
{
    if third {
        priced_split_json(alloc, first, second, own)
    } else {
        plain_split_json(alloc, first, second, own)
    }
}

// A split on a pair of orders.
fn split_json(
    alloc: Global,
    third: bool,
    first: u32,
    second: u32,
    own: &Option<Own>,
) -> Result<Value, AllocError>
    ensures value { IfOk result (λ value. view value
        ≡ split_data third first second own.now) }
    ensures known { IfOk result (λ value. AreTightBatches own.now) }
{
    match own {
        None => kept_split_json(alloc, first, second),
        Some(own) => own_split_json(alloc, third, first, second, own),
    }
}

// A node: in the third form with prices.
fn node_json(alloc: Global, third: bool, node: &Node) -> Result<Value, AllocError>
    ensures value { IfOk result (λ value. view value ≡ node_data third node.now) }
    ensures known { IfOk result (λ value. IsKeptNode node.now) }
{
    match node {
        Node::Leaf(own) => leaf_json(alloc, third, own),
        Node::Split { first, second, own } => split_json(alloc, third, *first, *second, own),
        Node::Dead(order) => json!(in alloc; {"kind": "dead", "order": *order}),
    }
}

/// The list of the values as which nodes are printed: in the third form with prices.
pub(crate) fn nodes_json(alloc: Global, third: bool, nodes: &[Node]) -> Result<Value, AllocError>
    ensures value { IfOk result (λ value. view value ≡ list_data (node_data third) nodes.now) }
    ensures known { IfOk result (λ value. All IsKeptNode nodes.now) }
{
    let mut values = Vec::new(alloc);
    for node in nodes {
        values.push(node_json(alloc, third, node)?)?;
    }
    Ok(Value::Array(values))
}
