ghost use Rattle.std.specs.Prelude.{◌≡◌, ◌≢◌, ◌≤◌, ◌<◌, ◌^◌, ◌↔◌, ℕ, [], ◌∷◌, ◌++◌, All, Contains, IfOk, IfErr, IfSome};
ghost use Rattle.std.specs.Prelude.{IfNone, IsTrue, length};
ghost use Rattle.wp_master.specs.Pools.{AreCovered, IsCovered, IsFirstUncovered, IsPool, column_of};

use crate::column::Column;
use std::alloc::Global;
use std::marker::Model;
use wp_model::Memory;
use wp_pairs::Batch;

/// Columns over so many orders. Contracts see the number of orders and the columns in the order of adding.
#[derive(Drop)]
pub struct Pool {
    orders: u32,
    columns: Vec<Column>,
}

impl Model for Pool {
    ghost use Rattle.wp_master.specs.Pools.{ColumnPool, IsPool};

    ghost Value = { ColumnPool };

    ghost view = { λ p. record { orders = p.orders; columns = p.columns.items } };

    ghost invariant = { λ p. IsPool (record { orders = p.orders; columns = p.columns.items }) };
}

impl Pool {
    /// No column, over 1 to 64 orders. `Memory` comes only where memory is wanting.
    pub fn new(alloc: Global, orders: u32) -> Result<Pool, Memory>
        requires some { 1 ≤ orders }
        requires most { orders ≤ 64 }
        ensures { IfOk result (λ pool. pool ≡ record { orders = orders; columns = [] }) }
    {
        Ok(Pool {
            orders,
            columns: Vec::new(alloc),
        })
    }

    /// Adds a column behind the others: a batch of one order or more of the pool, and its length, below 2 ^ 40. After
    /// `Memory`, which comes only where memory is wanting, the pool is as before.
    pub fn add(&mut self, batch: Batch, length: u64) -> Result<(), Memory>
        requires filled { batch ≢ [] }
        requires known { All (λ order. order < self.old.orders) batch }
        requires short { length < 2 ^ 40 }
        ensures added { IfOk result (λ _. self.new ≡ record {
          orders = self.old.orders;
          columns = self.old.columns ++ record { batch = batch; length = length } ∷ [];
        }) }
        ensures same { IfErr result (λ _. self.new ≡ self.old) }
    {
        self.columns.push(Column { batch, length })?;
        Ok(())
    }

    /// The number of orders, 1 to 64.
    pub fn orders(&self) -> u32
        ensures value { result ≡ self.now.orders }
        ensures valid { IsPool self.now }
    {
        self.orders
    }

    /// The number of columns, below 2 ^ 63.
    pub fn len(&self) -> usize
        ensures value { result ≡ length self.now.columns }
        ensures few { result < 2 ^ 63 }
        ensures valid { IsPool self.now }
    {
        self.columns.len()
    }

    /// A column, by its place in the order of adding.
    pub fn column(&self, i: usize) -> Column
        requires { i < length self.now.columns }
        ensures value { result ≡ column_of self.now i }
        ensures valid { IsPool self.now }
    {
        self.columns[i]
    }

    // Whether some column holds the order.
    fn covers(&self, order: u32) -> bool
        ensures { IsTrue result ↔ IsCovered self.now order }
    {
        self.columns.iter().any(|column| column.batch.has(order))
    }

    /// The least order that no column holds. None comes exactly where each order is held.
    pub fn first_uncovered(&self) -> Option<u32>
        ensures some { IfSome result (λ order. IsFirstUncovered self.now order) }
        ensures none { IfNone result (AreCovered self.now self.now.orders) }
    {
        for order in 0..self.orders {
            if !self.covers(order) {
                return Some(order);
            }
        }
        None
    }
}
