ghost use Rattle.std.specs.Prelude.{◌≡◌, ◌≤◌, ◌*◌, ◌^◌, min, None, false};
ghost use Rattle.wp_planner.specs.Terms.{AreTerms, budget_of};

use std::marker::Model;
use wp_node::price_of;
use wp_pairs::Capacity;

/// The greatest budget.
const MOST_BUDGET: u128 = 1_000_000_000_000_000_000;

// The budget of so many nodes at a price, but no more than the greatest budget.
fn budget_of_nodes(price: u128, nodes: u64) -> u64
    ensures value { result ≡ min (price * nodes) (10 ^ 18) }
    ensures most { result ≤ 10 ^ 18 }
{
    price.saturating_mul(u128::from(nodes)).min(MOST_BUDGET) as u64
}

/// What waves are planned with: how many orders a batch may have, 1 to 8; what may be spent on a wave's bound, 0 to 10
/// ^ 18, or in its place for how many nodes; and on how many threads, 1 to 16. And what is told of their plans besides:
/// whether their sheets tell what three usual rules would walk, and to how many pickers all batches are dealt, 0 to
/// 100, where 0 says that they aren't.
#[derive(Clone, Copy)]
pub struct Terms {
    capacity: u32,
    budget: u64,
    nodes: Option<u64>,
    workers: u32,
    rules: bool,
    pickers: u32,
    root: bool,
}

impl Model for Terms {
    ghost use Rattle.wp_planner.specs.Terms.{AreTerms, Terms as Numbers};

    ghost Value = { Numbers };

    ghost view = { λ t. record {
      capacity = t.capacity;
      budget = t.budget;
      nodes = t.nodes;
      workers = t.workers;
      rules = t.rules;
      pickers
          = t.pickers;
      root = t.root;
    } };

    ghost invariant = { λ t. AreTerms (record {
      capacity = t.capacity;
      budget = t.budget;
      nodes = t.nodes;
      workers = t.workers;
      rules = t.rules;
      pickers
          = t.pickers;
      root = t.root;
    }) };

    ghost inverse = { λ t. record {
      capacity = t.capacity;
      budget = t.budget;
      nodes = t.nodes;
      workers = t.workers;
      rules = t.rules;
      pickers
          = t.pickers;
      root = t.root;
    } };
}

impl Terms {
    /// The terms of three numbers within their ranges, with nothing told besides.
    pub fn of(capacity: u32, budget: u64, workers: u32) -> Terms
        requires { AreTerms (record {
          capacity = capacity;
          budget = budget;
          nodes = None;
          workers = workers;
          rules = false;
          pickers = 0;
          root = false;
        }) }
        ensures { result ≡ record {
          capacity = capacity;
          budget = budget;
          nodes = None;
          workers = workers;
          rules = false;
          pickers = 0;
          root = false;
        } }
    {
        Terms {
            capacity,
            budget,
            nodes: None,
            workers,
            rules: false,
            pickers: 0,
            root: false,
        }
    }

    /// The same, where each wave's search works for so many nodes, if the number is given, whatever the budget is.
    pub fn working_for(self, nodes: Option<u64>) -> Terms
        ensures { result ≡ record self { nodes = nodes } }
    {
        Terms { nodes, ..self }
    }

    /// The same with what is told besides: whether sheets tell what three usual rules would walk, to how many pickers
    /// all batches are dealt, 0 to 100, and whether sheets tell a bracket of the linear bound.
    pub fn telling(self, rules: bool, pickers: u32, root: bool) -> Terms
        requires { pickers ≤ 100 }
        ensures { result ≡ record self { rules = rules; pickers = pickers; root = root } }
    {
        Terms {
            rules,
            pickers,
            root,
            ..self
        }
    }

    /// How many orders a batch may have.
    pub fn capacity(&self) -> Capacity
        ensures { result.most ≡ self.now.capacity }
    {
        Capacity {
            most: self.capacity,
        }
    }

    // What may be spent on a wave's bound where there are no nodes, 0 to 10 ^ 18.
    fn budget(&self) -> u64
        ensures value { result ≡ self.now.budget }
        ensures most { result ≤ 10 ^ 18 }
    {
        self.budget
    }

    // For how many nodes each wave's search works, where that is given.
    fn nodes(&self) -> Option<u64>
        ensures { result ≡ self.now.nodes }
    {
        self.nodes
    }

    /// What may be spent on the bound of a wave of so many orders, 0 to 10 ^ 18: the budget, or where there are nodes
    /// their number times the wave's own price of a node, but no more than 10 ^ 18.
    pub fn budget_for(&self, orders: u32) -> u64
        requires { orders ≤ 64 }
        ensures value { result ≡ budget_of orders self.now }
        ensures most { result ≤ 10 ^ 18 }
    {
        match self.nodes() {
            None => self.budget(),
            Some(count) => budget_of_nodes(price_of(orders, self.capacity()), count),
        }
    }

    /// On how many threads, 1 to 16.
    pub fn workers(&self) -> u32
        ensures value { result ≡ self.now.workers }
        ensures some { 1 ≤ result }
        ensures most { result ≤ 16 }
    {
        self.workers
    }

    /// Whether sheets tell what three usual rules would walk.
    pub fn rules(&self) -> bool
        ensures { result ≡ self.now.rules }
    {
        self.rules
    }

    /// To how many pickers all batches are dealt, 0 to 100; 0 says that they aren't.
    pub fn pickers(&self) -> u32
        ensures value { result ≡ self.now.pickers }
        ensures most { result ≤ 100 }
    {
        self.pickers
    }

    /// Whether sheets tell a bracket of the linear bound.
    pub fn root(&self) -> bool
        ensures { result ≡ self.now.root }
    {
        self.root
    }
}
