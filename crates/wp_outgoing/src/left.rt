//! Open orders that are left, and why.
ghost use Rattle.std.specs.Prelude.{◌≡◌, IfOk, Some};
ghost use Rattle.wp_outgoing.specs.Leaving.{left_after, left_for};
ghost use Rattle.wp_outgoing.specs.Lines.{left_order_text, left_text};

use std::fmt;
use wp_model::{Memory, Name};

/// Why an open order doesn't go out now.
#[derive(Clone, Copy)]
pub enum LeftWhy {
    /// It lies in the wave of this name, which isn't cancelled.
    Taken(Name),
    /// It has so many units, which are more than a cart holds.
    OverCart(u32),
    /// It wants so many units of this article, of which so many were free in its turn.
    Short {
        article: Name,
        wanted: u64,
        free: u64,
    },
    /// It is served, and goes out with a later wave.
    Later,
}

/// An open order that doesn't go out now.
#[derive(Clone, Copy)]
pub struct LeftOrder {
    pub order: Name,
    pub why: LeftWhy,
}

impl fmt::Display for LeftWhy {
    ghost output = { λ why. Some (left_text why) };

    fn fmt<W: fmt::Write>(&self, f: &mut fmt::Formatter<W>) -> fmt::Result {
        match self {
            LeftWhy::Taken(wave) => write!(f, "in {wave}"),
            LeftWhy::OverCart(units) => write!(f, "over-cart {units}"),
            LeftWhy::Short {
                article,
                wanted,
                free,
            } => write!(f, "short {article} {wanted} {free}"),
            LeftWhy::Later => f.write_str("later"),
        }
    }
}

impl fmt::Display for LeftOrder {
    ghost output = { λ left. Some (left_order_text left) };

    fn fmt<W: fmt::Write>(&self, f: &mut fmt::Formatter<W>) -> fmt::Result {
        let order = self.order;
        let why = self.why;
        write!(f, "{order} {why}")
    }
}

/// Adds an order that is left, where it is, with why.
pub(crate) fn add_left(
    left: &mut Vec<LeftOrder>,
    order: Name,
    why: Option<LeftWhy>,
) -> Result<(), Memory>
    ensures { IfOk result (λ _. left.new.items ≡ left_after left.old.items (left_for order why)) }
{
    match why {
        Some(why) => Ok(left.push(LeftOrder { order, why })?),
        None => Ok(()),
    }
}
