ghost use Rattle.std.specs.Prelude.{Some};
ghost use Rattle.wp_model.specs.Journal.{reply_text, wave_state_text};

use crate::location::Location;
use crate::name::Name;
use std::fmt;

/// How far a wave is.
#[derive(Clone, Copy, Debug, PartialEq, Eq)]
pub enum WaveState {
    Submitted,
    Allotted,
    Released,
    Cancelled,
    Done,
}

/// What a command is answered. The first eight say that it was done, and the others refuse it.
#[derive(Clone, Copy, Debug, PartialEq, Eq)]
pub enum Reply {
    Submitted,
    Allotted,
    Released,
    Cancelled,
    Picked,
    Received,
    /// So many units were written off, and as many held elsewhere.
    Refilled(u32),
    /// So many units of the article were written off, and none held in their place.
    Lost {
        article: Name,
        units: u32,
    },
    NoOrders,
    /// So many orders were named, more than a wave may have.
    WaveFull(u32),
    KnownWave,
    UnknownOrder(Name),
    OrderTwice(Name),
    /// The order lies in this wave already.
    OrderTaken {
        order: Name,
        wave: Name,
    },
    /// The order has so many units, more than a cart holds.
    OverCart {
        order: Name,
        units: u32,
    },
    UnknownWave,
    WrongState(WaveState),
    /// The wave wants more units of the article than are free.
    Short {
        article: Name,
        wanted: u64,
        free: u64,
    },
    Picking,
    NotHeld(Location),
    /// Only so many units are held there.
    TooMuch(u32),
    NoRow,
    /// The row is of this article.
    OtherArticle(Name),
    /// So many units are on hand already.
    TooMany(u32),
}

impl fmt::Display for WaveState {
    ghost output = { λ state. Some (wave_state_text state) };

    fn fmt<W: fmt::Write>(&self, f: &mut fmt::Formatter<W>) -> fmt::Result {
        f.write_str(match self {
            WaveState::Submitted => "submitted",
            WaveState::Allotted => "allotted",
            WaveState::Released => "released",
            WaveState::Cancelled => "cancelled",
            WaveState::Done => "done",
        })
    }
}

impl fmt::Display for Reply {
    ghost output = { λ reply. Some (reply_text reply) };

    fn fmt<W: fmt::Write>(&self, f: &mut fmt::Formatter<W>) -> fmt::Result {
        match self {
            Reply::Submitted => f.write_str("submitted"),
            Reply::Allotted => f.write_str("allotted"),
            Reply::Released => f.write_str("released"),
            Reply::Cancelled => f.write_str("cancelled"),
            Reply::Picked => f.write_str("picked"),
            Reply::Received => f.write_str("received"),
            Reply::Refilled(units) => write!(f, "refilled {units}"),
            Reply::Lost { article, units } => write!(f, "lost {article} {units}"),
            Reply::NoOrders => f.write_str("refused no-orders"),
            Reply::WaveFull(orders) => write!(f, "refused wave-full {orders}"),
            Reply::KnownWave => f.write_str("refused known-wave"),
            Reply::UnknownOrder(order) => write!(f, "refused unknown-order {order}"),
            Reply::OrderTwice(order) => write!(f, "refused order-twice {order}"),
            Reply::OrderTaken { order, wave } => { write!(f, "refused order-taken {order} {wave}") }
            Reply::OverCart { order, units } => write!(f, "refused over-cart {order} {units}"),
            Reply::UnknownWave => f.write_str("refused unknown-wave"),
            Reply::WrongState(state) => write!(f, "refused wrong-state {state}"),
            Reply::Short {
                article,
                wanted,
                free,
            } => write!(f, "refused short {article} {wanted} {free}"),
            Reply::Picking => f.write_str("refused picking"),
            Reply::NotHeld(location) => write!(f, "refused not-held {location}"),
            Reply::TooMuch(held) => write!(f, "refused too-much {held}"),
            Reply::NoRow => f.write_str("refused no-row"),
            Reply::OtherArticle(article) => write!(f, "refused other-article {article}"),
            Reply::TooMany(on_hand) => write!(f, "refused too-many {on_hand}"),
        }
    }
}
