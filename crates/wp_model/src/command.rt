ghost use Rattle.std.specs.Prelude.{◌≡◌, Some, IfOk};
ghost use Rattle.std.specs.Fmt.{WritesOnOk};
ghost use Rattle.std.specs.List.{flat_map};
ghost use Rattle.wp_model.specs.Journal.{after_space, command_text};

use crate::location::Location;
use crate::memory::Memory;
use crate::name::{Name, Names};
use std::alloc::Global;
use std::fmt;

/// What a desk asks for. Orders, articles and waves are named; quantities are units.
#[derive(Drop)]
pub enum Command {
    /// Makes a wave of these orders, in this order.
    Submit {
        wave: Name,
        orders: Names,
    },
    /// Holds stock for a wave.
    Allot {
        wave: Name,
    },
    /// Sends a wave to the pickers, and holds stock for it where that isn't done yet.
    Release {
        wave: Name,
    },
    /// Gives a wave up, and gives what it holds back.
    Cancel {
        wave: Name,
    },
    /// Tells that units that are held for an order at a location were picked.
    Pick {
        wave: Name,
        order: Name,
        location: Location,
        quantity: u32,
    },
    /// Tells that units that are held for an order at a location aren't there.
    Missing {
        wave: Name,
        order: Name,
        location: Location,
        quantity: u32,
    },
    /// Tells that units of an article came in at a location.
    Receive {
        location: Location,
        article: Name,
        quantity: u32,
    },
}

impl Command {
    /// An equal command.
    pub fn copy(&self, alloc: Global) -> Result<Command, Memory>
        ensures { IfOk result (λ copy. copy ≡ self.now) }
    {
        Ok(match self {
            Command::Submit { wave, orders } => Command::Submit {
                wave: *wave,
                orders: orders.copy(alloc)?,
            },
            Command::Allot { wave } => Command::Allot { wave: *wave },
            Command::Release { wave } => Command::Release { wave: *wave },
            Command::Cancel { wave } => Command::Cancel { wave: *wave },
            Command::Pick {
                wave,
                order,
                location,
                quantity,
            } => Command::Pick {
                wave: *wave,
                order: *order,
                location: *location,
                quantity: *quantity,
            },
            Command::Missing {
                wave,
                order,
                location,
                quantity,
            } => Command::Missing {
                wave: *wave,
                order: *order,
                location: *location,
                quantity: *quantity,
            },
            Command::Receive {
                location,
                article,
                quantity,
            } => Command::Receive {
                location: *location,
                article: *article,
                quantity: *quantity,
            },
        })
    }
}

fn write_names<W: fmt::Write>(f: &mut fmt::Formatter<W>, names: &[Name]) -> fmt::Result
    ensures { WritesOnOk W.write_str_gives f.old result (flat_map after_space names.now) f.new }
{
    for name in names {
        write!(f, " {name}")?;
    }
    Ok(())
}

impl fmt::Display for Command {
    ghost output = { λ command. Some (command_text command) };

    fn fmt<W: fmt::Write>(&self, f: &mut fmt::Formatter<W>) -> fmt::Result {
        match self {
            Command::Submit { wave, orders } => {
                write!(f, "submit {wave}")?;
                write_names(f, orders.as_slice())
            }
            Command::Allot { wave } => write!(f, "allot {wave}"),
            Command::Release { wave } => write!(f, "release {wave}"),
            Command::Cancel { wave } => write!(f, "cancel {wave}"),
            Command::Pick {
                wave,
                order,
                location,
                quantity,
            } => write!(f, "pick {wave} {order} {location} {quantity}"),
            Command::Missing {
                wave,
                order,
                location,
                quantity,
            } => write!(f, "missing {wave} {order} {location} {quantity}"),
            Command::Receive {
                location,
                article,
                quantity,
            } => write!(f, "receive {location} {article} {quantity}"),
        }
    }
}
