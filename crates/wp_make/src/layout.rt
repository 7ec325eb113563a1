//! The made layout.
ghost use Rattle.std.specs.Prelude.{◌≡◌, ◌≤◌, ◌++◌, IfOk, Ok};
ghost use Rattle.wp_layout.specs.LayoutFile.{layout_said};
ghost use Rattle.wp_layout.specs.LayoutText.{layout_text};
ghost use Rattle.wp_make.specs.Texts.{made_layout};
ghost use Rattle.wp_model.specs.Journal.{line};

use crate::generator::SLOTS;
use std::alloc::Global;
use wp_graph::Layout;
use wp_layout::print_layout;
use wp_model::Memory;

/// The length between neighbouring slots, that from an end of an aisle to its nearest slot, and that between
/// neighbouring aisles.
const PITCH: u32 = 2;

const CLEARANCE: u32 = 1;

const SPACING: u32 = 5;

/// The layout of so many aisles, 1 to 64, of 40 slots each, with the depot in the middle.
pub fn made_layout(aisles: u32) -> Layout
    requires some { 1 ≤ aisles }
    requires most { aisles ≤ 64 }
    ensures { result ≡ made_layout aisles }
{
    let depot = (aisles + 1) / 2;
    Layout::new(aisles, SLOTS, PITCH, CLEARANCE, SPACING, depot).unwrap()
}

/// The text of the layout with so many aisles, and a line feed.
pub(crate) fn made_layout_text(alloc: Global, aisles: u32) -> Result<Vec<u8>, Memory>
    requires some { 1 ≤ aisles }
    requires most { aisles ≤ 64 }
    ensures text { IfOk result (λ text. text.items ≡ line (layout_text (made_layout aisles))) }
    ensures reads_back { IfOk result (λ text. layout_said text.items ≡ Ok (made_layout aisles)) }
{
    let mut text = print_layout(alloc, &made_layout(aisles))?;
    text.push(b'\n')?;
    Ok(text)
}
