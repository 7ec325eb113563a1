//! The layout file: a JSON object of a version and the numbers of a layout, in version 2 with its spacings as a list
//! and the name of the end at which the depot lies.
//!
//! Reading tests one thing after another, and answers with the layout or with the first test that fails. What is
//! printed of a layout is read again as the same layout.
#![tactic(auto)]

mod fault;
mod key;
mod printing;
mod reading;
mod spacings;

pub use fault::LayoutFault;
pub use key::Key;
pub use printing::print_layout;
pub use reading::read_layout;
pub use wp_graph::Layout;
pub use wp_model::Memory;
