//! The text of a certificate: JSON, read and written.

mod form;
mod node;
mod part;
mod printing;
mod ranges;
mod reading;
mod to_json;
mod wave;

pub use printing::print_certificate;
pub use reading::read_certificate;
