//! Pictures of traces: drawn for a browser, in markup that is well-formed by its type, and in characters for a terminal.
#![tactic(auto)]

pub mod cells;
pub mod drawing;
mod filling;
pub mod labels;
pub mod layout;
pub mod leaf;
pub mod legend;
pub mod page;
pub mod picture;
pub mod say;
pub mod sheet;
pub mod signs;
pub mod style;

pub use cells::draw_text;
pub use drawing::{Drawn, Form, draw};
pub use leaf::Leaf;
pub use page::{Group, Page};
pub use picture::draw_picture;
pub use sheet::Looks;
