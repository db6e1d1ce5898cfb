//! Values of attributes.

use crate::text::Text;

/// The value of an attribute (CloudEvents 1.0.2, "Type System"). A whole number has 32 bits.
#[derive(Drop)]
pub enum Scalar {
    Flag(bool),
    Whole(i32),
    Words(Text),
}

/// What is offered as the value of an attribute. `Other` is of no attribute type.
#[derive(Drop)]
pub enum Given {
    Flag(bool),
    Whole(i32),
    Words(Text),
    Other,
}
