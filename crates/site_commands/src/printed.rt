//! What a plan is answered with.
use attributes::Text;
use databases::EventPages;

/// What is to be written of an answer.
#[derive(Drop)]
pub enum Printed {
    /// One text.
    Line(Text),
    /// One text, for which a service was made.
    Founded(Text),
    /// The pages of some events, each as a line.
    Pages(EventPages),
}
