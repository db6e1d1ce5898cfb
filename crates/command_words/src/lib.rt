//! The words of the command line, and the plan that they are.
#![tactic(auto)]

mod argument;
mod command;
mod fault;
mod matched;
mod program;
mod request;
mod value;
mod words;

pub use attributes::Texts;
pub use command::Command;
pub use fault::Faulty;
pub use request::{
    Action, Alone, Check, Combine, Follow, Invocation, Number, Once, Pages, Plan, Request, Run,
    Split,
};
pub use words::invocation;
