//! Uses of goals and tasks, as the program keeps them.
//!
//! A [`Frame`] is what is the same throughout, a [`Call`] a use of a goal, and [`Work`] has the tasks
//! that are left, what is written so far and the units that are left. A [`Side`] tells where a link
//! leads. What these stand for, and what a step of the work answers, is defined in specs/Tasks.antt.
#![tactic(auto)]

mod calls;
mod leading;
mod links;
mod tasks;

pub use calls::{Basis, Call, Frame, Target, nothing};
pub use leading::Side;
pub use links::{all_named, named};
pub use tasks::{Changes, Halt, Links, Reason, Reasons, Simpler, Task, Work};
