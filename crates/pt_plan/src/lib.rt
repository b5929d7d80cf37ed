//! Plans: what anything that draws does to a case, and what comes of it.
//!
//! A plan comes to a value, rejects, or ends with a fault; or it asks for a choice and goes on by the answer, enters
//! a span, leaves one, or notes a value. A function that draws says in its contract which plan leads it, and the
//! answers of a check that goes by a plan are read off that plan.
#![tactic(auto)]

mod asking;
mod calls;
mod ended;
mod laws;
mod stop;

pub use asking::{ask_flag, ask_integer};
pub use calls::{ask, enter, leave, note};
pub use ended::ending_of;
pub use laws::{
    a_list_derives_once, a_list_has_one_answer, a_refusal_stops, balanced_plans_leave_their_own,
    cuts_come_before, each_choice_was_wanted, no_end_begins_another, silent_plans_leave_the_notes,
    what_came_stands, what_was_made_stays,
};
pub use stop::DrawStop;
