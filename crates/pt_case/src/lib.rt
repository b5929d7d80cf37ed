//! Cases, the records that they leave, and checks.
//!
//! A check asks for choices until it ends, and a case answers and keeps them. What a check means is said
//! without a case: it is its answer to each list of choices. A record of a run is then a path through these
//! answers, and `fresh` answers exactly that record.
#![tactic(auto)]

mod answer_source;
mod case;
mod check;
mod ending;
mod kinds;
mod laws;
mod note;
mod record;
mod refused;
mod region;
mod sharing;
mod span;
mod stop;
mod traced;

pub use case::{Case, MAX_CHOICES, MAX_SPANS};
pub use check::{Check, asks, fresh, replay};
pub use ending::{Ending, Origin, What};
pub use kinds::Kinds;
pub use laws::{
    a_list_has_one_record, a_record_is_its_own, a_run_has_one_record, a_run_replays_to_itself,
    better_goes_down,
};
pub use note::{Note, Notes};
pub use record::{ChoiceLists, Record, Records};
pub use refused::Refused;
pub use region::Region;
pub use span::{Span, Spans};
pub use stop::Stop;
pub use traced::{Traced, guided};
