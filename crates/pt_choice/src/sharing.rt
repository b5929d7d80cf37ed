use crate::{Choice, Choices, Kind, NoMemory, Octets, Seq, Shape};

/// Does nothing. A call at a type is proved only where a value of the type may be sent to a thread and shared by several.
pub fn may_be_shared<T: Send + Sync>() {}

fn workers_share_them() {
    may_be_shared::<NoMemory>();
    may_be_shared::<Shape>();
    may_be_shared::<Kind>();
    may_be_shared::<Octets>();
    may_be_shared::<Choice>();
    may_be_shared::<Choices>();
    may_be_shared::<Seq<Choice>>();
}
