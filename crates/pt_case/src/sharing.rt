use crate::{ChoiceLists, Ending, Note, Notes, Record, Records, Span, Spans};
use pt_choice::may_be_shared;

fn workers_share_them() {
    may_be_shared::<ChoiceLists>();
    may_be_shared::<Ending>();
    may_be_shared::<Note>();
    may_be_shared::<Notes>();
    may_be_shared::<Record>();
    may_be_shared::<Records>();
    may_be_shared::<Span>();
    may_be_shared::<Spans>();
}
