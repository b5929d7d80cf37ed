use crate::{
    Fault, Faults, Finding, Findings, Flags, Found, Shrunk, Survey, Surveys, Trail, Verdict,
};
use pt_choice::may_be_shared;

fn workers_share_them() {
    may_be_shared::<Trail>();
    may_be_shared::<Shrunk>();
    may_be_shared::<Found>();
    may_be_shared::<Verdict>();
    may_be_shared::<Flags>();
    may_be_shared::<Finding>();
    may_be_shared::<Findings>();
    may_be_shared::<Fault>();
    may_be_shared::<Faults>();
    may_be_shared::<Survey>();
    may_be_shared::<Surveys>();
}
