// What each command asks for and does, and the step that every command ends with: the first need that fails refuses it, else it is done.
#![tactic(auto)]

use reply::Reply;
use state::{Change, Reason};

pub mod judge;

// A command that was judged, with all that may be said of it apart: what it changes if it is done, whether it says nothing then, and the reason
// against it, if there is one.
#[derive(Clone, Copy)]
pub struct Judged {
    pub change: Change,
    pub silent: bool,
    pub why: Reason,
}

// What a line changes, and the reply to it.
#[derive(Clone, Copy)]
pub struct Obeyed {
    pub change: Change,
    pub reply: Reply,
}
