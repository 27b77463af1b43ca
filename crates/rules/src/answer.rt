// The answer to an event. specs/Answers.antt gives the code and the detail of each case.
use crate::sorts::Lock;

#[derive(Clone, Copy)]
pub enum Answer {
    Taken,
    ListFull,
    NoWork,
    Waiting(Lock),
    Started,
    Moved,
    // How many held signals were lost.
    Exited(u8),
    Trapped(u8),
    WasCut,
    NothingToCut,
}
