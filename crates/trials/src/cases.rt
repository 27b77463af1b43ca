// The cases of index.txt, each from the fresh machine: CASE run=0 .. walks RETURN:MET .., a walk for each thread.
use crate::buffers::{Buffers, Part};
use crate::words::{Words, behind, named, number};

// Whether Fresh and Run leave the answers and the state in the case's files.
fn run_leaves(buffers: &Buffers) -> bool {
    let mut state = Part::filled(1, buffers.state.length);
    let mut answers = Part::filled(1, buffers.answers.length);
    buffers.fresh(&mut state) == 0
        && buffers.run(&mut state, &mut answers) == 0
        && state.bytes() == buffers.state.bytes()
        && answers.bytes() == buffers.answers.bytes()
}

// Whether the walk from `thread` returns and writes what `claim` says: RETURN, and MET behind the next colon.
fn walk_finds(claim: &[u8], buffers: &Buffers, thread: u32) -> bool {
    let mut met = Part::filled(1, buffers.met.length);
    let returned = buffers.walk(thread, &mut met);
    number(claim) == returned as usize && met.is_eight(behind(claim, b':'))
}

// Whether the run of the case does what its files say, and each walk what `line` says.
pub fn case_agrees(line: &[u8], buffers: &Buffers) -> bool {
    let mut claims = Words(behind(named(line, b"walks"), b' '));
    for thread in 0..8 {
        let Some(claim) = claims.next() else {
            return false;
        };
        if !walk_finds(claim, buffers, thread) {
            return false;
        }
    }
    run_leaves(buffers)
}
