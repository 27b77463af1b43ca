// The calls on the buffers of a case. A buffer that a call may change is handed over beside them, and lent at its length: a call with one
// that is not so long is not made.
use crate::buffers::{Buffers, Part};

impl Buffers {
    pub fn check(&self) -> u32 {
        plex::plex_check(self.image.bytes(), self.table.bytes())
    }

    pub fn fresh(&self, state: &mut Part) -> u32 {
        let Some(state) = state.lent() else {
            return u32::MAX;
        };
        let image = self.image.bytes();
        let table = self.table.bytes();
        plex::plex_fresh(image, table, self.words.bytes(), state)
    }

    pub fn run(&self, state: &mut Part, answers: &mut Part) -> u32 {
        let Some(state) = state.lent() else {
            return u32::MAX;
        };
        let Some(answers) = answers.lent() else {
            return u32::MAX;
        };
        let image = self.image.bytes();
        let table = self.table.bytes();
        plex::plex_run(image, table, state, self.events.bytes(), answers)
    }

    pub fn walk(&self, thread: u32, met: &mut Part) -> u32 {
        let Some(met) = met.lent() else {
            return u32::MAX;
        };
        let image = self.image.bytes();
        let table = self.table.bytes();
        plex::plex_walk(image, table, self.state.bytes(), thread, met)
    }

    pub fn link(&self, out: &mut Part) -> u32 {
        let Some(out) = out.lent() else {
            return u32::MAX;
        };
        let first = self.first.bytes();
        let second = self.second.bytes();
        plex::plex_link(first, second, self.table.bytes(), out)
    }
}
