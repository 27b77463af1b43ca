// The signals that a thread's job holds for new trees, oldest first, as they stand in its record.
ghost use Rattle.std.specs.Prelude.{◌≡◌, [], ◌∷◌, ◌++◌, ◌<◌, get_or};
ghost use Rattle.rules.specs.Sizes.{held_count};
ghost use Rattle.rules.specs.Machine.{with_held};
ghost use Rattle.rules.specs.Encoding.{no_signal};
ghost use Rattle.state_signal.specs.Signals.{signal_of, TidySignal};
ghost use Rattle.state_thread.specs.Threads.{Running, Runs, job_of, signals_of};

use crate::thread::ThreadState;
use rules::layout::SIGNAL_SIZE;
use state_signal::{Signal, read_signal, write_signal};

impl ThreadState {
    // One signal comes behind the others.
    pub fn hold_signal(mut self, g: Signal) -> Self
        requires { Running self × (self.held < held_count) × TidySignal g }
        ensures { Runs result self.locks (with_held (signals_of self ++ signal_of g ∷ []) (job_of self)) }
    {
        let count = self.held;
        let mut signals = self.signals;
        write_signal(&mut signals, SIGNAL_SIZE * count, g);
        self.signals = signals;
        self.held = count + 1;
        self
    }

    // The signal at a place; one without label and values where none is held.
    pub fn held_signal(self, i: usize) -> Signal
        requires { Running self × (i < held_count) }
        ensures { (signal_of result ≡ get_or (signals_of self) i no_signal) × TidySignal result }
    {
        let signals = self.signals;
        read_signal(&signals, SIGNAL_SIZE * i)
    }
}
