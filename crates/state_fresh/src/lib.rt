// The bytes of a fresh machine: the initial words, all threads idle, no trees.
#![tactic(auto)]

ghost use Rattle.std.specs.Prelude.{◌≡◌, length};
ghost use Rattle.rules.specs.Sizes.{words_size, state_size};
ghost use Rattle.rules.specs.Machine.{fresh};
ghost use Rattle.rules.specs.Encoding.{encode, words_from};

use bytes_fields::write::{clear, copy, put16};
use rules::layout::{STATE_SIZE, THREAD_SIZE, THREADS_PLACE, WORDS_SIZE};
use rules::sorts::{Label, Thread};

// The bytes after the words.
const REST: usize = STATE_SIZE - WORDS_SIZE;

pub fn fresh(words: &[u8], state: &mut [u8])
    requires { (length words.now ≡ words_size) × (length state.old ≡ state_size) }
    ensures { state.new ≡ encode (fresh (words_from words.now)) }
{
    copy(state, 0, words, 0, WORDS_SIZE);
    clear(state, WORDS_SIZE, REST);
    for t in 0..Thread::COUNT {
        put16(state, THREADS_PLACE + THREAD_SIZE * t, Label::IDLE);
    }
}
