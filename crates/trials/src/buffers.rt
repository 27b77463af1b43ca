// The buffers of a case. No heap: a trial cannot run out of memory.
ghost use Rattle.std.specs.Prelude.{◌≡◌};

// The bytes that a buffer can have: the longest that a line asks for is an event list of 81,659.
pub const PART: usize = 81920;

// A buffer of a case. The bytes behind its length stay, and count again once it is made longer from above `PART`.
#[derive(Drop)]
pub struct Part {
    pub all: [u8; PART],
    pub length: usize,
}

impl Part {
    pub fn filled(byte: u8, length: usize) -> Self
        ensures { result.length ≡ length }
    {
        Part {
            all: [byte; PART],
            length,
        }
    }

    // The bytes at the length: none if it is above `PART`.
    pub fn bytes(&self) -> &[u8] {
        self.all.get(..self.length).unwrap_or(&[])
    }

    // The same to be changed, if there are so many.
    pub fn lent(&mut self) -> Option<&mut [u8]> {
        let length = self.length;
        self.all.get_mut(..length)
    }

    // A copy of the bytes at the length, and zeros.
    pub fn copy(&self) -> Part
        ensures { result.length ≡ self.now.length }
    {
        let mut copy = Part::filled(0, self.length);
        for (to, from) in copy.all.iter_mut().zip(self.bytes()) {
            *to = *from;
        }
        copy
    }

    // Sets a byte, also one behind the length.
    pub fn set(&mut self, place: usize, value: u8) {
        if let Some(byte) = self.all.get_mut(place) {
            *byte = value;
        }
    }

    // Makes the length `n`: cuts it, or fills it up with bytes of 1, which a length above `PART` does not.
    pub fn resize(&mut self, n: usize)
        ensures { self.new.length ≡ n }
    {
        if let Some(added) = self.all.get_mut(self.length..n) {
            added.fill(1);
        }
        self.length = n;
    }
}

#[derive(Clone, Copy, Debug, PartialEq, Eq)]
pub enum Buffer {
    Image,
    Words,
    Events,
    Answers,
    State,
    Table,
    First,
    Second,
    Met,
}

impl Buffer {
    const ALL: [Buffer; 9] = [
        Buffer::Image,
        Buffer::Words,
        Buffer::Events,
        Buffer::Answers,
        Buffer::State,
        Buffer::Table,
        Buffer::First,
        Buffer::Second,
        Buffer::Met,
    ];

    // The name of a buffer, in the names of files and in edits.
    pub fn name(self) -> &'static [u8] {
        match self {
            Buffer::Image => b"image",
            Buffer::Words => b"words",
            Buffer::Events => b"events",
            Buffer::Answers => b"answers",
            Buffer::State => b"state",
            Buffer::Table => b"table",
            Buffer::First => b"first",
            Buffer::Second => b"second",
            Buffer::Met => b"met",
        }
    }

    // The buffer whose name the text begins with.
    pub fn named(text: &[u8]) -> Option<Self> {
        Buffer::ALL
            .into_iter()
            .find(|buffer| text.starts_with(buffer.name()))
    }
}

// A machine's case has the buffers from `image` to `table`, a link's those from `table` to `second`.
#[derive(Drop)]
pub struct Buffers {
    pub image: Part,
    pub words: Part,
    pub events: Part,
    pub answers: Part,
    pub state: Part,
    pub table: Part,
    pub first: Part,
    pub second: Part,
    pub met: Part,
}

impl Buffers {
    pub fn new() -> Self {
        Buffers {
            image: Part::filled(0, 0),
            words: Part::filled(0, 0),
            events: Part::filled(0, 0),
            answers: Part::filled(0, 0),
            state: Part::filled(0, 0),
            table: Part::filled(0, 0),
            first: Part::filled(0, 0),
            second: Part::filled(0, 0),
            met: Part::filled(0, 0),
        }
    }

    pub fn get_mut(&mut self, buffer: Buffer) -> &mut Part {
        match buffer {
            Buffer::Image => &mut self.image,
            Buffer::Words => &mut self.words,
            Buffer::Events => &mut self.events,
            Buffer::Answers => &mut self.answers,
            Buffer::State => &mut self.state,
            Buffer::Table => &mut self.table,
            Buffer::First => &mut self.first,
            Buffer::Second => &mut self.second,
            Buffer::Met => &mut self.met,
        }
    }
}
