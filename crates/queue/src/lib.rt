// A queue in an array with a head and a count: of 256 bits, or of 64 characters. Room that is freed by taking out is
// used again, round the array's end.
#![tactic(auto)]

ghost use Rattle.std.specs.Prelude.{◌≡◌, replicate};
ghost use Rattle.binary.specs.Digits.{digits};
ghost use Rattle.queue.specs.Ring.{empty, read_as, put_one, put_all, front, rest};
ghost use Rattle.queue.specs.Records.{ring, taken_said};
ghost use Rattle.queue.specs.Take.{taken, left};
ghost use Rattle.queue.specs.Inner.{Size, Room, WordRoom, Some};

pub const BITS: usize = 256;

pub const CHARS: usize = 64;

// An array, a head and a count, and none of the library's queues: nothing allocates, and a record with any head and
// count is read as one within the array (`read_as`).
#[derive(Clone, Copy)]
pub struct Queue<const ROOM: usize> {
    pub slots: [u8; ROOM],
    pub head: usize,
    pub count: usize,
}

pub type BitQueue = Queue<BITS>;

pub type CharQueue = Queue<CHARS>;

// `Size ROOM` is asked by each function, of the type's number: a ghost field that had it would forbid `..self`, and
// each law that gives a queue's fields back would have to show it.
impl<const ROOM: usize> Queue<ROOM> {
    pub fn new() -> Self
        requires { Size ROOM }
        ensures { ring result ≡ empty ROOM }
    {
        Queue {
            slots: [0; ROOM],
            head: 0,
            count: 0,
        }
    }

    // The queue as it is read, whatever its head and count.
    pub fn read(&self) -> Self
        requires { Size ROOM }
        ensures { ring result ≡ read_as ROOM (ring self.now) }
    {
        Queue {
            head: self.head % ROOM,
            count: self.count % (ROOM + 1),
            ..*self
        }
    }

    // One element more.
    pub fn put(self, element: u8) -> Self
        requires size { Size ROOM }
        requires room { Room ROOM (ring self) 1 }
        ensures { ring result ≡ put_one ROOM (ring self.entry) element }
    {
        let mut q = self;
        q.add(element);
        q
    }

    // The same where the queue lies: by value each element of a run took a copy of the array.
    fn add(&mut self, element: u8)
        requires size { Size ROOM }
        requires room { Room ROOM (ring self.old) 1 }
        ensures { ring self.new ≡ put_one ROOM (ring self.old) element }
    {
        self.slots[(self.head + self.count) % ROOM] = element;
        self.count += 1;
    }

    // The same element n times.
    pub fn put_run(self, element: u8, n: usize) -> Self
        requires size { Size ROOM }
        requires room { Room ROOM (ring self) n }
        ensures { ring result ≡ put_all ROOM (ring self.entry) (replicate n element) }
    {
        let mut q = self;
        for _ in 0..n {
            q.add(element);
        }
        q
    }

    // The len lowest bits of a word, the highest of them first.
    pub fn put_word(self, word: u16, len: u8) -> Self
        requires size { Size ROOM }
        requires room { WordRoom ROOM (ring self) len }
        ensures { ring result ≡ put_all ROOM (ring self.entry) (digits len word) }
    {
        let mut q = self;
        for place in (0..len).rev() {
            q.add(((word >> place) % 2) as u8);
        }
        q
    }

    // The element that is taken out next.
    pub fn front(&self) -> u8
        requires { Room ROOM (ring self.now) 0 }
        ensures { result ≡ front (ring self.now) }
    {
        self.slots[self.head]
    }

    // The queue without that element.
    pub fn rest(self) -> Self
        requires size { Size ROOM }
        requires some { Some ROOM (ring self) }
        ensures { ring result ≡ rest ROOM (ring self.entry) }
    {
        Queue {
            head: (self.head + 1) % ROOM,
            count: self.count - 1,
            ..self
        }
    }

    // Takes the next element out, if there is one.
    #[tactic(auto, unfolding(crate::specs::Take::taken, crate::specs::Take::left))]
    pub fn take(&mut self) -> Option<u8>
        requires { Size ROOM }
        ensures front { taken_said result ≡ taken ROOM (ring self.old) }
        ensures rest { ring self.new ≡ left ROOM (ring self.old) }
    {
        // Before the queue is read, which takes a copy of the array.
        if self.count % (ROOM + 1) == 0 {
            return None;
        }
        let q = self.read();
        let front = q.front();
        *self = q.rest();
        Some(front)
    }
}
