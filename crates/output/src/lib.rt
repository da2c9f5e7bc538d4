// Putting bytes, numbers and lines into a sink: one that only measures a text, or a lent slice that holds it.
#![tactic(auto)]

ghost use Rattle.std.specs.Prelude.{◌≡◌, ℕ, Bool, true, leb, ltb, length, [], ◌∷◌, ◌++◌};
ghost use Rattle.std.proofs.Common.{rules};
ghost use Rattle.text.specs.Numbers.{digits, comma_digits};
ghost use Rattle.text.specs.Texts.{line_text};
ghost use Rattle.output.specs.Sinks.{Puts, measured, measure_of, stored};

// Where the bytes of a text go. No byte changes a sink that is over.
pub trait Sink {
    // What a byte leaves behind.
    ghost put: { Self → ℕ → Self };

    ghost full: { Self → Bool };

    fn put_byte(&mut self, b: u8)
        ensures { self.new ≡ put self.old b };

    fn is_over(&self) -> bool
        ensures { result ≡ full self.now };

    ghost settled: { (s : Self) (b : ℕ) → full s ≡ true → put s b ≡ s };
}

// Counts the bytes of a text, and stops one past the room for it, so that no text is too long to be measured.
#[derive(Clone, Copy, Debug, PartialEq, Eq)]
pub struct Measure {
    pub stop: usize,
    pub size: usize,
}

impl Measure {
    pub fn of(out: &[u8]) -> Measure
        ensures { result ≡ measure_of out.now }
    {
        Measure {
            stop: out.len() + 1,
            size: 0,
        }
    }
}

impl Sink for Measure {
    ghost put = { measured };

    ghost full = { λ m. leb m.stop m.size };

    ghost settled = { Prim.search rules };

    fn put_byte(&mut self, _b: u8) {
        if self.size < self.stop {
            self.size += 1;
        }
    }

    fn is_over(&self) -> bool {
        self.stop <= self.size
    }
}

// Holds the bytes of a text from a place on, while there is room. A place past the end says that a text didn't fit.
#[derive(Drop)]
pub struct Lent<'a> {
    pub out: &'a mut [u8],
    pub at: usize,
}

impl Sink for Lent<'_> {
    ghost put = { stored };

    ghost full = { λ l. ltb (length l.out.now) l.at };

    ghost settled = { Prim.search rules };

    fn put_byte(&mut self, b: u8) {
        if self.at < self.out.len() {
            self.out[self.at] = b;
        }
        if self.at <= self.out.len() {
            self.at += 1;
        }
    }

    fn is_over(&self) -> bool {
        self.out.len() < self.at
    }
}

pub fn put_bytes<S: Sink>(text: &[u8], sink: &mut S)
    ensures { Puts S.put text.now sink.old sink.new }
{
    for &b in text {
        sink.put_byte(b);
    }
}

// The highest digits first: those of the tenth part, then the last one.
pub fn put_number<S: Sink>(n: usize, sink: &mut S)
    ensures { Puts S.put (digits n) sink.old sink.new }
{
    if n < 10 {
        return sink.put_byte(48 + n as u8);
    }
    put_number(n / 10, sink);
    sink.put_byte(48 + (n % 10) as u8)
}

// A line of a key and one number.
pub fn put_one<S: Sink>(key: &[u8], n: usize, sink: &mut S)
    ensures { Puts S.put (line_text (key.now ++ digits n)) sink.old sink.new }
{
    put_bytes(key, sink);
    put_number(n, sink);
    sink.put_byte(10)
}

// A line of a key and two numbers with a comma between.
pub fn put_two<S: Sink>(key: &[u8], m: usize, n: usize, sink: &mut S)
    ensures { Puts S.put (line_text (key.now ++ comma_digits (m ∷ (n ∷ [])))) sink.old sink.new }
{
    put_bytes(key, sink);
    put_number(m, sink);
    put_one(b",", n, sink)
}
