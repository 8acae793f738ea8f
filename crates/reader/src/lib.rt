// A reader over the bytes of a saved state: it holds the slice, and the place where the unread bytes begin. Its functions are thin: the
// work is done below them, on the slice alone, and `field` and `run`, with plain parameters, are for callers that read at places of their own.
#![tactic(auto)]

ghost use Rattle.std.specs.Prelude.{◌≡◌, ◌+◌, ◌≤◌, length, ltb};
ghost use Rattle.reader.specs.Fields.{field_of, run_of, reader_of, taken_of, take_of, take_run_of};

#[derive(Drop)]
pub struct StateReader<'a> {
    pub src: &'a [u8],
    pub at: usize,
}

// An answer, and where the unread bytes begin: a number, or `None` where the state ends inside the field (document 01's number 2).
#[derive(Clone, Copy, PartialEq, Eq, Debug)]
pub struct Took {
    pub got: Option<u64>,
    pub next: usize,
}

// Whether the state ends inside the n bytes at `at`, which may be past its end.
fn cut(s: &[u8], at: usize, n: usize) -> bool
    ensures { result ≡ ltb (length s.now) (at + n) }
{
    s.len() < at || s.len() - at < n
}

// The number of the n bytes at `at`, from the highest byte down.
#[tactic(auto, unfolding(crate::specs::Fields::field_of))]
fn field_at(s: &[u8], at: usize, n: usize) -> Took
    requires { n ≤ 8 }
    ensures { result ≡ field_of s.now at n }
{
    if cut(s, at, n) {
        return Took {
            got: None,
            next: at,
        };
    }
    let mut v = 0;
    for i in (0..n).rev() {
        v = v * 256 + u64::from(s[at + i]);
    }
    Took {
        got: Some(v),
        next: at + n,
    }
}

#[tactic(auto, unfolding(crate::specs::Fields::run_of))]
fn run_at(s: &[u8], at: usize, n: usize) -> Took
    ensures { result ≡ run_of s.now at n }
{
    if cut(s, at, n) {
        return Took {
            got: None,
            next: at,
        };
    }
    Took {
        got: Some(at as u64),
        next: at + n,
    }
}

impl<'a> StateReader<'a> {
    pub fn new(src: &'a [u8], at: usize) -> StateReader<'a>
        ensures { result ≡ reader_of src.entry at }
    {
        StateReader { src, at }
    }

    // The next n bytes' number, and the reader moved past them; or `None`, and the reader as it was.
    pub fn take(&mut self, n: usize) -> Option<u64>
        requires { n ≤ 8 }
        ensures { taken_of result self.new ≡ take_of self.old n }
    {
        let t = field_at(self.src, self.at, n);
        self.at = t.next;
        t.got
    }

    // The same of a run of n bytes, of any length: its number is where it starts.
    pub fn take_run(&mut self, n: usize) -> Option<u64>
        ensures { taken_of result self.new ≡ take_run_of self.old n }
    {
        let t = run_at(self.src, self.at, n);
        self.at = t.next;
        t.got
    }
}

// The number of the n bytes at `at`, and the place behind them.
pub fn field(s: &[u8], at: usize, n: usize) -> Took
    requires { n ≤ 8 }
    ensures { result ≡ field_of s.now at n }
{
    let mut r = StateReader::new(s, at);
    let got = r.take(n);
    Took { got, next: r.at }
}

// Where a run of n bytes at `at` starts, and the place behind it.
pub fn run(s: &[u8], at: usize, n: usize) -> Took
    ensures { result ≡ run_of s.now at n }
{
    let mut r = StateReader::new(s, at);
    let got = r.take_run(n);
    Took { got, next: r.at }
}
