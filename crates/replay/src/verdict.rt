// One line of the recorded answers against what the proved code answers.
ghost use Rattle.std.specs.Prelude.{◌≡◌, ◌*◌, ◌≤◌, length};
ghost use Rattle.replay.specs.Verdict.{equal, own_of, verdict_of, line_verdict_of, own_in, counted_of, amended_line, attributed_of};

#[derive(Clone, Copy, PartialEq, Eq, Debug)]
pub enum Verdict {
    Same,
    Differs,
    Unreadable,
}

// A record's digits against those of the record with the proved code's answer in it, which are left in `own`. `bytes` is room to work in.
fn judge(letter: u8, text: &[u8], bytes: &mut [u8], own: &mut [u8]) -> Verdict
    requires text_len { length text.now ≡ 2 * length bytes.old }
    requires own_len { length own.old ≡ length text.now }
    ensures value { result ≡ verdict_of letter text.now }
    ensures own_after { own.new ≡ own_of letter text.now }
{
    crate::hex::decode(text, bytes);
    let known = crate::answers::answer(letter, bytes);
    crate::hex::encode(bytes, own);
    if !known {
        return Verdict::Unreadable;
    }
    if same(text, own) {
        Verdict::Same
    } else {
        Verdict::Differs
    }
}

#[tactic(auto, using(crate::proofs::Verdicts::equal_pointwise))]
fn same(text: &[u8], own: &[u8]) -> bool
    ensures { result ≡ equal text.now own.now }
{
    text == own
}

// The longest line that is read.
const LONGEST: usize = 4096;

// A line: a letter, then digits, two to a byte, at most `LONGEST` in all. What `judge` leaves stands at the start of `own`.
pub fn judge_line(line: &[u8], own: &mut [u8]) -> Verdict
    requires { 4096 ≤ length own.old }
    ensures value { result ≡ line_verdict_of line.now }
    ensures own_after { own.new ≡ own_in line.now own.old }
{
    if line.len() % 2 == 0 || line.len() > LONGEST {
        return Verdict::Unreadable;
    }
    let digits = line.len() - 1;
    let half = digits / 2;
    let mut bytes = [0; 4096];
    judge(line[0], &line[1..], &mut bytes[..half], &mut own[..digits])
}

// Whether a line says that the amended Rust answered, by its letter. An empty line has none.
pub fn is_amended(line: &[u8]) -> bool
    ensures { result ≡ amended_line line.now }
{
    match line.first() {
        Some(letter) => crate::answers::is_amended(*letter),
        None => false,
    }
}

// How many lines there were, how many of them the amended Rust answered, and how many the proved code answers in another way or cannot read.
#[derive(Clone, Copy, PartialEq, Eq, Debug)]
pub struct Tally {
    pub lines: u64,
    pub amended: u64,
    pub differ: u64,
}

impl Tally {
    pub fn counted(self, verdict: Verdict) -> Tally
        ensures { result ≡ counted_of self verdict }
    {
        let differ = match verdict {
            Verdict::Same => self.differ,
            Verdict::Differs | Verdict::Unreadable => self.differ.wrapping_add(1),
        };
        Tally {
            lines: self.lines.wrapping_add(1),
            differ,
            ..self
        }
    }

    // Counts the line that was counted last among those that the amended Rust answered, if it is one.
    pub fn attributed(self, amended: bool) -> Tally
        ensures { result ≡ attributed_of self amended }
    {
        if !amended {
            return self;
        }
        Tally {
            amended: self.amended.wrapping_add(1),
            ..self
        }
    }
}
