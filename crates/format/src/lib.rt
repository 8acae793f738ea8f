// The stream format word: which words this device takes, and the rate of each.
#![tactic(auto)]

ghost use Rattle.std.specs.Prelude.{◌≡◌};
ghost use Rattle.format.specs.Hda.{base_field, base_rate};
ghost use Rattle.format.specs.Format.{rates, among, format_of};

// The rate of a word that stands for 16-bit stereo at a rate of the box; `None` for every other word (the Rust's `Hda::format`).
pub fn decode(word: u16) -> Option<u32>
    ensures { result ≡ format_of word }
{
    let mult = word / 0x800 % 8;
    let div = word / 0x100 % 8;
    let bits = word / 0x10 % 8;
    let chan = word % 0x10;
    // TYPE and the reserved bit are clear, MULT is no reserved code, and the other two say 16-bit stereo.
    let stereo16 = (word / 0x8000 % 2 == 0)
        && (word / 0x80 % 2 == 0)
        && (mult < 4)
        && (bits == 1)
        && (chan == 1);
    if !stereo16 {
        return None;
    }
    let numerator = base_rate(word) * (u32::from(mult) + 1);
    let divisor = u32::from(div) + 1;
    let rate = numerator / divisor;
    (numerator % divisor == 0 && supported(rate)).then_some(rate)
}

// The rate that bit 14 chooses.
fn base_rate(word: u16) -> u32
    ensures { result ≡ base_rate (base_field word) }
{
    if word / 0x4000 % 2 == 0 {
        48_000
    } else {
        44_100
    }
}

// Whether the box has a rate: the one table of them.
pub fn supported(rate: u32) -> bool
    ensures { result ≡ among rate rates }
{
    matches!(rate, 44_100 | 48_000 | 88_200 | 96_000)
}
