// The amplifier's gain (document 01, Gain; the Rust's `Codec::amplify`): what an amplifier byte asks for, one sample scaled by a gain, and
// a buffer of stereo frames amplified, in place or from one buffer into another (T-03).
//
// `scale` is the plain form, total over every f64. A buffer goes up to 64 frames at a time: both sides' samples are taken out, scaled, for
// the factors of the table in a form that the compiler turns into vector code, and put back or into the other buffer.
#![tactic(auto)]

ghost use Rattle.std.specs.Prelude.{◌≡◌, T, length, ◌+◌, ◌*◌, ◌/◌, ◌%◌, ◌≤◌, ◌<◌, min};
ghost use Rattle.std.specs.Float.Ieee.Positive.{positive};
ghost use Rattle.gain.specs.declared.Gain.TheVariants.{Factor};
ghost use Rattle.gain.specs.Gain.{factor, gain_of, whole_of, rounded, scaled, scaled16, amplified_of, side_at, amplified_byte, one_pass_of};
ghost use Rattle.gain.specs.Fast.{roundable, limited, magnitude16, with_sign16, is_silence, is_unity, blockwise, AmplifiedTo, SameFrom, Gathered, EachScaled, ScaledWords, ScaledSide, Scattered, sample_scaled};

// What is done to a sample: `scaled` of specs/Gain.antt has the meaning of each case.
#[derive(Clone, Copy)]
pub enum Gain {
    Silence,
    Unity,
    Factor(f64),
}

// What an amplifier byte asks for. Bit 0x80 mutes; else the gain is (byte - 74) dB, and 0x4a is 0 dB.
pub fn gain_of(byte: u8) -> Gain
    ensures { result ≡ gain_of byte }
{
    if byte >= 0x80 {
        Gain::Silence
    } else if byte == 0x4a {
        Gain::Unity
    } else {
        Gain::Factor(factor_of(byte))
    }
}

// One sample scaled: one f64 product, rounded with halves away from zero, clamped to 16 bits.
pub fn scale(gain: Gain, sample: i16) -> i16
    ensures { result ≡ scaled gain sample }
{
    match gain {
        Gain::Silence => 0,
        Gain::Unity => sample,
        Gain::Factor(factor) => round_to_sample((sample as f64) * factor),
    }
}

// Frames of two little-endian samples, left and right, each scaled by its side's gain. An odd last byte stays.
pub fn amplify(pcm: &mut [u8], left: Gain, right: Gain)
    ensures { pcm.new ≡ amplified_of left right pcm.old }
{
    let size = pcm.len();
    let whole = size - size % 4;
    frames_in_place(pcm, whole, left, right);
    scale_rest(pcm, whole, left);
}

// The same by the two sides' amplifier bytes.
pub fn amplify_by(pcm: &mut [u8], left: u8, right: u8)
    ensures { pcm.new ≡ amplified_of (gain_of left) (gain_of right) pcm.old }
{
    amplify(pcm, gain_of(left), gain_of(right))
}

// The same from one buffer into another in one pass, as many bytes as `into` holds: each sample is read once and each byte written once. The
// frames before gain stay: they are lent to be read alone.
pub fn amplify_into(pcm: &[u8], into: &mut [u8], left: Gain, right: Gain)
    requires { length into.old ≤ length pcm.now }
    ensures { into.new ≡ one_pass_of left right pcm.now (length into.old) }
{
    let size = into.len();
    let whole = size - size % 4;
    frames_into(pcm, into, whole, left, right);
    rest_into(pcm, into, whole, left, right);
}

// The same by the two sides' amplifier bytes.
pub fn amplify_into_by(pcm: &[u8], into: &mut [u8], left: u8, right: u8)
    requires { length into.old ≤ length pcm.now }
    ensures { into.new ≡ one_pass_of (gain_of left) (gain_of right) pcm.now (length into.old) }
{
    amplify_into(pcm, into, gain_of(left), gain_of(right))
}

// ---- One sample

// A product rounded to a whole number, halves away from zero, and clamped. A NaN is neither above nor below 0, and gives 0.
fn round_to_sample(product: f64) -> i16
    ensures { result ≡ rounded product }
{
    if product > 0.0 {
        let r = round_half_up(limit(product));
        if r < 32768 { r as i16 } else { 32767 }
    } else if product < 0.0 {
        let r = round_half_up(limit(-product));
        if r < 32768 { -(r as i16) } else { -32768 }
    } else {
        0
    }
}

// A magnitude cut at 32768: all that is past it, an infinity too, clamps to the same sample. Not `min`: of two equal values its contract leaves
// open which one it gives.
fn limit(magnitude: f64) -> f64
    ensures { result ≡ limited magnitude }
{
    if magnitude < 32768.0 {
        magnitude
    } else {
        32768.0
    }
}

const TWO_TO_52: f64 = 4503599627370496.0;

const TWO_TO_52_AND_1: f64 = 4503599627370497.0;

// A magnitude rounded to a whole number, halves up. From 2^52 on a double has no digits after the point, so that the adder rounds the sum to
// a whole number, and the lowest bits of its pattern are that number's. It takes halves to the even sum: with 2^52 to the even number, with
// one more to the odd one. The two are the same but at a half, where one is up and one is down; so half of both sums together, of which one
// counts one more, is the number with halves up. No step loses a digit before the rounding, as `magnitude + 0.5` would, and there are vector
// instructions for each, which a truncation to 64 bits has not.
fn round_half_up(magnitude: f64) -> u16
    requires { T (roundable magnitude) }
    ensures { result ≡ whole_of magnitude }
{
    let even = f64::to_bits(magnitude + TWO_TO_52);
    let odd = f64::to_bits(magnitude + TWO_TO_52_AND_1);
    ((even + odd) / 2 % 65536) as u16
}

// ---- A sample's 16 bits

// Two bytes as one word.
fn word_of(low: u8, high: u8) -> u16
    ensures { result ≡ low + 256 * high }
{
    u16::from_le_bytes([low, high])
}

// `scale` over 16 bits, by any gain.
fn scale_any(word: u16, gain: Gain) -> u16
    ensures { result ≡ scaled16 gain word }
{
    scale(gain, word.cast_signed()).cast_unsigned()
}

// The magnitude of 16 bits as a signed number.
fn magnitude(word: u16) -> u16
    ensures { result ≡ magnitude16 word }
{
    if word < 32768 { word } else { 65535 - word + 1 }
}

// A magnitude with the sign of `word`, clamped, as 16 bits. Up to 32768 the last alone is past the upper end, and its quotient takes one off.
fn with_sign(word: u16, magnitude: u16) -> u16
    requires { magnitude ≤ 32768 }
    ensures { result ≡ with_sign16 word magnitude }
{
    if word < 32768 {
        magnitude - magnitude / 32768
    } else {
        ((65536 - (magnitude as u32)) % 65536) as u16
    }
}

// `scale_any` for a positive factor: no signed number and no branch that a vector instruction lacks. The product of the
// magnitude is the magnitude of the product, so this too is one f64 product of sample and factor.
fn scale_word(word: u16, factor: f64) -> u16
    requires { T (positive factor) }
    ensures { result ≡ scaled16 (Factor factor) word }
{
    let product = (magnitude(word) as f64) * factor;
    with_sign(word, round_half_up(limit(product)))
}

// ---- A buffer

// Whether the gain makes a sample 0; leaves it as it is.
fn is_silence(gain: Gain) -> bool
    ensures { result ≡ is_silence gain }
{
    matches!(gain, Gain::Silence)
}

fn is_unity(gain: Gain) -> bool
    ensures { result ≡ is_unity gain }
{
    matches!(gain, Gain::Unity)
}

// ---- In place

// The first `whole` bytes, whole frames.
fn frames_in_place(pcm: &mut [u8], whole: usize, left: Gain, right: Gain)
    requires { (whole % 4 ≡ 0) × (whole ≤ length pcm.old) }
    ensures { AmplifiedTo whole left right pcm.old pcm.new × SameFrom whole pcm.old pcm.new }
{
    let silent = is_silence(left) & is_silence(right);
    let same = is_unity(left) & is_unity(right);
    if silent {
        pcm[..whole].fill(0);
    } else if !same {
        blocks_in_place(pcm, whole, left, right);
    }
}

// The same for any gains, up to 64 frames at a time.
fn blocks_in_place(pcm: &mut [u8], whole: usize, left: Gain, right: Gain)
    requires { (whole % 4 ≡ 0) × (whole ≤ length pcm.old) }
    ensures { AmplifiedTo whole left right pcm.old pcm.new × SameFrom whole pcm.old pcm.new }
{
    let mut lefts: [u16; 64] = [0; 64];
    let mut rights: [u16; 64] = [0; 64];
    let mut i = 0;
    // A block is as long as what is left allows, so that no range is gone through here.
    while i < whole {
        let n = block_of(whole - i);
        scale_frames(pcm, i, &mut lefts, &mut rights, n, left, right);
        scatter(&lefts, &rights, pcm, i, n);
        i += 4 * n;
    }
}

// The sample behind the whole frames, where two bytes are left there: a left one, since four would be a frame.
fn scale_rest(pcm: &mut [u8], at: usize, left: Gain)
    requires { at ≤ length pcm.old }
    ensures { pcm.new ≡ sample_scaled left at pcm.old }
{
    let next = at + 1;
    if next < pcm.len() {
        let w = scale_any(word_of(pcm[at], pcm[next]), left);
        pcm[at] = (w % 256) as u8;
        pcm[next] = (w / 256) as u8;
    }
}

// ---- From one buffer into another

// The first `whole` bytes, whole frames.
fn frames_into(pcm: &[u8], into: &mut [u8], whole: usize, left: Gain, right: Gain)
    requires { (whole % 4 ≡ 0) × (whole ≤ length into.old) × (whole ≤ length pcm.now) }
    ensures { AmplifiedTo whole left right pcm.now into.new }
{
    let silent = is_silence(left) & is_silence(right);
    let same = is_unity(left) & is_unity(right);
    if silent {
        into[..whole].fill(0);
    } else if same {
        into[..whole].copy_from_slice(&pcm[..whole]);
    } else {
        blocks_into(pcm, into, whole, left, right);
    }
}

// The same for any gains, up to 64 frames at a time. A twin of `blocks_in_place`: one function for both would be lent the same bytes to read and to write.
fn blocks_into(pcm: &[u8], into: &mut [u8], whole: usize, left: Gain, right: Gain)
    requires { (whole % 4 ≡ 0) × (whole ≤ length into.old) × (whole ≤ length pcm.now) }
    ensures { AmplifiedTo whole left right pcm.now into.new }
{
    let mut lefts: [u16; 64] = [0; 64];
    let mut rights: [u16; 64] = [0; 64];
    let mut i = 0;
    // A block is as long as what is left allows, so that no range is gone through here.
    while i < whole {
        let n = block_of(whole - i);
        scale_frames(pcm, i, &mut lefts, &mut rights, n, left, right);
        scatter(&lefts, &rights, into, i, n);
        i += 4 * n;
    }
}

// The bytes from `at` on, one by one: those of a last frame that `into` does not hold whole.
fn rest_into(pcm: &[u8], into: &mut [u8], at: usize, left: Gain, right: Gain)
    requires { (at ≤ length into.old) × (length into.old ≤ length pcm.now) × AmplifiedTo at left right pcm.now into.old }
    ensures { into.new ≡ one_pass_of left right pcm.now (length into.old) }
{
    for i in at..into.len() {
        into[i] = amplified_byte(pcm, i, left, right);
    }
}

// One byte of the amplified frames.
fn amplified_byte(pcm: &[u8], at: usize, left: Gain, right: Gain) -> u8
    requires { at < length pcm.now }
    ensures { result ≡ amplified_byte left right pcm.now at }
{
    let low = 2 * (at / 2);
    let high = low + 1;
    if high < pcm.len() {
        let gain = side_at(left, right, at);
        let w = scale_any(word_of(pcm[low], pcm[high]), gain);
        if at % 2 == 0 {
            (w % 256) as u8
        } else {
            (w / 256) as u8
        }
    } else {
        pcm[at]
    }
}

// The gain of the side to which the byte at `at` belongs.
fn side_at(left: Gain, right: Gain, at: usize) -> Gain
    ensures { result ≡ side_at left right at }
{
    if at % 4 < 2 { left } else { right }
}

// ---- Up to 64 frames at a time
// The compiler makes no vector code of a loop over the bytes themselves: it cannot tell those that are written from those still to be read,
// nor count the turns of a loop that goes by 4 up to a length. So up to 64 samples of each side go through a local array, by loops that
// count their turns. Vector code takes 8 samples a turn, and the same code without a branch what is left of them: no count of frames waits
// for a full block. Both sides are taken out before either is put back, since a load of bytes of which some were just stored waits for them.

// How many frames the next block takes, where so many bytes are left: all, but at most 64.
fn block_of(left: usize) -> usize
    ensures { result ≡ min (left / 4) 64 }
{
    (left / 4).min(64)
}

// The samples of n frames from the byte `at` on, each scaled by its side's gain.
fn scale_frames(
    pcm: &[u8],
    at: usize,
    lefts: &mut [u16],
    rights: &mut [u16],
    n: usize,
    left: Gain,
    right: Gain,
)
    requires { (n ≤ length lefts.old) × (n ≤ length rights.old) × (at + 4 * n ≤ length pcm.now) }
    ensures { ScaledSide n left pcm.now at lefts.new × ScaledSide n right pcm.now (at + 2) rights.new }
{
    gather(pcm, at, lefts, rights, n);
    scale_side(lefts, n, left);
    scale_side(rights, n, right);
}

// The samples of n frames: the left ones at `at`, at + 4, at + 8 and so on, the right ones two bytes behind each.
fn gather(pcm: &[u8], at: usize, lefts: &mut [u16], rights: &mut [u16], n: usize)
    requires { (n ≤ length lefts.old) × (n ≤ length rights.old) × (at + 4 * n ≤ length pcm.now) }
    ensures { Gathered n pcm.now at lefts.new × Gathered n pcm.now (at + 2) rights.new }
{
    for k in 0..n {
        let i = at + 4 * k;
        lefts[k] = word_of(pcm[i], pcm[i + 1]);
        rights[k] = word_of(pcm[i + 2], pcm[i + 3]);
    }
}

// The first n of a side's words scaled by its gain.
fn scale_side(words: &mut [u16], n: usize, gain: Gain)
    requires { n ≤ length words.old }
    ensures { ScaledWords n gain words.old words.new }
{
    match gain {
        Gain::Unity => {}
        Gain::Factor(factor) if is_blockwise(factor) => {
            scale_each(&mut words[..n], |word| scale_word(word, factor))
        }
        Gain::Silence | Gain::Factor(_) => {
            scale_each(&mut words[..n], |word| scale_any(word, gain))
        }
    }
}

// Whether a factor is above 0 and below 65536, as each of the table is. Others, as 0, an infinity or a NaN, are left to the plain form.
fn is_blockwise(factor: f64) -> bool
    ensures { result ≡ blockwise factor }
{
    (factor > 0.0) & (factor < 65536.0)
}

// Each word scaled.
fn scale_each<F: Fn(u16) -> u16>(words: &mut [u16], scale: F)
    requires { F.IsAlwaysCallable scale }
    ensures { EachScaled (F.post scale) words.old words.new }
{
    for word in words.iter_mut() {
        *word = scale(*word);
    }
}

// The words put where `gather` took them, in this buffer or another.
fn scatter(lefts: &[u16], rights: &[u16], pcm: &mut [u8], at: usize, n: usize)
    requires { (n ≤ length lefts.now) × (n ≤ length rights.now) × (at + 4 * n ≤ length pcm.old) }
    ensures { Scattered n lefts.now rights.now at pcm.old pcm.new }
{
    for k in 0..n {
        let i = at + 4 * k;
        let i1 = i + 1;
        let i2 = i + 2;
        let i3 = i + 3;
        let l = lefts[k];
        let r = rights[k];
        pcm[i] = (l % 256) as u8;
        pcm[i1] = (l / 256) as u8;
        pcm[i2] = (r % 256) as u8;
        pcm[i3] = (r / 256) as u8;
    }
}

// ---- The table

// The double nearest to 10^((byte - 74) / 20), in the shortest decimal digits that are read as it. A match, and not an array: the compiler
// reads a match's numbers from a table where it stands, and would put an array onto the stack at each call.
fn factor_of(byte: u8) -> f64
    requires { byte < 128 }
    ensures { result ≡ factor byte }
{
    match byte {
        0 => 0.00019952623149688796,
        1 => 0.00022387211385683397,
        2 => 0.000251188643150958,
        3 => 0.0002818382931264454,
        4 => 0.00031622776601683794,
        5 => 0.0003548133892335755,
        6 => 0.00039810717055349724,
        7 => 0.0004466835921509631,
        8 => 0.0005011872336272723,
        9 => 0.0005623413251903491,
        10 => 0.0006309573444801932,
        11 => 0.0007079457843841379,
        12 => 0.0007943282347242815,
        13 => 0.0008912509381337455,
        14 => 0.001,
        15 => 0.0011220184543019635,
        16 => 0.0012589254117941673,
        17 => 0.0014125375446227544,
        18 => 0.0015848931924611134,
        19 => 0.0017782794100389228,
        20 => 0.00199526231496888,
        21 => 0.0022387211385683395,
        22 => 0.0025118864315095803,
        23 => 0.002818382931264454,
        24 => 0.0031622776601683794,
        25 => 0.0035481338923357545,
        26 => 0.0039810717055349725,
        27 => 0.004466835921509631,
        28 => 0.005011872336272723,
        29 => 0.005623413251903491,
        30 => 0.006309573444801933,
        31 => 0.0070794578438413795,
        32 => 0.007943282347242816,
        33 => 0.008912509381337455,
        34 => 0.01,
        35 => 0.011220184543019634,
        36 => 0.012589254117941671,
        37 => 0.014125375446227544,
        38 => 0.015848931924611134,
        39 => 0.01778279410038923,
        40 => 0.019952623149688795,
        41 => 0.022387211385683396,
        42 => 0.0251188643150958,
        43 => 0.02818382931264454,
        44 => 0.03162277660168379,
        45 => 0.035481338923357544,
        46 => 0.03981071705534973,
        47 => 0.044668359215096314,
        48 => 0.05011872336272723,
        49 => 0.05623413251903491,
        50 => 0.06309573444801933,
        51 => 0.07079457843841379,
        52 => 0.07943282347242815,
        53 => 0.08912509381337455,
        54 => 0.1,
        55 => 0.11220184543019635,
        56 => 0.12589254117941673,
        57 => 0.14125375446227542,
        58 => 0.15848931924611134,
        59 => 0.1778279410038923,
        60 => 0.19952623149688797,
        61 => 0.22387211385683395,
        62 => 0.251188643150958,
        63 => 0.28183829312644537,
        64 => 0.31622776601683794,
        65 => 0.35481338923357547,
        66 => 0.39810717055349726,
        67 => 0.4466835921509631,
        68 => 0.5011872336272722,
        69 => 0.5623413251903491,
        70 => 0.6309573444801932,
        71 => 0.7079457843841379,
        72 => 0.7943282347242815,
        73 => 0.8912509381337456,
        74 => 1.0,
        75 => 1.1220184543019633,
        76 => 1.2589254117941673,
        77 => 1.4125375446227544,
        78 => 1.5848931924611134,
        79 => 1.7782794100389228,
        80 => 1.9952623149688795,
        81 => 2.2387211385683394,
        82 => 2.51188643150958,
        83 => 2.8183829312644537,
        84 => 3.1622776601683795,
        85 => 3.5481338923357546,
        86 => 3.9810717055349727,
        87 => 4.466835921509631,
        88 => 5.011872336272723,
        89 => 5.623413251903491,
        90 => 6.3095734448019325,
        91 => 7.0794578438413795,
        92 => 7.943282347242815,
        93 => 8.912509381337456,
        94 => 10.0,
        95 => 11.220184543019634,
        96 => 12.589254117941673,
        97 => 14.125375446227544,
        98 => 15.848931924611135,
        99 => 17.78279410038923,
        100 => 19.952623149688797,
        101 => 22.387211385683397,
        102 => 25.118864315095802,
        103 => 28.183829312644537,
        104 => 31.622776601683793,
        105 => 35.48133892335755,
        106 => 39.81071705534973,
        107 => 44.66835921509631,
        108 => 50.11872336272723,
        109 => 56.23413251903491,
        110 => 63.09573444801932,
        111 => 70.7945784384138,
        112 => 79.43282347242815,
        113 => 89.12509381337455,
        114 => 100.0,
        115 => 112.20184543019634,
        116 => 125.89254117941672,
        117 => 141.25375446227542,
        118 => 158.48931924611134,
        119 => 177.82794100389228,
        120 => 199.52623149688796,
        121 => 223.87211385683395,
        122 => 251.188643150958,
        123 => 281.83829312644536,
        124 => 316.22776601683796,
        125 => 354.81338923357544,
        126 => 398.10717055349727,
        _ => 446.68359215096314,
    }
}
