// Bytes as hexadecimal digits in lower case, two to a byte, the high one first.
ghost use Rattle.std.specs.Prelude.{◌≡◌, ◌*◌, ◌<◌, length};
ghost use Rattle.replay.specs.Hex.{hex_digit_ascii, value_of, pair_of, from_hex, to_hex};

// What a digit stands for. Any other character counts as 0: written out again, it shows as another.
fn value(c: u8) -> u8
    ensures value { result ≡ value_of c }
    ensures upper_bound { result < 16 }
{
    match c {
        b'0'..=b'9' => c - b'0',
        b'a'..=b'f' => c - b'a' + 10,
        _ => 0,
    }
}

fn pair(high: u8, low: u8) -> u8
    ensures { result ≡ pair_of high low }
{
    16 * value(high) + value(low)
}

// The digit of a number below 16.
fn digit(d: u8) -> u8
    requires { d < 16 }
    ensures { result ≡ hex_digit_ascii d }
{
    if d < 10 { b'0' + d } else { b'a' - 10 + d }
}

// The bytes that the digits of `text` give.
pub fn decode(text: &[u8], bytes: &mut [u8])
    requires { length text.now ≡ 2 * length bytes.old }
    ensures { bytes.new ≡ from_hex text.now }
{
    for (i, byte) in bytes.iter_mut().enumerate() {
        *byte = pair(text[2 * i], text[2 * i + 1]);
    }
}

// The digits of `bytes`.
pub fn encode(bytes: &[u8], text: &mut [u8])
    requires { length text.old ≡ 2 * length bytes.now }
    ensures { text.new ≡ to_hex bytes.now }
{
    for (i, byte) in bytes.iter().enumerate() {
        text[2 * i] = digit(byte / 16);
        text[2 * i + 1] = digit(byte % 16);
    }
}
