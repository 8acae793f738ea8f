// Takes as RIFF WAVE (T-02): pulled frames, 16-bit stereo, written as a file into lent space, and read back out of exactly the bytes that a write makes.
#![tactic(auto)]

ghost use Rattle.std.specs.Prelude.{◌≡◌, ◌≤◌};
ghost use Rattle.wav.specs.Header.{header_of};
ghost use Rattle.wav.specs.Files.{size_limit, storable, is_file, filled_by, fill_out, write_of, read_of};

use refusal::Refusal;

// How many bytes a call wrote into the lent space, and the frames a second of the take.
#[derive(Clone, Copy, PartialEq, Eq, Debug)]
pub struct Written {
    pub count: u64,
    pub rate: u32,
}

// Bytes of the header, and of frames behind it at most: with one frame more the file's own size would not fit 32 bits.
const HEADER_BYTES: usize = 44;

const MAX_FRAMES_BYTES: usize = 4_294_967_256;

const FRAME_BYTES: u32 = 4;

// Where the fields stand that differ from file to file.
const RIFF_SIZE: usize = 4;

const RATE: usize = 24;

const BYTE_RATE: usize = 28;

const DATA_SIZE: usize = 40;

// A rate of the box, whole frames, and no more of them than sizes in 32 bits can say.
fn is_storable(rate: u32, size: usize) -> bool
    ensures { result ≡ storable rate size }
{
    format::supported(rate) & ((size % 4 == 0) & (size <= MAX_FRAMES_BYTES))
}

// The header of a file with `size` bytes of frames: what all files have alike, and the four fields in which they differ.
fn header(rate: u32, size: u32) -> [u8; 44]
    requires { (rate ≤ 96_000) × (size ≤ size_limit) }
    ensures { result ≡ header_of rate size }
{
    let mut header =
        *b"RIFF\0\0\0\0WAVEfmt \x10\0\0\0\x01\0\x02\0\0\0\0\0\0\0\0\0\x04\0\x10\0data\0\0\0\0";
    word::put::<u32>(&mut header, RIFF_SIZE, 36 + size);
    word::put::<u32>(&mut header, RATE, rate);
    word::put::<u32>(&mut header, BYTE_RATE, rate * FRAME_BYTES);
    word::put::<u32>(&mut header, DATA_SIZE, size);
    header
}

// Whether a file is one that `write` makes: its header is the one of its rate and of the frames behind it.
fn is_file(file: &[u8]) -> bool
    ensures { result ≡ is_file file.now }
{
    if file.len() < HEADER_BYTES {
        return false;
    }
    let rate = word::get::<u32>(file, RATE);
    let size = file.len() - HEADER_BYTES;
    if !is_storable(rate, size) {
        return false;
    }
    let written = header(rate, size as u32);
    file.starts_with(&written)
}

// Frames as a file from the start of the lent space on; the rest stays.
pub fn write(rate: u32, frames: &[u8], into: &mut [u8]) -> Result<Written, Refusal>
    ensures { fill_out (filled_by result) into.new ≡ write_of rate frames.now into.old }
{
    if !is_storable(rate, frames.len()) {
        return Err(Refusal::Wav);
    }
    let count = HEADER_BYTES + frames.len();
    if into.len() < count {
        return Err(Refusal::ShortSpace);
    }
    let first = header(rate, frames.len() as u32);
    word::copy(&first, into);
    word::copy(frames, &mut into[HEADER_BYTES..count]);
    Ok(Written {
        count: count as u64,
        rate,
    })
}

// The frames of a file from the start of the lent space on; the rest stays.
pub fn read(file: &[u8], into: &mut [u8]) -> Result<Written, Refusal>
    ensures { fill_out (filled_by result) into.new ≡ read_of file.now into.old }
{
    if !is_file(file) {
        return Err(Refusal::Wav);
    }
    let size = file.len() - HEADER_BYTES;
    if into.len() < size {
        return Err(Refusal::ShortSpace);
    }
    let rate = word::get::<u32>(file, RATE);
    word::copy(&file[HEADER_BYTES..], into);
    Ok(Written {
        count: size as u64,
        rate,
    })
}
