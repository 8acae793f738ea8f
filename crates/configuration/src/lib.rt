// The device's configuration space (the Rust's `PciDevice`).
#![tactic(auto)]

ghost use Rattle.std.specs.Prelude.{◌≡◌, ◌+◌, ◌*◌, ◌^◌, ◌≤◌, ◌<◌, length, SomeIff};
ghost use Rattle.configuration.specs.Configuration.{fresh_of, read_of, write_byte_of, write_of};

// Bytes of a configuration space.
pub const SIZE: usize = 256;

pub type Config = word::File;

// The ICH9's vendor and device, at 0 and again as the subsystem.
pub const IDENTITY: u32 = 0x293e_8086;

// The configuration of a new device.
#[tactic(auto, unfolding(crate::specs::Configuration::fresh_of))]
pub fn fresh() -> Config
    ensures { result ≡ fresh_of }
{
    let mut config = [0u8; SIZE];
    word::put::<u32>(&mut config, 0x00, IDENTITY);
    config[0x06] = 0x10;
    word::put::<u32>(&mut config, 0x08, 0x0403_0003);
    word::put::<u32>(&mut config, 0x2c, IDENTITY);
    config[0x34] = 0x60;
    config[0x3d] = 1;
    config[0x60] = 5;
    config[0x62] = 0x80;
    config
}

// A register of 4 bytes, of a configuration that stands in a slice; 0 past the last.
#[tactic(auto, unfolding(crate::specs::Configuration::read_of))]
pub fn read_in(config: &[u8], register: u64) -> u32
    requires { 256 ≤ length config.now }
    ensures { result ≡ read_of config.now register }
{
    if 64 <= register {
        return 0;
    }
    let value = word::get::<u32>(config, 4 * register as usize);
    if register == 4 {
        value & 0xffff_c000
    } else {
        value
    }
}

// The byte at `a`, as far as it can be written.
#[tactic(auto, unfolding(crate::specs::Configuration::write_byte_of))]
fn write_byte(config: &mut [u8], a: usize, byte: u8)
    requires { (256 ≤ length config.old) × (a < 256) }
    ensures { config.new ≡ write_byte_of config.old a byte }
{
    match a {
        0x10..0x14 | 0x3c | 0x64..0x6e => config[a] = byte,
        0x04 => config[a] = byte & 6,
        0x05 => config[a] = byte & 4,
        0x62 => config[a] = 0x80 | (byte & 1),
        _ => {}
    }
}

// The address of byte `offset` of a register, where 64 bits hold it.
pub fn address(register: u64, offset: u64) -> Option<u64>
    ensures { SomeIff result (4 * register + offset < 2 ^ 64) (4 * register + offset) }
{
    register.checked_mul(4)?.checked_add(offset)
}

// The bytes in order from address `start` on.
pub fn write(config: &mut [u8], start: u64, bytes: &[u8])
    requires { 256 ≤ length config.old }
    ensures { config.new ≡ write_of config.old start bytes.now }
{
    // Counted beside the loop: the pairs of a `zip` with the addresses would carry no bound on them into the proof.
    let mut a = start as usize;
    for byte in bytes {
        // No byte from here on can be written, and the next address might not fit.
        if SIZE <= a {
            return;
        }
        write_byte(config, a, *byte);
        a += 1;
    }
}
