// Noise in guest memory, the same on both sides: in a memory of zeros a wrong address shows nothing. Powers of a root modulo a prime; from 0 on, zeros.
ghost use Rattle.std.specs.Prelude.{◌≡◌, ◌%◌, ◌<◌, length};
ghost use Rattle.rehearse.specs.Noise.{next_of, noise_of};

fn next(power: u64) -> u64
    requires { power < 2147483647 }
    ensures value { result ≡ next_of power }
    ensures upper_bound { result < 2147483647 }
{
    power * 48271 % 2147483647
}

pub fn fill(memory: &mut [u8], seed: u64)
    ensures { memory.new ≡ noise_of (length memory.old) (seed % 2147483647) }
{
    let mut power = seed % 2147483647;
    for byte in memory.iter_mut() {
        power = next(power);
        *byte = (power / 8388608) as u8;
    }
}
