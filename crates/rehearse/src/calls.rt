// The calls that are none of the ports' own: a new device behind a new host end, and what reaches guest memory.
ghost use Rattle.std.specs.Prelude.{◌≡◌, length};
ghost use Rattle.port_device.specs.Calls.{stored_out};
ghost use Rattle.rehearse.specs.Calls.{fresh_of, noised_of, poke_of, reached};

// A new device and a new host end.
pub fn fresh(
    device: &mut [u8],
    host: &mut [u8],
    lists: &[u8],
    queues: &[u8],
    microphone: bool,
) -> u64
    ensures { stored_out result device.new host.new ≡ fresh_of microphone device.old host.old (length lists.now) (length queues.now) }
{
    let end = port_host::new(host, queues);
    if end != 0 {
        return end;
    }
    port_device::new(device, lists, queues, microphone)
}

// Noise in guest memory, from a seed.
pub fn noise(memory: &mut [u8], seed: u64) -> u64
    ensures { reached result memory.new ≡ noised_of seed memory.old }
{
    crate::noise::fill(memory, seed);
    0
}

// Bytes at an address. 1 is returned where guest memory does not have them.
#[tactic(auto, unfolding(crate::specs::Calls::poke_of))]
pub fn poke(memory: &mut [u8], address: u64, bytes: &[u8]) -> u64
    ensures { reached result memory.new ≡ poke_of address bytes.now memory.old }
{
    let at = address as usize;
    if memory.len() < at || memory.len() - at < bytes.len() {
        return 1;
    }
    record::put(memory, at, bytes);
    0
}
