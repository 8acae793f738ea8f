// The device's C functions (include/hda.h, docs/LAYOUT.md). A slice is a pointer and a length; any bytes of any lengths may come in any order. Each function is the call of
// crates port_device, port_reads, port_host and port_wav by its C name. Its contract is the outcome that crate lent_calls gives for that call, the very definition that demand 3 on bytes steps by; bytes
// that a function is not handed are `none` there. A flag is any number, and all but 0 is true. The last two are handed no device and no host end, and are no calls of demand 3.
#![tactic(auto)]

ghost use Rattle.std.specs.Prelude.{◌≡◌, true, false, not, eqb};
ghost use Rattle.calls.specs.Calls.{advance, read, write, bar_read, bar_write, config_read, config_write, pin_change, pause, feed, pull, playback_fails, capture_fails, downstream, save, restore};
ghost use Rattle.port_device.specs.Calls.{lent, returned, made, none};
ghost use Rattle.port_reads.specs.Reads.{shown};
ghost use Rattle.port_host.specs.Calls.{kept, fed_out, pulled_out};
ghost use Rattle.lent_calls.specs.Calls.{new, host_new, on, call_of};
ghost use Rattle.port_wav.specs.Calls.{filled_out, write_of, read_of};

// A new device into its record.
#[unsafe(no_mangle)]
pub extern "C" fn hda_new(device: &mut [u8], lists: &[u8], queues: &[u8], microphone: u32) -> u64
    ensures { made result device.new ≡ call_of (new (not (eqb microphone 0))) (lent device.old none lists.now queues.now none) }
{
    port_device::new(device, lists, queues, microphone != 0)
}

// A new host end into its record.
#[unsafe(no_mangle)]
pub extern "C" fn hda_host_new(host: &mut [u8], queues: &[u8]) -> u64
    ensures { kept result host.new ≡ call_of host_new (lent none host.old none queues.now none) }
{
    port_host::new(host, queues)
}

// `nanos` nanoseconds pass.
#[unsafe(no_mangle)]
pub extern "C" fn hda_advance(
    device: &mut [u8],
    host: &mut [u8],
    lists: &mut [u8],
    queues: &mut [u8],
    memory: &mut [u8],
    nanos: u64,
) -> u64
    ensures { returned result (lent device.new host.new lists.new queues.new memory.new) ≡ call_of (on (advance nanos)) (lent device.old host.old lists.old queues.old memory.old) }
{
    port_device::advance(device, host, lists, queues, memory, nanos)
}

// Registers from `offset` on into the buffer.
#[unsafe(no_mangle)]
pub extern "C" fn hda_read(
    device: &[u8],
    host: &[u8],
    lists: &[u8],
    queues: &[u8],
    offset: u64,
    into: &mut [u8],
) -> u64
    ensures { shown result into.new ≡ call_of (on (read offset into.old)) (lent device.now host.now lists.now queues.now none) }
{
    port_reads::read(device, host, lists, queues, offset, into)
}

// A guest's write to the registers from `offset` on.
#[unsafe(no_mangle)]
pub extern "C" fn hda_write(
    device: &mut [u8],
    host: &mut [u8],
    lists: &[u8],
    queues: &[u8],
    memory: &mut [u8],
    offset: u64,
    bytes: &[u8],
) -> u64
    ensures { returned result (lent device.new host.new lists.now queues.now memory.new) ≡ call_of (on (write offset bytes.now)) (lent device.old host.old lists.now queues.now memory.old) }
{
    port_device::write(device, host, lists, queues, memory, offset, bytes)
}

// The same at any base address: 0 is the registers; another reads 0 and drops writes.
#[unsafe(no_mangle)]
pub extern "C" fn hda_bar_read(
    device: &[u8],
    host: &[u8],
    lists: &[u8],
    queues: &[u8],
    bar: u32,
    offset: u64,
    into: &mut [u8],
) -> u64
    ensures { shown result into.new ≡ call_of (on (bar_read bar offset into.old)) (lent device.now host.now lists.now queues.now none) }
{
    port_reads::bar_read(device, host, lists, queues, bar, offset, into)
}

#[unsafe(no_mangle)]
pub extern "C" fn hda_bar_write(
    device: &mut [u8],
    host: &mut [u8],
    lists: &[u8],
    queues: &[u8],
    memory: &mut [u8],
    bar: u32,
    offset: u64,
    bytes: &[u8],
) -> u64
    ensures { returned result (lent device.new host.new lists.now queues.now memory.new) ≡ call_of (on (bar_write bar offset bytes.now)) (lent device.old host.old lists.now queues.now memory.old) }
{
    port_device::bar_write(device, host, lists, queues, memory, bar, offset, bytes)
}

// A configuration register, as the value returned.
#[unsafe(no_mangle)]
pub extern "C" fn hda_config_read(
    device: &[u8],
    host: &[u8],
    lists: &[u8],
    queues: &[u8],
    register: u64,
) -> u64
    ensures { result ≡ call_of (on (config_read register)) (lent device.now host.now lists.now queues.now none) }
{
    port_reads::config_read(device, host, lists, queues, register)
}

// A write to the configuration, from byte `offset` of a register on.
#[unsafe(no_mangle)]
pub extern "C" fn hda_config_write(
    device: &mut [u8],
    host: &[u8],
    lists: &[u8],
    queues: &[u8],
    memory: &mut [u8],
    register: u64,
    offset: u64,
    bytes: &[u8],
) -> u64
    ensures { returned result (lent device.new host.now lists.now queues.now memory.new) ≡ call_of (on (config_write register offset bytes.now)) (lent device.old host.now lists.now queues.now memory.old) }
{
    port_device::config_write(device, host, lists, queues, memory, register, offset, bytes)
}

// The presence of something at a pin has changed.
#[unsafe(no_mangle)]
pub extern "C" fn hda_pin_presence_changed(
    device: &mut [u8],
    host: &[u8],
    lists: &[u8],
    queues: &[u8],
    memory: &mut [u8],
    node: u32,
) -> u64
    ensures { returned result (lent device.new host.now lists.now queues.now memory.new) ≡ call_of (on (pin_change node)) (lent device.old host.now lists.now queues.now memory.old) }
{
    port_device::pin_presence_changed(device, host, lists, queues, memory, node)
}

// DMA, positions and the wall clock stand still while paused.
#[unsafe(no_mangle)]
pub extern "C" fn hda_set_paused(
    device: &mut [u8],
    host: &[u8],
    lists: &[u8],
    queues: &[u8],
    paused: u32,
) -> u64
    ensures { made result device.new ≡ call_of (on (pause (not (eqb paused 0)))) (lent device.old host.now lists.now queues.now none) }
{
    port_device::set_paused(device, host, lists, queues, paused != 0)
}

// The saved state from the start of the lent space on; the value returned is its length.
#[unsafe(no_mangle)]
pub extern "C" fn hda_save(
    device: &[u8],
    host: &[u8],
    lists: &[u8],
    queues: &[u8],
    into: &mut [u8],
) -> u64
    ensures { shown result into.new ≡ call_of (on (save into.old)) (lent device.now host.now lists.now queues.now none) }
{
    port_reads::save(device, host, lists, queues, into)
}

// A saved state in the place of the device's own.
#[unsafe(no_mangle)]
pub extern "C" fn hda_restore(
    device: &mut [u8],
    host: &mut [u8],
    lists: &mut [u8],
    queues: &[u8],
    state: &[u8],
) -> u64
    ensures { returned result (lent device.new host.new lists.new queues.now none) ≡ call_of (on (restore true state.now)) (lent device.old host.old lists.old queues.now none) }
{
    port_device::restore(true, device, host, lists, queues, state)
}

// The same for states with crowded lists: those lists are emptied.
#[unsafe(no_mangle)]
pub extern "C" fn hda_restore_emptied(
    device: &mut [u8],
    host: &mut [u8],
    lists: &mut [u8],
    queues: &[u8],
    state: &[u8],
) -> u64
    ensures { returned result (lent device.new host.new lists.new queues.now none) ≡ call_of (on (restore false state.now)) (lent device.old host.old lists.old queues.now none) }
{
    port_device::restore(false, device, host, lists, queues, state)
}

// Frames into the queue of the capture stream; the value returned is their count.
#[unsafe(no_mangle)]
pub extern "C" fn hda_feed(host: &mut [u8], queues: &mut [u8], frames: &[u8]) -> u64
    ensures { fed_out result host.new queues.new ≡ call_of (on (feed frames.now)) (lent none host.old none queues.old none) }
{
    port_host::feed(host, queues, frames)
}

// Frames out of the queue of the playback stream; the value returned is their count.
#[unsafe(no_mangle)]
pub extern "C" fn hda_pull(host: &mut [u8], queues: &mut [u8], into: &mut [u8]) -> u64
    ensures { pulled_out result host.new queues.new into.new ≡ call_of (on (pull into.old)) (lent none host.old none queues.old none) }
{
    port_host::pull(host, queues, into)
}

// Whether openings for playback fail.
#[unsafe(no_mangle)]
pub extern "C" fn hda_set_playback_fails(host: &mut [u8], queues: &[u8], fails: u32) -> u64
    ensures { kept result host.new ≡ call_of (on (playback_fails (not (eqb fails 0)))) (lent none host.old none queues.now none) }
{
    port_host::set_playback_fails(host, queues, fails != 0)
}

// Whether openings for capture fail.
#[unsafe(no_mangle)]
pub extern "C" fn hda_set_capture_fails(host: &mut [u8], queues: &[u8], fails: u32) -> u64
    ensures { kept result host.new ≡ call_of (on (capture_fails (not (eqb fails 0)))) (lent none host.old none queues.now none) }
{
    port_host::set_capture_fails(host, queues, fails != 0)
}

// Bytes that the host holds beyond the queue.
#[unsafe(no_mangle)]
pub extern "C" fn hda_set_downstream(host: &mut [u8], queues: &[u8], bytes: u32) -> u64
    ensures { kept result host.new ≡ call_of (on (downstream bytes)) (lent none host.old none queues.now none) }
{
    port_host::set_downstream(host, queues, bytes)
}

// Pulled frames as a WAV file from the start of the lent space on.
#[unsafe(no_mangle)]
pub extern "C" fn hda_wav_write(rate: u32, frames: &[u8], into: &mut [u8]) -> u64
    ensures { filled_out result into.new ≡ write_of rate frames.now into.old }
{
    port_wav::write(rate, frames, into)
}

// The frames of a WAV file from the start of the lent space on.
#[unsafe(no_mangle)]
pub extern "C" fn hda_wav_read(file: &[u8], into: &mut [u8]) -> u64
    ensures { filled_out result into.new ≡ read_of file.now into.old }
{
    port_wav::read(file, into)
}
