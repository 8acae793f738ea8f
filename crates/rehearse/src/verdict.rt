// One recorded call on the proved device, and whether it gave what was recorded.
ghost use Rattle.std.specs.Prelude.{◌≡◌, ◌%◌};
ghost use Rattle.port_device.specs.Calls.{lent};
ghost use Rattle.rehearse.specs.Digest.{looked_of};
ghost use Rattle.rehearse.specs.Recorded.{agrees_of};
ghost use Rattle.rehearse.specs.Verdict.{performed, perform_of, judged, run_of, judge_of};

use crate::call::{Call, Kind};
use crate::{calls, digest};

// What bytes that a call is to give hold before it, so that those which it leaves alone are known.
const UNTOUCHED: u8 = 0xee;

// What a byte that is no kind returns, as no call does.
const NONE: u64 = 255;

// The low 32 bits.
fn low(x: u64) -> u32
    ensures { result ≡ x % 4294967296 }
{
    (x % 4294967296) as u32
}

// The call by its kind. The spaces stay parameters: with a struct of these `&mut`s `judge`'s `returns` stayed open, that `device.new` is what `run` left in its field.
fn perform(
    call: Call,
    bytes: &[u8],
    device: &mut [u8],
    host: &mut [u8],
    lists: &mut [u8],
    queues: &mut [u8],
    memory: &mut [u8],
    into: &mut [u8],
) -> u64
    ensures { performed result (lent device.new host.new lists.new queues.new memory.new) into.new ≡ perform_of call bytes.now (lent device.old host.old lists.old queues.old memory.old) into.old }
{
    let first = call.first;
    let second = call.second;
    match Kind::from(call.kind) {
        Kind::Fresh => calls::fresh(device, host, lists, queues, first != 0),
        Kind::Noise => calls::noise(memory, second),
        Kind::Poke => calls::poke(memory, first, bytes),
        Kind::Look => 0,
        Kind::Advance => port_device::advance(device, host, lists, queues, memory, first),
        Kind::Write => port_device::write(device, host, lists, queues, memory, first, bytes),
        Kind::BarWrite => port_device::bar_write(
            device,
            host,
            lists,
            queues,
            memory,
            low(second),
            first,
            bytes,
        ),
        Kind::ConfigWrite => {
            port_device::config_write(device, host, lists, queues, memory, first, second, bytes)
        }
        Kind::PinPresence => {
            port_device::pin_presence_changed(device, host, lists, queues, memory, low(first))
        }
        Kind::Pause => port_device::set_paused(device, host, lists, queues, first != 0),
        Kind::Restore => port_device::restore(true, device, host, lists, queues, bytes),
        Kind::RestoreEmptied => port_device::restore(false, device, host, lists, queues, bytes),
        Kind::Read => port_reads::read(device, host, lists, queues, first, into),
        Kind::BarRead => port_reads::bar_read(
            device,
            host,
            lists,
            queues,
            low(second),
            first,
            into,
        ),
        Kind::ConfigRead => port_reads::config_read(device, host, lists, queues, first),
        Kind::Save => port_reads::save(device, host, lists, queues, into),
        Kind::Feed => port_host::feed(host, queues, bytes),
        Kind::Pull => port_host::pull(host, queues, into),
        Kind::PlaybackFails => port_host::set_playback_fails(host, queues, first != 0),
        Kind::CaptureFails => port_host::set_capture_fails(host, queues, first != 0),
        Kind::Downstream => port_host::set_downstream(host, queues, low(first)),
        Kind::Unknown => NONE,
    }
}

// Kind 3 looks at guest memory, any other at what device and host end hold.
fn digest_of(
    kind: u8,
    into: &[u8],
    device: &[u8],
    host: &[u8],
    lists: &[u8],
    queues: &[u8],
    memory: &[u8],
) -> u32
    ensures { result ≡ looked_of kind into.now device.now host.now lists.now queues.now memory.now }
{
    if kind == 3 {
        return digest::digest(1, memory);
    }
    digest::held(into, device, host, lists, queues)
}

fn agrees(call: Call, reply: u64, digest: u32) -> bool
    ensures { result ≡ agrees_of call reply digest }
{
    (call.reply == reply) & (call.digest == digest)
}

// The call, and whether it gave what was recorded.
fn run(
    call: Call,
    bytes: &[u8],
    device: &mut [u8],
    host: &mut [u8],
    lists: &mut [u8],
    queues: &mut [u8],
    memory: &mut [u8],
    into: &mut [u8],
) -> bool
    ensures { judged result (lent device.new host.new lists.new queues.new memory.new) into.new ≡ run_of call bytes.now (lent device.old host.old lists.old queues.old memory.old) into.old }
{
    into.fill(UNTOUCHED);
    let reply = perform(call, bytes, device, host, lists, queues, memory, into);
    let digest = digest_of(call.kind, into, device, host, lists, queues, memory);
    agrees(call, reply, digest)
}

// A call on the first `length` bytes of guest memory, and on as much of the room as it says.
pub fn judge(
    call: Call,
    bytes: &[u8],
    device: &mut [u8],
    host: &mut [u8],
    lists: &mut [u8],
    queues: &mut [u8],
    memory: &mut [u8],
    room: &mut [u8],
    length: usize,
) -> bool
    ensures { judged result (lent device.new host.new lists.new queues.new memory.new) room.new ≡ judge_of call bytes.now length (lent device.old host.old lists.old queues.old memory.old) room.old }
{
    let count = call.room as usize;
    if memory.len() < length {
        return false;
    }
    if room.len() < count {
        return false;
    }
    run(
        call,
        bytes,
        device,
        host,
        lists,
        queues,
        &mut memory[..length],
        &mut room[..count],
    )
}
