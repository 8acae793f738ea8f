// The fast path of a guest's writes, where the device stands in its record. A write that resets, starts and stops nothing, and is no immediate command, changes the two
// files and the message latch alone, but for commands that wait. Any other is left to the calls on the whole device.
#![tactic(auto)]

ghost use Rattle.std.specs.Prelude.{◌≡◌, true, ◌≤◌, length};
ghost use Rattle.stream.specs.Box.{streams};
ghost use Rattle.bus.specs.Bus.{front_of, plain_write, bytes_of};
ghost use Rattle.device.specs.Machines.{machine};
ghost use Rattle.record.specs.Layout.{device_size};
ghost use Rattle.record.specs.Loads.{link_at, device_at, is_device};
ghost use Rattle.fastpath.specs.Quick.{stays_of, stay_from, quiet_of, tried, concluded_of, aligned_of, write_by, config_write_by};

use host::Host;
use in_place::Ended;
use registers::Registers;
use rings::Link;
use stream::STREAMS;

// Whether a stream goes on as it did, by its control byte before and after a write.
fn stays(before: u8, after: u8) -> bool
    ensures { result ≡ stays_of before after }
{
    let held = after & 1 != 0;
    let ran = before & 2 != 0;
    let runs = after & 2 != 0;
    !held && ran == runs
}

// Whether every stream does.
fn streams_stay(old: &Registers, regs: &Registers) -> bool
    ensures { result ≡ stay_from streams 0 old.now regs.now }
{
    (0..STREAMS).all(|index| {
        let at = registers::STREAM_BASE + registers::STREAM_SIZE * index;
        stays(old[at], regs[at])
    })
}

// Whether a write that left `regs` of `old` resets, flushes, starts and stops nothing.
#[tactic(auto, unfolding(crate::specs::Quick::quiet_of))]
fn is_quiet(old: &Registers, regs: &Registers) -> bool
    ensures { result ≡ quiet_of old.now regs.now }
{
    let before = old[registers::GCTL] & 1 != 0;
    let after = regs[registers::GCTL] & 1 != 0;
    let flush = regs[registers::GCTL] & 2 != 0;
    before == after && !flush && streams_stay(old, regs)
}

// The bytes of a write in order, and the alignment after them.
fn written(regs: &mut Registers, offset: u64, bytes: &[u8])
    requires { plain_write offset (length bytes.now) ≡ true }
    ensures { (l : Link) → front_of regs.new l ≡ aligned_of (bytes_of (front_of regs.old l) offset bytes.now) }
{
    bus::write_plain(regs, offset, bytes);
    registers::align(regs);
}

// The commands and the interrupt.
fn conclude(device: &mut [u8], memory: &mut [u8]) -> Option<Ended>
    requires { (length device.old ≡ device_size) × (is_device device.old ≡ true) × ((link_at device.old).responses ≤ 255) }
    ensures { tried result device.new memory.new ≡ concluded_of (device_at device.old) memory.old }
{
    in_place::commands(device, memory);
    Some(in_place::finish(device))
}

// A guest's write to the registers from `offset` on.
pub fn write(
    device: &mut [u8],
    host: Host,
    lists: &[u8],
    queues: &[u8],
    memory: &mut [u8],
    offset: u64,
    bytes: &[u8],
) -> Option<Ended>
    requires { (length device.old ≡ device_size) × (is_device device.old ≡ true) }
    ensures { tried result device.new memory.new ≡ write_by offset bytes.now device.old (machine (device_at device.old) host lists.now queues.now memory.old) }
{
    if read::check(device, host, lists, queues.len()).is_err() {
        return None;
    }
    if !bus::is_plain_write(offset, bytes.len()) {
        return None;
    }
    let old = record::load_block(device, record::REGISTERS);
    let mut regs = old;
    written(&mut regs, offset, bytes);
    if !is_quiet(&old, &regs) {
        return None;
    }
    record::replace_registers(device, &regs);
    conclude(device, memory)
}

// A write to the configuration, from byte `offset` of a register on.
pub fn config_write(
    device: &mut [u8],
    host: Host,
    lists: &[u8],
    queues: &[u8],
    memory: &mut [u8],
    register: u64,
    offset: u64,
    bytes: &[u8],
) -> Option<Ended>
    requires { (length device.old ≡ device_size) × (is_device device.old ≡ true) }
    ensures { tried result device.new memory.new ≡ config_write_by register offset bytes.now device.old (machine (device_at device.old) host lists.now queues.now memory.old) }
{
    if read::check(device, host, lists, queues.len()).is_err() {
        return None;
    }
    let Some(start) = configuration::address(register, offset) else {
        return None;
    };
    configuration::write(&mut device[record::CONFIG..record::REGISTERS], start, bytes);
    conclude(device, memory)
}
