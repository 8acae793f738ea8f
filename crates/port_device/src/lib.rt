// Calls that change a device, where the caller has its record and that of the host end as bytes. Each returns one number (crate reply). `advance` works on the record, and
// so do most writes (crate fastpath); else the device is taken out of its record, handed on by value, and put back.
// Each tests the records by itself: it returns a number, so that the match of a helper's Result would be as long as the test.
#![tactic(auto)]

ghost use Rattle.std.specs.Prelude.{◌≡◌, length};
ghost use Rattle.record.specs.Layout.{device_size};
ghost use Rattle.host_record.specs.Hosts.{host_size};
ghost use Rattle.advance.specs.Advance.{advance_of};
ghost use Rattle.write.specs.Writes.{write_of};
ghost use Rattle.hda.specs.Calls.{bar_write_of, config_write_of, pin_of};
ghost use Rattle.port_device.specs.Calls.{lent, returned, made, made_of, answered_of, carried_reply, stored_out, stored_of, behind, none, restored_by, new_of, paused_of};

use device::Answer;
use in_place::Ended;
use refusal::Refusal;

// What is returned for an answer.
fn answered(a: Answer) -> u64
    ensures { result ≡ answered_of a }
{
    reply::reply(a.number, a.level, reply::is_sent(a.msi), 0)
}

// What is returned for a write that the fast path carried out.
fn carried(ended: Ended) -> u64
    ensures { result ≡ carried_reply ended }
{
    reply::reply(0, ended.level, reply::is_sent(ended.msi), 0)
}

// The answer's device into its record; the host end stayed as it was.
fn kept(a: Answer, device: &mut [u8]) -> u64
    requires { length device.old ≡ device_size }
    ensures { made result device.new ≡ made_of a }
{
    record::store_device(a.hda, device);
    answered(a)
}

// The answer's device and host end into their records.
fn stored(a: Answer, device: &mut [u8], host: &mut [u8]) -> u64
    requires { (length device.old ≡ device_size) × (length host.old ≡ host_size) }
    ensures { stored_out result device.new host.new ≡ stored_of a }
{
    host_record::store_host(a.host, host);
    kept(a, device)
}

// A new device into its record, where the spaces are large enough for it.
pub fn new(device: &mut [u8], lists: &[u8], queues: &[u8], microphone: bool) -> u64
    ensures { made result device.new ≡ new_of microphone device.old (length lists.now) (length queues.now) }
{
    match hda::new(microphone, lists, queues) {
        Err(refusal) => reply::reply(refusal.number(), false, false, 0),
        Ok(hda) => {
            if device.len() != record::DEVICE {
                return reply::reply(Refusal::State.number(), false, false, 0);
            }
            record::store_device(hda, device);
            reply::reply(0, false, false, 0)
        }
    }
}

// `nanos` nanoseconds pass.
pub fn advance(
    device: &mut [u8],
    host: &mut [u8],
    lists: &mut [u8],
    queues: &mut [u8],
    memory: &mut [u8],
    nanos: u64,
) -> u64
    ensures { returned result (lent device.new host.new lists.new queues.new memory.new) ≡ behind (advance_of nanos) (lent device.old host.old lists.old queues.old memory.old) }
{
    if !reply::is_machine(device, host) {
        return reply::unreadable(lists.len(), queues.len());
    }
    let h = host_record::load_host(host);
    let passed = advance::advance(device, h, lists, queues, memory, nanos);
    host_record::store_host(passed.host, host);
    reply::reply(passed.number, passed.level, reply::is_sent(passed.msi), 0)
}

// A guest's write to the registers.
pub fn write(
    device: &mut [u8],
    host: &mut [u8],
    lists: &[u8],
    queues: &[u8],
    memory: &mut [u8],
    offset: u64,
    bytes: &[u8],
) -> u64
    ensures { returned result (lent device.new host.new lists.now queues.now memory.new) ≡ behind (write_of offset bytes.now) (lent device.old host.old lists.now queues.now memory.old) }
{
    if !reply::is_machine(device, host) {
        return reply::unreadable(lists.len(), queues.len());
    }
    let h = host_record::load_host(host);
    match fastpath::write(device, h, lists, queues, memory, offset, bytes) {
        Some(ended) => carried(ended),
        None => {
            let d = record::load_device(device);
            let a = write::write(d, h, lists, queues, memory, offset, bytes);
            stored(a, device, host)
        }
    }
}

// The same at any base address.
pub fn bar_write(
    device: &mut [u8],
    host: &mut [u8],
    lists: &[u8],
    queues: &[u8],
    memory: &mut [u8],
    bar: u32,
    offset: u64,
    bytes: &[u8],
) -> u64
    ensures { returned result (lent device.new host.new lists.now queues.now memory.new) ≡ behind (bar_write_of bar offset bytes.now) (lent device.old host.old lists.now queues.now memory.old) }
{
    if bar == 0 {
        return write(device, host, lists, queues, memory, offset, bytes);
    }
    if !reply::is_machine(device, host) {
        return reply::unreadable(lists.len(), queues.len());
    }
    let d = record::load_device(device);
    let h = host_record::load_host(host);
    let a = hda::bar_write(d, h, lists, queues, memory, bar, offset, bytes);
    stored(a, device, host)
}

// A write to the configuration.
pub fn config_write(
    device: &mut [u8],
    host: &[u8],
    lists: &[u8],
    queues: &[u8],
    memory: &mut [u8],
    register: u64,
    offset: u64,
    bytes: &[u8],
) -> u64
    ensures { returned result (lent device.new host.now lists.now queues.now memory.new) ≡ behind (config_write_of register offset bytes.now) (lent device.old host.now lists.now queues.now memory.old) }
{
    if !reply::is_machine(device, host) {
        return reply::unreadable(lists.len(), queues.len());
    }
    let h = host_record::load_host(host);
    match fastpath::config_write(device, h, lists, queues, memory, register, offset, bytes) {
        Some(ended) => carried(ended),
        None => {
            let d = record::load_device(device);
            let a = hda::config_write(d, h, lists, queues, memory, register, offset, bytes);
            kept(a, device)
        }
    }
}

// The presence of something at a pin has changed.
pub fn pin_presence_changed(
    device: &mut [u8],
    host: &[u8],
    lists: &[u8],
    queues: &[u8],
    memory: &mut [u8],
    node: u32,
) -> u64
    ensures { returned result (lent device.new host.now lists.now queues.now memory.new) ≡ behind (pin_of node) (lent device.old host.now lists.now queues.now memory.old) }
{
    if !reply::is_machine(device, host) {
        return reply::unreadable(lists.len(), queues.len());
    }
    let d = record::load_device(device);
    let h = host_record::load_host(host);
    let a = hda::pin_presence_changed(d, h, lists, queues, memory, node);
    kept(a, device)
}

// A saved state in the place of the device's own; crowded lists are refused where `strict` says so, and else emptied.
pub fn restore(
    strict: bool,
    device: &mut [u8],
    host: &mut [u8],
    lists: &mut [u8],
    queues: &[u8],
    state: &[u8],
) -> u64
    ensures { returned result (lent device.new host.new lists.new queues.now none) ≡ behind (restored_by strict state.now) (lent device.old host.old lists.old queues.now none) }
{
    if !reply::is_machine(device, host) {
        return reply::unreadable(lists.len(), queues.len());
    }
    let d = record::load_device(device);
    let h = host_record::load_host(host);
    let a = restore::restore(strict, d, h, lists, queues, state);
    stored(a, device, host)
}

// DMA, positions and the wall clock stand still while paused.
pub fn set_paused(device: &mut [u8], host: &[u8], lists: &[u8], queues: &[u8], paused: bool) -> u64
    ensures { made result device.new ≡ paused_of paused device.old host.now lists.now (length queues.now) }
{
    if !reply::is_machine(device, host) {
        return reply::unreadable(lists.len(), queues.len());
    }
    let d = record::load_device(device);
    let h = host_record::load_host(host);
    let a = hda::set_paused(d, h, lists, queues, paused);
    kept(a, device)
}
