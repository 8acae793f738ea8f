// Calls that read a device whose record, like that of its host end, the caller has as bytes: registers, configuration, saved state. Each returns one number (crate reply).
// Each tests the records by itself: it returns a number, so that the match of a helper's Result would be as long as the test.
#![tactic(auto)]

ghost use Rattle.std.specs.Prelude.{◌≡◌, length};
ghost use Rattle.port_reads.specs.Reads.{shown, read_of, bar_read_of, config_read_of, save_of};

// Registers from `offset` on into the buffer.
pub fn read(
    device: &[u8],
    host: &[u8],
    lists: &[u8],
    queues: &[u8],
    offset: u64,
    into: &mut [u8],
) -> u64
    ensures { shown result into.new ≡ read_of offset device.now host.now lists.now (length queues.now) into.old }
{
    if !reply::is_machine(device, host) {
        return reply::unreadable(lists.len(), queues.len());
    }
    let h = host_record::load_host(host);
    let s = read::read(device, h, lists, queues, offset, into);
    reply::reply(s.number, s.level, false, 0)
}

// The registers are base address 0; another reads 0.
pub fn bar_read(
    device: &[u8],
    host: &[u8],
    lists: &[u8],
    queues: &[u8],
    bar: u32,
    offset: u64,
    into: &mut [u8],
) -> u64
    ensures { shown result into.new ≡ bar_read_of bar offset device.now host.now lists.now (length queues.now) into.old }
{
    if !reply::is_machine(device, host) {
        return reply::unreadable(lists.len(), queues.len());
    }
    let h = host_record::load_host(host);
    let s = read::bar_read(device, h, lists, queues, bar, offset, into);
    reply::reply(s.number, s.level, false, 0)
}

// A configuration register, as the value returned.
pub fn config_read(device: &[u8], host: &[u8], lists: &[u8], queues: &[u8], register: u64) -> u64
    ensures { result ≡ config_read_of register device.now host.now lists.now (length queues.now) }
{
    if !reply::is_machine(device, host) {
        return reply::unreadable(lists.len(), queues.len());
    }
    let h = host_record::load_host(host);
    let v = read::config_read(device, h, lists, queues, register);
    reply::reply(v.number, v.level, false, v.value)
}

// The saved state from the start of the lent space on; the value returned is its length.
pub fn save(device: &[u8], host: &[u8], lists: &[u8], queues: &[u8], into: &mut [u8]) -> u64
    ensures { shown result into.new ≡ save_of device.now host.now lists.now (length queues.now) into.old }
{
    if !reply::is_machine(device, host) {
        return reply::unreadable(lists.len(), queues.len());
    }
    let d = record::load_device(device);
    let h = host_record::load_host(host);
    let s = snapshot::save(d, h, lists, queues, into);
    reply::reply(s.number, s.level, false, s.count)
}
