// A guest's reads of registers and configuration (the Rust's `BusDevice::read` and `PciDevice`'s reads), where the device stands in its record: it is not taken out. Each
// checks the machine first (document 01, "Numbers returned"), leaves the device as it is, and answers its number and the INTx level.
#![tactic(auto)]

ghost use Rattle.std.specs.Prelude.{◌≡◌, ◌*◌, ◌≤◌, length};
ghost use Rattle.stream.specs.Box.{streams};
ghost use Rattle.stream.specs.Streams.{list_size};
ghost use Rattle.device.specs.Devices.{streams_valid, valid_of};
ghost use Rattle.device.specs.Machines.{check_of};
ghost use Rattle.refusal.specs.Refusals.{outcome_of};
ghost use Rattle.record.specs.Layout.{device_size};
ghost use Rattle.record.specs.Loads.{device_at};
ghost use Rattle.read.specs.Reads.{shown_of, status_of, read_of, bar_read_of, config_read_of};

use host::Host;
use refusal::Refusal;
use stream::{STREAMS, Stream};

// What a register read answers beside the buffer.
// No Result: the C reply has a number and the level also where the read is refused.
#[derive(Clone, Copy)]
pub struct Status {
    pub number: u32,
    pub level: bool,
}

// What a configuration read answers.
#[derive(Clone, Copy)]
pub struct Value {
    pub number: u32,
    pub level: bool,
    pub value: u32,
}

// Whether every stream in the record, and its list, keep document 01's conditions 6, 7 and 8.
fn streams_valid(device: &[u8], lists: &[u8]) -> bool
    requires { (length device.now ≡ device_size) × (list_size * streams ≤ length lists.now) }
    ensures { result ≡ streams_valid streams 0 (device_at device.now) lists.now }
{
    (0..STREAMS).all(|index| {
        let list = Stream::LIST * index;
        record::load_stream(device, record::HEAD + record::NUMBERS * index).valid(
            &lists[list..list + Stream::LIST],
        )
    })
}

// What a device handed in must meet.
fn valid(device: &[u8], lists: &[u8]) -> bool
    requires { (length device.now ≡ device_size) × (list_size * streams ≤ length lists.now) }
    ensures { result ≡ valid_of (device_at device.now) lists.now }
{
    word::get::<u64>(device, record::FRACTION) < 1_000_000_000
        && word::get::<u16>(device, record::RESPONSES) <= 255
        && word::get::<u32>(device, record::CONFIG) == configuration::IDENTITY
        && streams_valid(device, lists)
}

// Whether the lent space is long enough, and device and host end meet their conditions.
pub fn check(device: &[u8], host: Host, lists: &[u8], queues: usize) -> Result<(), Refusal>
    requires { length device.now ≡ device_size }
    ensures { outcome_of result ≡ check_of (device_at device.now) host lists.now queues }
{
    if device::is_short(lists.len(), queues) {
        return Err(Refusal::LentSpace);
    }
    if valid(device, lists) && host.valid() {
        Ok(())
    } else {
        Err(Refusal::State)
    }
}

// The number and the INTx level of a call that leaves the device as it is.
pub fn status_of(device: &[u8], number: u32) -> Status
    requires { length device.now ≡ device_size }
    ensures { result ≡ status_of number (device_at device.now) }
{
    Status {
        number,
        level: pci::level(
            &device[record::CONFIG..record::REGISTERS],
            &device[record::REGISTERS..record::CODEC],
        ),
    }
}

// Registers from `offset` on into the buffer.
pub fn read(
    device: &[u8],
    host: Host,
    lists: &[u8],
    queues: &[u8],
    offset: u64,
    into: &mut [u8],
) -> Status
    requires { length device.now ≡ device_size }
    ensures { shown_of result into.new ≡ read_of offset (device_at device.now) host lists.now (length queues.now) into.old }
{
    if let Err(refusal) = check(device, host, lists, queues.len()) {
        return status_of(device, refusal.number());
    }
    registers::read_in(&device[record::REGISTERS..record::CODEC], offset, into);
    status_of(device, 0)
}

// The registers are base address 0; another reads 0.
pub fn bar_read(
    device: &[u8],
    host: Host,
    lists: &[u8],
    queues: &[u8],
    bar: u32,
    offset: u64,
    into: &mut [u8],
) -> Status
    requires { length device.now ≡ device_size }
    ensures { shown_of result into.new ≡ bar_read_of bar offset (device_at device.now) host lists.now (length queues.now) into.old }
{
    if bar == 0 {
        return read(device, host, lists, queues, offset, into);
    }
    if let Err(refusal) = check(device, host, lists, queues.len()) {
        return status_of(device, refusal.number());
    }
    into.fill(0);
    status_of(device, 0)
}

// A configuration register.
pub fn config_read(device: &[u8], host: Host, lists: &[u8], queues: &[u8], register: u64) -> Value
    requires { length device.now ≡ device_size }
    ensures { result ≡ config_read_of register (device_at device.now) host lists.now (length queues.now) }
{
    if let Err(refusal) = check(device, host, lists, queues.len()) {
        let status = status_of(device, refusal.number());
        return Value {
            number: status.number,
            level: status.level,
            value: 0,
        };
    }
    let status = status_of(device, 0);
    Value {
        number: status.number,
        level: status.level,
        value: configuration::read_in(&device[record::CONFIG..record::REGISTERS], register),
    }
}
