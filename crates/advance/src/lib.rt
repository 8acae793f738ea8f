// `advance`: the wall clock, the commands that wait, every stream's turn in order, and the interrupt (document 01, "`advance`, `write`, configuration, snapshot";
// the Rust's `Hda::advance`), on the device where it stands in its record.
#![tactic(auto)]

ghost use Rattle.std.specs.Prelude.{◌≡◌, true, false, ◌≤◌, length, None};
ghost use Rattle.device.specs.Machines.{machine, answer_of};
ghost use Rattle.record.specs.Layout.{device_size};
ghost use Rattle.record.specs.Loads.{device_at, is_device, Holds};
ghost use Rattle.serve.specs.Serve.{turns_answer, ServeNeeds};
ghost use Rattle.advance.specs.Advance.{number_of, ticked_of, still_of, turns_where, answer_in, done_in, after_commands, advance_step, advance_of};

use host::Host;
use pci::Message;
use serve::Served;

// What the call answers beside the record, the lent spaces and memory: document 01's number, the INTx level it leaves, a message to send, and the host end.
// No Result: the C reply has number and level also where the call is refused, and the host end is stored then too.
#[derive(Clone, Copy)]
pub struct Advanced {
    pub msi: Option<Message>,
    pub host: Host,
    pub number: u32,
    pub level: bool,
}

// What a call answers that the check lets through: 1 where an opening was refused.
fn number_of(refused: bool) -> u32
    ensures { result ≡ number_of refused }
{
    u32::from(refused)
}

// The answer of a call that leaves everything as it is.
fn unchanged(device: &[u8], host: Host, number: u32) -> Advanced
    requires { length device.now ≡ device_size }
    ensures { answer_in result device.now ≡ answer_of number None (device_at device.now) host }
{
    let s = read::status_of(device, number);
    Advanced {
        number: s.number,
        level: s.level,
        msi: None,
        host,
    }
}

// Whether time stands still: the device is paused or in reset.
fn is_still(device: &[u8]) -> bool
    requires { length device.now ≡ device_size }
    ensures { result ≡ still_of (device_at device.now) }
{
    let running = device[record::REGISTERS + registers::GCTL] & 1 != 0;
    (device[5] == 1) | !running
}

// The wall clock, and the register that shows it.
fn tick(device: &mut [u8], nanos: u64)
    requires { (length device.old ≡ device_size) × (is_device device.old ≡ true) }
    ensures { Holds device.new (ticked_of nanos (device_at device.old)) }
{
    let c = record::load_clock(device);
    let next = c.advance(nanos);
    record::replace_clock(device, next);
    let shown = next.shown();
    word::put::<u32>(
        &mut device[record::REGISTERS..record::CODEC],
        registers::WALCLK,
        shown,
    );
}

// Every stream's turn, where DMA may run.
fn turns(
    device: &mut [u8],
    host: Host,
    lists: &mut [u8],
    queues: &mut [u8],
    memory: &mut [u8],
    nanos: u64,
) -> Served
    requires { (length device.old ≡ device_size) × (is_device device.old ≡ true) × ServeNeeds (machine (device_at device.old) host lists.old queues.old memory.old) }
    ensures memory_after { turns_answer result device.new lists.new queues.new memory.new ≡ turns_where nanos (machine (device_at device.old) host lists.old queues.old memory.old) }
    ensures device_after { is_device device.new ≡ true }
{
    if !registers::dma_enabled(
        &device[record::CONFIG..record::REGISTERS],
        &device[record::REGISTERS..record::CODEC],
    ) {
        return Served {
            host,
            refused: false,
        };
    }
    serve::serve(device, host, lists, queues, memory, nanos)
}

// With the clock and the commands done: the turns and the interrupt.
fn after_commands(
    device: &mut [u8],
    host: Host,
    lists: &mut [u8],
    queues: &mut [u8],
    memory: &mut [u8],
    nanos: u64,
) -> Advanced
    requires { (length device.old ≡ device_size) × (is_device device.old ≡ true) × ServeNeeds (machine (device_at device.old) host lists.old queues.old memory.old) }
    ensures memory_after { done_in result device.new lists.new queues.new memory.new ≡ after_commands nanos (machine (device_at device.old) host lists.old queues.old memory.old) }
    ensures device_after { is_device device.new ≡ true }
{
    let r = turns(device, host, lists, queues, memory, nanos);
    let ended = in_place::finish(device);
    Advanced {
        msi: ended.msi,
        host: r.host,
        number: number_of(r.refused),
        level: ended.level,
    }
}

// Behind the check, where time passes.
fn advance_step(
    device: &mut [u8],
    host: Host,
    lists: &mut [u8],
    queues: &mut [u8],
    memory: &mut [u8],
    nanos: u64,
) -> Advanced
    requires { (length device.old ≡ device_size) × (is_device device.old ≡ true) × (still_of (device_at device.old) ≡ false) × ((device_at device.old).link.responses ≤ 255) × ServeNeeds (machine (device_at device.old) host lists.old queues.old memory.old) }
    ensures memory_after { done_in result device.new lists.new queues.new memory.new ≡ advance_step nanos (machine (device_at device.old) host lists.old queues.old memory.old) }
    ensures device_after { is_device device.new ≡ true }
{
    tick(device, nanos);
    in_place::commands(device, memory);
    after_commands(device, host, lists, queues, memory, nanos)
}

// `nanos` nanoseconds of machine time. 1 where an opening was refused: what came before it stands.
pub fn advance(
    device: &mut [u8],
    host: Host,
    lists: &mut [u8],
    queues: &mut [u8],
    memory: &mut [u8],
    nanos: u64,
) -> Advanced
    requires { (length device.old ≡ device_size) × (is_device device.old ≡ true) }
    ensures memory_after { done_in result device.new lists.new queues.new memory.new ≡ advance_of nanos (machine (device_at device.old) host lists.old queues.old memory.old) }
    ensures device_after { is_device device.new ≡ true }
{
    if let Err(refusal) = read::check(device, host, lists, queues.len()) {
        return unchanged(device, host, refusal.number());
    }
    if is_still(device) {
        return unchanged(device, host, 0);
    }
    advance_step(device, host, lists, queues, memory, nanos)
}
