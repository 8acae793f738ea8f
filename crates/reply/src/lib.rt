// What a C function returns, as one number, and the test of the records that it is handed.
#![tactic(auto)]

ghost use Rattle.std.specs.Prelude.{◌≡◌, ◌≤◌};
ghost use Rattle.reply.specs.Replies.{is_sent, bit_of, reply_of, fill_reply_of, unreadable_of, is_machine};

use pci::Message;
use refusal::Refusal;

// Whether there is a message to send.
pub fn is_sent(msi: Option<Message>) -> bool
    ensures { result ≡ is_sent msi }
{
    msi.is_some()
}

// The number that stands for all that a call answers beside its bytes.
pub fn reply(number: u32, level: bool, sent: bool, value: u32) -> u64
    ensures { result ≡ reply_of number level sent value }
{
    let low = u64::from(number % 256) + bit(level, 0x100) + bit(sent, 0x200);
    low + 0x1_0000_0000 * u64::from(value)
}

fn bit(on: bool, place: u64) -> u64
    ensures { (result ≡ bit_of on place) × (result ≤ place) }
{
    if on { place } else { 0 }
}

// The same for a call that fills lent space: bytes that it wrote, which may be more than 32 bits say, and frames a second of what it wrote.
pub fn fill_reply(number: u32, count: u64, rate: u32) -> u64
    ensures { result ≡ fill_reply_of number count rate }
{
    let low = u64::from(number % 256) + 0x100 * (count % 0x10_0000_0000);
    low + 0x1000_0000_0000 * u64::from(rate % 0x10_0000)
}

// What is returned for bytes that are no record, where short spaces are told first.
pub fn unreadable(lists: usize, queues: usize) -> u64
    ensures { result ≡ unreadable_of lists queues }
{
    let refusal = if device::is_short(lists, queues) {
        Refusal::LentSpace
    } else {
        Refusal::State
    };
    u64::from(refusal.number())
}

// Whether both are records.
pub fn is_machine(device: &[u8], host: &[u8]) -> bool
    ensures { result ≡ is_machine device.now host.now }
{
    record::is_device(device) & host_record::is_host(host)
}
