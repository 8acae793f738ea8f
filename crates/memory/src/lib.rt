// Guest memory as one lent slice from guest address 0: copies out of it and into it, and the buffer descriptors in it.
// Every function takes any address and any lengths: what crosses the end of memory moves nothing and says so.
#![tactic(auto)]

ghost use Rattle.std.specs.Prelude.{◌≡◌, ◌+◌, ◌≤◌, length, leb};
ghost use Rattle.memory.specs.Memory.{access_of, read_of, write_of, entry_at, descriptor_of};

// An entry of a buffer descriptor list: where the buffer is, its length in bytes, and the flags, of which bit 0 asks for an
// interrupt on completion.
#[derive(Clone, Copy, PartialEq, Eq, Debug)]
pub struct Descriptor {
    pub address: u64,
    pub length: u32,
    pub flags: u32,
}

// Whether the `count` bytes from `address` lie in memory of `size` bytes. Nothing is added to the address, so nothing wraps.
fn inside(size: usize, address: u64, count: usize) -> bool
    ensures { result ≡ leb (address + count) size }
{
    count <= size && address <= (size - count) as u64
}

// Fills `into` from `address` on, and says whether it did.
#[tactic(auto, unfolding(crate::specs::Memory::read_of))]
pub fn read(memory: &[u8], address: u64, into: &mut [u8]) -> bool
    ensures { access_of result into.new ≡ read_of memory.now address into.old }
{
    let count = into.len();
    if !inside(memory.len(), address, count) {
        return false;
    }
    let start = address as usize;
    into.copy_from_slice(&memory[start..start + count]);
    true
}

// Puts `from` into memory at `address`, and says whether it did.
#[tactic(auto, unfolding(crate::specs::Memory::write_of, word::specs::Place::put_at))]
pub fn write(memory: &mut [u8], address: u64, from: &[u8]) -> bool
    ensures { access_of result memory.new ≡ write_of memory.old address from.now }
{
    let count = from.len();
    if !inside(memory.len(), address, count) {
        return false;
    }
    let at = address as usize;
    memory[at..at + count].copy_from_slice(from);
    true
}

// The descriptor whose sixteen bytes start at `at`, read where they lie.
#[tactic(auto, unfolding(crate::specs::Memory::entry_at))]
fn entry(memory: &[u8], at: usize) -> Descriptor
    requires { at + 16 ≤ length memory.now }
    ensures { result ≡ entry_at memory.now at }
{
    let address = word::get::<u64>(memory, at);
    let length = word::get::<u32>(memory, at + 8);
    let flags = word::get::<u32>(memory, at + 12);
    Descriptor {
        address,
        length,
        flags,
    }
}

// The buffer descriptor at `address` as it stands in memory now, or `None` where its sixteen bytes are not all in memory: the transfer then
// fails. Each piece of a transfer asks anew: the guest or an earlier piece may have changed it.
#[tactic(auto, unfolding(crate::specs::Memory::descriptor_of))]
pub fn fetch_descriptor(memory: &[u8], address: u64) -> Option<Descriptor>
    ensures { result ≡ descriptor_of memory.now address }
{
    if inside(memory.len(), address, 16) {
        Some(entry(memory, address as usize))
    } else {
        None
    }
}
