// The call of a timer with jitter (request T-13) on a device whose record, like that of its host end, the caller has as bytes. It returns one number (crate reply).
#![tactic(auto)]

ghost use Rattle.std.specs.Prelude.{◌≡◌};
ghost use Rattle.jitter.specs.Calls.{scratch};
ghost use Rattle.port_jitter.specs.Calls.{bounded_out, bounds_of};

// Each stream's lowest and highest submitted count after any elapsed time from `shortest` to `longest`, into the lent space; the value returned is its length. The three slices before it are scratch.
pub fn bounds(
    device: &[u8],
    host: &[u8],
    lists: &[u8],
    queues: &[u8],
    memory: &[u8],
    shortest: u64,
    longest: u64,
    lists2: &mut [u8],
    queues2: &mut [u8],
    memory2: &mut [u8],
    into: &mut [u8],
) -> u64
    ensures { bounded_out result (scratch lists2.new queues2.new memory2.new) into.new ≡ bounds_of shortest longest device.now host.now lists.now queues.now memory.now (scratch lists2.old queues2.old memory2.old) into.old }
{
    if !reply::is_machine(device, host) {
        return reply::unreadable(lists.len(), queues.len());
    }
    let h = host_record::load_host(host);
    let b = jitter::bounds(
        device, h, lists, queues, memory, shortest, longest, lists2, queues2, memory2, into,
    );
    reply::reply(b.number, b.level, false, b.count)
}
