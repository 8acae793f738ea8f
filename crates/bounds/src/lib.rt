// The C function of a timer with jitter (request T-13; include/hda.h, docs/LAYOUT.md), in an object of its own beside crate port's. It runs `advance` too: in one object with hda_advance the compiler would no longer put all of `advance` into
// that function, and every tick would pay for the call. Its contract, like theirs, is the outcome that crate lent_calls gives for the call.
#![tactic(auto)]

ghost use Rattle.std.specs.Prelude.{◌≡◌};
ghost use Rattle.calls.specs.Calls.{advance_bounds};
ghost use Rattle.port_device.specs.Calls.{lent};
ghost use Rattle.jitter.specs.Calls.{scratch};
ghost use Rattle.port_jitter.specs.Calls.{bounded_out};
ghost use Rattle.lent_calls.specs.Calls.{on, call_of};

// The lowest and the highest submitted count that an advance by any time from `shortest` to `longest` can leave of each stream, worked out on the scratch; the value returned is the result's length.
#[unsafe(no_mangle)]
pub extern "C" fn hda_advance_bounds(
    device: &[u8],
    host: &[u8],
    lists: &[u8],
    queues: &[u8],
    memory: &[u8],
    shortest: u64,
    longest: u64,
    scratch_lists: &mut [u8],
    scratch_queues: &mut [u8],
    scratch_memory: &mut [u8],
    into: &mut [u8],
) -> u64
    ensures { bounded_out result (scratch scratch_lists.new scratch_queues.new scratch_memory.new) into.new ≡ call_of (on (advance_bounds shortest longest scratch_lists.old scratch_queues.old scratch_memory.old into.old)) (lent device.now host.now lists.now queues.now memory.now) }
{
    port_jitter::bounds(
        device,
        host,
        lists,
        queues,
        memory,
        shortest,
        longest,
        scratch_lists,
        scratch_queues,
        scratch_memory,
        into,
    )
}
