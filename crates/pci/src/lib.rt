// The device's interrupt, as line or message (the Rust's `update_irq`).
#![tactic(auto)]

ghost use Rattle.std.specs.Prelude.{◌≡◌, cond, ◌+◌, ◌^◌, ◌≤◌, ◌<◌, length, None};
ghost use Rattle.stream.specs.Box.{streams};
ghost use Rattle.registers.specs.Places.{size};
ghost use Rattle.pci.specs.Interrupts.{controller_of, stream_of, sources_of, status_of, pending_by, messages, level_of, message_of, shown_of, interrupt_of, update_out, update_of};

use configuration::Config;
use registers::Registers;

// A message of the interrupt: what to write, and where.
#[derive(Clone, Copy)]
pub struct Message {
    pub address: u64,
    pub value: u32,
}

// What the files say of the interrupt: global status, whether the configuration shows a line, whether a message is asserted, the INTx level, and the message to send.
#[derive(Clone, Copy)]
pub struct Interrupt {
    pub msi: Option<Message>,
    pub status: u32,
    pub shown: bool,
    pub asserted: bool,
    pub level: bool,
}

// What an update of the interrupt answers: whether a message interrupt is asserted, and the message to send.
#[derive(Clone, Copy)]
pub struct Signal {
    pub msi: Option<Message>,
    pub asserted: bool,
}

// Bits of interrupt control and status: the global one, the controller's, and those of all sources, with the streams' from bit 0 on.
const GLOBAL: u32 = 0x8000_0000;

const CONTROLLER: u32 = 0x4000_0000;

const SOURCES: u32 = CONTROLLER + (1 << stream::STREAMS) - 1;

// Whether a ring or a codec has an enabled status.
fn controller(regs: &[u8]) -> bool
    requires { size ≤ length regs.now }
    ensures { result ≡ controller_of regs.now }
{
    let corb = regs[registers::CORBSTS] & regs[registers::CORBCTL];
    let rirb = regs[registers::RIRBSTS] & regs[registers::RIRBCTL];
    let state = word::get::<u16>(regs, registers::STATESTS);
    let wake = word::get::<u16>(regs, registers::WAKEEN);
    (corb & 1 != 0) | (rirb & 5 != 0) | (state & wake != 0)
}

// Whether a stream has an enabled status.
fn stream_status(regs: &[u8], index: usize) -> bool
    requires { (index < streams) × (size ≤ length regs.now) }
    ensures { result ≡ stream_of regs.now index }
{
    let base = registers::STREAM_BASE + registers::STREAM_SIZE * index;
    regs[base + registers::STS] & regs[base] & 0x1c != 0
}

// The sources' bits.
fn sources(regs: &[u8]) -> u32
    requires { size ≤ length regs.now }
    ensures { (result ≡ sources_of regs.now) × (result < 2 ^ 31) }
{
    let mut found = if controller(regs) { CONTROLLER } else { 0 };
    for index in 0..stream::STREAMS {
        if stream_status(regs, index) {
            found += 1 << index;
        }
    }
    found
}

// Global interrupt status.
fn status(regs: &[u8]) -> u32
    requires { size ≤ length regs.now }
    ensures { result ≡ status_of regs.now }
{
    let found = sources(regs);
    if found == 0 {
        return 0;
    }
    found + GLOBAL
}

// Whether an interrupt is pending, by global interrupt status and control.
fn pending(status: u32, control: u32) -> bool
    ensures { result ≡ pending_by status control }
{
    (control & GLOBAL != 0) & (status & control & SOURCES != 0)
}

// Whether the interrupt goes as a message.
fn uses_messages(config: &[u8]) -> bool
    requires { 256 ≤ length config.now }
    ensures { result ≡ messages config.now }
{
    config[0x62] & 1 != 0
}

// The INTx level.
#[tactic(auto, unfolding(crate::specs::Interrupts::level_of, crate::specs::Interrupts::pending_of))]
pub fn level(config: &[u8], regs: &[u8]) -> bool
    requires { (256 ≤ length config.now) × (size ≤ length regs.now) }
    ensures { result ≡ level_of config.now regs.now }
{
    // Without a line to raise, or none enabled, the sources need not be asked.
    if uses_messages(config) || config[0x05] & 4 != 0 {
        return false;
    }
    let control = word::get::<u32>(regs, registers::INTCTL);
    control & GLOBAL != 0 && pending(status(regs), control)
}

// The interrupt status bit of the configuration.
pub fn show(config: &mut [u8], on: bool)
    requires { 256 ≤ length config.old }
    ensures { config.new ≡ shown_of on config.old }
{
    if on {
        config[0x06] |= 8;
    } else {
        config[0x06] &= 0xf7;
    }
}

// The message that the configuration asks for, where it is to be sent.
fn configured_message(config: &[u8], send: bool) -> Option<Message>
    requires { 256 ≤ length config.now }
    ensures { result ≡ cond send (message_of config.now) None }
{
    if !send {
        return None;
    }
    Some(Message {
        address: word::get::<u64>(config, 0x64),
        value: u32::from(word::get::<u16>(config, 0x6c)),
    })
}

// The interrupt after a change of registers or configuration, of files that stand in slices.
#[tactic(auto, unfolding(crate::specs::Interrupts::level_of, crate::specs::Interrupts::pending_of))]
pub fn interrupt_of(config: &[u8], regs: &[u8], asserted: bool) -> Interrupt
    requires { (256 ≤ length config.now) × (size ≤ length regs.now) }
    ensures { result ≡ interrupt_of config.now regs.now asserted }
{
    let control = word::get::<u32>(regs, registers::INTCTL);
    let current = status(regs);
    let raised = pending(current, control);
    let messages = uses_messages(config);
    let masked = config[0x05] & 4 != 0;
    let msi = configured_message(config, raised & messages & !asserted);
    Interrupt {
        status: current,
        shown: raised & !messages,
        asserted: raised & messages,
        level: raised & (!messages & !masked),
        msi,
    }
}

// The same, and both files brought up to date.
#[tactic(auto, unfolding(crate::specs::Interrupts::update_of))]
pub fn update_irq(config: &mut Config, regs: &mut Registers, asserted: bool) -> Signal
    ensures { update_out config.new regs.new result ≡ update_of config.old regs.old asserted }
{
    let now = interrupt_of(config, regs, asserted);
    show(config, now.shown);
    word::put::<u32>(regs, registers::INTSTS, now.status);
    Signal {
        msi: now.msi,
        asserted: now.asserted,
    }
}
