// One node of the codec: its parameters, its record, and the verbs on it (document 01, "Codec"; the Rust's `Codec::execute_verb` and `Codec::parameter`).
#![tactic(auto)]

ghost use Rattle.std.specs.Prelude.{◌≡◌, ◌*◌, ◌<◌};
ghost use Rattle.node.specs.Parameters.{parameter_of};
ghost use Rattle.node.specs.Nodes.{put_if, put_sides, set_amplifier_of, amplifier_of, set_format_of, format_of, set_of, get_of, entry_of, node_verb_of, fresh_node_of};

// Supported PCM sizes and rates of the nodes that have formats: 16-bit samples at 44,100, 48,000, 88,200 and 96,000 frames a second.
const SUPPORTED_PCM: u32 = 0x0002_01e0;

// What parameter `p` of `node` replies (the Rust's `Codec::parameter`, with T-01's rates).
#[tactic(auto, unfolding(crate::specs::Parameters::parameter_of))]
pub fn parameter(node: u32, p: u32) -> u32
    ensures { result ≡ parameter_of node p }
{
    match node {
        0 => match p {
            0x00 => 0x1af4_0022,
            0x02 => 0x0010_0101,
            0x04 => 0x0001_0001,
            _ => 0,
        },
        1 => match p {
            0x04 => 0x0002_0004,
            0x05 => 1,
            0x08 => 0x0808,
            0x0a => SUPPORTED_PCM,
            0x0b => 1,
            0x0d => 0x8003_4a4a,
            0x0f => 0xf,
            0x12 => 0x8003_4a4a,
            _ => 0,
        },
        2 => match p {
            0x09 => 0x041d,
            0x0a => SUPPORTED_PCM,
            0x0b => 1,
            0x0f => 0xf,
            0x12 => 0x8003_4a4a,
            _ => 0,
        },
        3 => match p {
            0x09 => 0x0040_0501,
            0x0c => 0x10,
            0x0e => 1,
            0x0f => 0xf,
            _ => 0,
        },
        4 => match p {
            0x09 => 0x0010_051b,
            0x0a => SUPPORTED_PCM,
            0x0b => 1,
            0x0d => 0x8003_4a4a,
            0x0e => 1,
            0x0f => 0xf,
            _ => 0,
        },
        5 => match p {
            0x09 => 0x0040_0401,
            0x0c => 0x20,
            0x0f => 0xf,
            _ => 0,
        },
        _ => 0,
    }
}

// A node's record: input amplifier left and right (0, 1), output amplifier left and right (2, 3), connection (4), power state (5),
// stream and channel (6), pin control (7), unsolicited response (8), EAPD (9), format (10, 11), configuration default (12 to 15), and
// eight bytes that no verb reaches.
#[derive(Clone, Copy, PartialEq, Eq, Debug)]
pub struct Node {
    pub bytes: [u8; 24],
}

// A node after a command, and what it replied.
#[derive(Clone, Copy, PartialEq, Eq, Debug)]
pub struct Answer {
    pub node: Node,
    pub value: u32,
}

// The power state as set and the actual one, which are the same here.
fn power(x: u8) -> u32
    ensures { result ≡ x * 0x11 }
{
    u32::from(x) * 0x11
}

// The connection lists: the output pin hears node 2, the input converter node 5.
#[tactic(auto, unfolding(crate::specs::Nodes::entry_of))]
fn entry(node: u32, first: u8) -> u32
    ensures { result ≡ entry_of node first }
{
    match (node, first) {
        (3, 0) => 2,
        (4, 0) => 5,
        _ => 0,
    }
}

impl Node {
    // `v` in byte `i`, where the test holds.
    fn put_if(mut self, t: bool, i: usize, v: u8) -> Node
        requires { i < 24 }
        ensures { result ≡ put_if t self i v }
    {
        if t {
            self.bytes[i] = v;
        }
        self
    }

    // Left and right of the amplifier whose bytes start at `i`, as the payload's bits 13 and 12 say.
    fn put_sides(self, i: usize, payload: u32, v: u8) -> Node
        requires { i < 23 }
        ensures { result ≡ put_sides self i payload v }
    {
        self.put_if(payload / 0x2000 % 2 == 1, i, v)
            .put_if(payload / 0x1000 % 2 == 1, i + 1, v)
    }

    // Payload bit 15 names the output side, bit 14 the input side beside it. Without bit 15 the input side is written, named or not.
    #[tactic(auto, unfolding(crate::specs::Nodes::set_amplifier_of))]
    fn set_amplifier(self, payload: u32, v: u8) -> Node
        ensures { result ≡ set_amplifier_of self payload v }
    {
        if payload / 0x8000 % 2 == 1 {
            let output = self.put_sides(2, payload, v);
            if payload / 0x4000 % 2 == 1 {
                output.put_sides(0, payload, v)
            } else {
                output
            }
        } else {
            self.put_sides(0, payload, v)
        }
    }

    // Payload bit 15 set is the output side, bit 13 set is left.
    #[tactic(auto, unfolding(crate::specs::Nodes::amplifier_of))]
    fn amplifier(self, payload: u32) -> u32
        ensures { result ≡ amplifier_of self payload }
    {
        let at = (payload / 0x8000 % 2 * 2 + (1 - payload / 0x2000 % 2)) as usize;
        u32::from(self.bytes[at])
    }

    // The low byte stands first.
    fn set_format(mut self, payload: u32) -> Node
        requires { payload < 0x0001_0000 }
        ensures { result ≡ set_format_of self payload }
    {
        word::put::<u16>(&mut self.bytes, 10, payload as u16);
        self
    }

    // The converter's format word.
    pub fn format(self) -> u16
        ensures { result ≡ format_of self }
    {
        word::get::<u16>(&self.bytes, 10)
    }

    // The verbs 0x7xx: they change the record and reply 0.
    #[tactic(auto, unfolding(crate::specs::Nodes::set_of))]
    fn set(mut self, verb: u32, payload: u8) -> Node
        ensures { result ≡ set_of self verb payload }
    {
        match verb {
            0x701 => self.bytes[4] = payload,
            0x705 => self.bytes[5] = payload % 4,
            0x706 => self.bytes[6] = payload,
            0x707 => self.bytes[7] = payload,
            0x708 => self.bytes[8] = payload,
            0x70c => self.bytes[9] = payload % 8,
            0x71c..=0x71f => self.bytes[(verb - 0x710) as usize] = payload,
            _ => {}
        }
        self
    }

    // The verbs 0xfxx: they reply and change nothing.
    #[tactic(auto, unfolding(crate::specs::Nodes::get_of))]
    fn get(self, node: u32, verb: u32, payload: u8) -> u32
        ensures { result ≡ get_of self node verb payload }
    {
        match verb {
            0xf01 => u32::from(self.bytes[4]),
            0xf02 => entry(node, payload),
            0xf05 => power(self.bytes[5]),
            0xf06 => u32::from(self.bytes[6]),
            0xf07 => u32::from(self.bytes[7]),
            0xf08 => u32::from(self.bytes[8]),
            0xf09 => 0x8000_0000,
            0xf0c => u32::from(self.bytes[9]),
            0xf1c => word::get::<u32>(&self.bytes, 12),
            0xf20 => 0x1af4_0022,
            _ => 0,
        }
    }

    // A command to one of the nodes 1 to 5.
    #[tactic(auto, unfolding(crate::specs::Nodes::node_verb_of))]
    pub fn verb(self, node: u32, command: u32) -> Answer
        ensures { result ≡ node_verb_of self node command }
    {
        let payload = (command % 256) as u8;
        let wide = command % 0x0001_0000;
        match command / 0x0001_0000 % 16 {
            0x2 => Answer {
                node: self.set_format(wide),
                value: 0,
            },
            0x3 => Answer {
                node: self.set_amplifier(wide, payload),
                value: 0,
            },
            0xa => Answer {
                node: self,
                value: u32::from(self.format()),
            },
            0xb => Answer {
                node: self,
                value: self.amplifier(wide),
            },
            _ => {
                let verb = command / 256 % 4096;
                Answer {
                    node: self.set(verb, payload),
                    value: self.get(node, verb, payload),
                }
            }
        }
    }

    // A node's record at reset: both amplifiers muted at 0 dB, EAPD on, 48,000 16-bit stereo, and the pin's control and the low three bytes
    // of its configuration default.
    #[tactic(auto, unfolding(crate::specs::Nodes::fresh_node_of))]
    pub fn fresh(pin: u8, a: u8, b: u8, c: u8) -> Node
        ensures { result ≡ fresh_node_of pin a b c }
    {
        let mut bytes = [0u8; 24];
        bytes[..4].fill(0xca);
        bytes[7] = pin;
        bytes[9] = 2;
        bytes[10] = 0x11;
        bytes[12] = a;
        bytes[13] = b;
        bytes[14] = c;
        Node { bytes }
    }
}
