// The duplex codec: HDA 1.0a chapter 7, as the Rust's `Codec` has it (document 01, "Codec"). Node 0 is the root, 1 the audio function
// group, 2 and 3 the output converter and its pin, 4 and 5 the input converter and its pin. The contracts cite the device's own definitions;
// crate codec_hda says what HDA 1.0a has, and where the two agree.
#![tactic(auto)]

ghost use Rattle.std.specs.Prelude.{◌≡◌, ◌+◌, ◌≤◌, ◌<◌, length};
ghost use Rattle.word.specs.Place.{put_at};
ghost use Rattle.codec.specs.Codecs.{fresh_of, verb_of, live_of, connected_of};
ghost use Rattle.codec.specs.Bytes.{record_at, codec_at, store_codec_at};

use node::Node;

#[derive(Clone, Copy, PartialEq, Eq, Debug)]
pub struct Codec {
    pub nodes: [Node; 6],
}

// The codec after a command, and the word that it puts on the link, where it puts one there (`words_of`).
#[derive(Clone, Copy, PartialEq, Eq, Debug)]
pub struct Outcome {
    pub codec: Codec,
    pub reply: Option<u32>,
}

// Whether a converter, behind `group` and `pin`, plays stream `tag` at `format`; `mask` is the pin's enable bit.
#[tactic(auto, unfolding(crate::specs::Codecs::live_of))]
fn live(converter: Node, group: Node, pin: Node, mask: u8, tag: u8, format: u16) -> bool
    requires { 0 < mask }
    ensures { result ≡ live_of converter group pin mask tag format }
{
    let stream = converter.bytes[6];
    let own = converter.format();
    (tag != 0)
        && (stream / 16 == tag)
        && (stream % 16 == 0)
        && (own == format)
        && (group.bytes[5] == 0)
        && (converter.bytes[5] == 0)
        && (pin.bytes[5] == 0)
        && (pin.bytes[7] / mask % 2 == 1)
}

// The record in the 24 bytes at `at`.
fn load_node(bytes: &[u8], at: usize) -> Node
    requires { at + 24 ≤ length bytes.now }
    ensures { result ≡ record_at at bytes.now }
{
    let mut own = [0u8; 24];
    own.copy_from_slice(&bytes[at..at + 24]);
    Node { bytes: own }
}

// The record into the 24 bytes at `at`.
#[tactic(auto, unfolding(word::specs::Place::put_at))]
fn store_node(node: Node, bytes: &mut [u8], at: usize)
    requires { at + 24 ≤ length bytes.old }
    ensures { bytes.new ≡ put_at at node.bytes bytes.old }
{
    bytes[at..at + 24].copy_from_slice(&node.bytes);
}

impl Codec {
    // The codec at reset (the Rust's `Codec::default`).
    #[tactic(auto, unfolding(crate::specs::Codecs::fresh_of))]
    pub fn fresh() -> Codec
        ensures { result ≡ fresh_of }
    {
        let root = Node { bytes: [0u8; 24] };
        let plain = Node::fresh(0, 0, 0, 0);
        let output = Node::fresh(0x40, 0x10, 0x40, 0);
        let input = Node::fresh(0x20, 0x20, 0x50, 0x80);
        Codec {
            nodes: [root, plain, plain, output, plain, input],
        }
    }

    // A command. One node's record is taken out whole and put back; function reset (0x7ff on node 1) replaces all six and puts none back.
    #[tactic(auto, unfolding(crate::specs::Codecs::verb_of))]
    pub fn verb(mut self, command: u32) -> Outcome
        ensures { result ≡ verb_of self command }
    {
        let other = (command / 0x1000_0000 != 0) || (command / 0x0800_0000 % 2 == 1);
        if other {
            return Outcome {
                codec: self,
                reply: None,
            };
        }
        let node = command / 0x0010_0000 % 128;
        if node >= 6 {
            return Outcome {
                codec: self,
                reply: Some(0),
            };
        }
        let verb = command / 256 % 4096;
        if verb == 0xf00 {
            let value = node::parameter(node, command % 256);
            return Outcome {
                codec: self,
                reply: Some(value),
            };
        }
        if node == 0 {
            return Outcome {
                codec: self,
                reply: Some(0),
            };
        }
        if node == 1 && verb == 0x7ff {
            return Outcome {
                codec: Codec::fresh(),
                reply: Some(0),
            };
        }
        let record = &mut self.nodes[node as usize];
        let answer = record.verb(node, command);
        *record = answer.node;
        Outcome {
            codec: self,
            reply: Some(answer.value),
        }
    }

    // Whether the converter of a direction is live for stream `tag` at `format`.
    #[tactic(auto, unfolding(crate::specs::Codecs::connected_of))]
    pub fn connected(self, input: bool, tag: u8, format: u16) -> bool
        ensures { result ≡ connected_of self input tag format }
    {
        let group = self.nodes[1];
        if input {
            let converter = self.nodes[4];
            let pin = self.nodes[5];
            live(converter, group, pin, 0x20, tag, format)
        } else {
            let converter = self.nodes[2];
            let pin = self.nodes[3];
            live(converter, group, pin, 0x40, tag, format)
        }
    }

    // The codec in the 144 bytes at `at`, as a saved state and the C functions have it.
    #[tactic(auto, unfolding(crate::specs::Bytes::codec_at))]
    pub fn load(bytes: &[u8], at: usize) -> Codec
        requires { at + 144 ≤ length bytes.now }
        ensures { result ≡ codec_at at bytes.now }
    {
        let root = load_node(bytes, at);
        let group = load_node(bytes, at + 24);
        let output = load_node(bytes, at + 48);
        let output_pin = load_node(bytes, at + 72);
        let input = load_node(bytes, at + 96);
        let input_pin = load_node(bytes, at + 120);
        Codec {
            nodes: [root, group, output, output_pin, input, input_pin],
        }
    }

    // The codec into the 144 bytes at `at`.
    pub fn store(self, bytes: &mut [u8], at: usize)
        requires { at + 144 ≤ length bytes.old }
        ensures { bytes.new ≡ store_codec_at at self bytes.old }
    {
        for (i, node) in self.nodes.iter().enumerate() {
            store_node(*node, bytes, at + 24 * i);
        }
    }
}
