//! What is drawn from a seed.
ghost use Rattle.std.specs.Prelude.{◌<◌};

use rand_core::utils::NextWord;
use rand_pcg::Pcg32;

// Numbers at which widths and limits end.
const EDGES: [u64; 12] = [
    0xf0,
    0xff,
    0x100,
    0xffff,
    0x1_0000,
    0xffff_ffff,
    0x1_0000_0000,
    0x7fff_ffff_ffff_ffff,
    0x8000_0000_0000_0000,
    0xffff_ffff_ffff_ffff,
    4096,
    4097,
];

/// A sequence of draws.
#[derive(Drop)]
pub struct Draws {
    words: Pcg32,
}

impl Draws {
    /// The draws of the input of this number under a seed. Each input has a sequence of its own, so that one can be made
    /// without those before it.
    pub fn of_input(seed: u64, number: u64) -> Draws {
        Draws {
            words: Pcg32::new(seed, number),
        }
    }

    /// A number below the bound.
    pub fn below(&mut self, bound: u32) -> u32
        requires { 0 < bound }
        ensures { result < bound }
    {
        self.words.next_word() % bound
    }

    /// True once in so many draws.
    pub fn one_in(&mut self, bound: u32) -> bool
        requires { 0 < bound }
    {
        self.below(bound) == 0
    }

    /// A place in a list of this length.
    pub fn place(&mut self, length: usize) -> usize
        requires { 0 < length }
        ensures { result < length }
    {
        self.words.next_word() as usize % length
    }

    pub fn byte(&mut self) -> u8 {
        (self.words.next_word() & 0xff) as u8
    }

    /// One of the texts, or none where there are none.
    pub fn pick<'a>(&mut self, texts: &[&'a str]) -> &'a str {
        if texts.is_empty() {
            return "";
        }
        let place = self.place(texts.len());
        texts[place]
    }

    /// Mostly a small number, sometimes one at which a width or a limit ends.
    pub fn number(&mut self) -> u64 {
        match self.below(16) {
            0..=9 => u64::from(self.below(5)),
            10..=12 => u64::from(self.below(20)),
            13 => u64::from(self.below(5000)),
            14 => u64::from(self.words.next_word()),
            _ => EDGES[self.place(EDGES.len())],
        }
    }
}
