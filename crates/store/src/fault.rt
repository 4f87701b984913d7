ghost use Rattle.std.specs.Prelude.{◌≡◌, Some};
ghost use Rattle.store.specs.Faults.{number, refusal_words, level, layer_words, fault_words};

use std::fmt;

// The question to which a call answered no. Its number is its discriminant.
#[derive(Clone, Copy, PartialEq, Eq, Debug)]
pub enum Refusal {
    NotEnoughBytes = 1,
    OutputTooShort = 2,
    NotEmpty = 3,
    NoSlot = 4,
    NoStoreRoom = 5,
    NoWritableRoom = 6,
    BeyondCapacity = 7,
    LengthsDiffer = 8,
    RunTooLong = 9,
}

// The layer that refused. Its number is its discriminant.
#[derive(Clone, Copy, PartialEq, Eq, Debug)]
pub enum Layer {
    Store = 1,
    Chunk = 2,
    Container = 3,
}

// A refusal: which one, at which layer, the count that was asked for and the count that there was.
#[derive(Clone, Copy, PartialEq, Eq, Debug)]
pub struct Fault {
    pub refusal: Refusal,
    pub layer: Layer,
    pub asked: usize,
    pub available: usize,
}

impl Refusal {
    // The refusal in plain words.
    pub fn words(self) -> &'static str
        ensures { result.now ≡ refusal_words self }
    {
        match self {
            Refusal::NotEnoughBytes => "not enough bytes",
            Refusal::OutputTooShort => "output too short",
            Refusal::NotEmpty => "container to be filled not empty",
            Refusal::NoSlot => "no slot",
            Refusal::NoStoreRoom => "no store room",
            Refusal::NoWritableRoom => "no writable room",
            Refusal::BeyondCapacity => "beyond the capacity",
            Refusal::LengthsDiffer => "lengths differ",
            Refusal::RunTooLong => "run too long",
        }
    }
}

impl Layer {
    // The layer in plain words.
    pub fn words(self) -> &'static str
        ensures { result.now ≡ layer_words self }
    {
        match self {
            Layer::Store => "store",
            Layer::Chunk => "chunk",
            Layer::Container => "container",
        }
    }
}

impl fmt::Display for Refusal {
    ghost output = { λ x. Some (refusal_words x) };

    fn fmt<W: fmt::Write>(&self, f: &mut fmt::Formatter<W>) -> fmt::Result {
        f.write_str(self.words())
    }
}

impl fmt::Display for Layer {
    ghost output = { λ x. Some (layer_words x) };

    fn fmt<W: fmt::Write>(&self, f: &mut fmt::Formatter<W>) -> fmt::Result {
        write!(f, "{}", self.words())
    }
}

impl Fault {
    // The number by which its refusal is known.
    pub fn number(&self) -> u8
        ensures { result ≡ number self.now.refusal }
    {
        self.refusal as u8
    }

    // The number of its layer, counted from the bottom.
    pub fn level(&self) -> u8
        ensures { result ≡ level self.now.layer }
    {
        self.layer as u8
    }
}

impl fmt::Display for Fault {
    ghost output = { λ f. Some (fault_words f) };

    fn fmt<W: fmt::Write>(&self, f: &mut fmt::Formatter<W>) -> fmt::Result {
        let number = self.number();
        let level = self.level();
        let Fault {
            refusal,
            layer,
            asked,
            available,
        } = *self;
        write!(
            f,
            "refused {number} ({refusal}), layer {level} ({layer}): asked {asked}, available {available}"
        )
    }
}
