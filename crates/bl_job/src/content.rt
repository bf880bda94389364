//! The contents of a file.
ghost use Rattle.std.specs.Prelude.{◌≡◌, IfOk};
ghost use Rattle.bl_job.specs.WorkAnswers.{content_in};

use bl_base::NoMemory;
use bl_decode::Decoder;
use std::alloc::Global;

/// What a file has.
#[derive(Drop)]
pub enum Content {
    /// Bytes as they are.
    Bytes(Vec<u8>),
    /// The bytes of a module, which was decoded as it was read.
    Module(Decoder),
}

impl Content {
    /// A module of those bytes, decoded.
    pub fn of_module(alloc: Global, bytes: &[u8]) -> Result<Content, NoMemory>
        ensures { IfOk result (λ content. content_in content ≡ bytes.now) }
    {
        let mut decoder = Decoder::new(alloc)?;
        decoder.feed(alloc, bytes)?;
        Ok(Content::Module(decoder))
    }

    /// The bytes. Takes no memory.
    pub fn bytes(&self) -> &[u8]
        ensures { result.now ≡ content_in self.now }
    {
        match self {
            Content::Bytes(bytes) => bytes.as_slice(),
            Content::Module(decoder) => decoder.bytes(),
        }
    }
}
